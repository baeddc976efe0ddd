ghost use Rattle.std.specs.Prelude.{◌≡◌, ◌≤◌, length, map, All, Ok, IfOk};
ghost use Rattle.pw_base.specs.First.{Gives};
ghost use Rattle.pw_code.specs.Limits.{most_fail_lines};
ghost use Rattle.pw_code.specs.Valid.{IsValid};
ghost use Rattle.pw_code.specs.declared.lock.LockRule.TheVariants.{ReadersShare};
ghost use Rattle.pw_deck.specs.Deck.{deck_of};
ghost use Rattle.pw_deck.specs.declared.deck.ParsedDeck as trees_of_deck;
ghost use Rattle.pw_code_meaning.specs.OfSystem.{behaviour};
ghost use Rattle.pw_onecopy.specs.IsBehaviour.{IsBehaviour};
ghost use Rattle.pw_tree_meaning.specs.OfDeck as tree;
ghost use Rattle.pw_compiled_deck.specs.Named.{IsFailNamed};
ghost use Rattle.pw_compiled_deck.specs.Short.{IsSmall};
ghost use Rattle.pw_compiled_deck.specs.Whole.{compiled, trees_of, whole_of};

use crate::codes::{all_screens, requester_codes, server_codes};
use pw_base::bytes::Bytes;
use pw_base::fault::Refusal;
use pw_base::list::List;
use pw_base::memory::Memory;
use pw_code::links::Links;
use pw_code::lock::LockRule;
use pw_code::system::{ClassInfo, System};
use pw_deck::deck as trees;
use pw_deck::deck::read_deck;
use pw_deck::named::requester_names;
use pw_deck_tables::told::DeckTables;
use pw_event::event::Event;
use pw_event::script::Script;
use std::alloc::Global;

/// What a deck says.
#[derive(Drop)]
pub struct Deck {
    /// The tables, with the codes of the programs, under ReadersShare.
    pub system: System,
    /// The failure lines.
    pub script: Script,
    /// The log, read by the rule of its version.
    pub log: List<Event>,
    /// The version of the log, 1 or 2: 2 where there is none.
    pub version: u8,
}

/// The names of classes, in their order.
fn class_names(alloc: Global, classes: &[ClassInfo]) -> Result<List<Bytes>, Memory>
    ensures { IfOk result (λ names. names ≡ map (λ class. class.name) classes.now) }
{
    let mut names = List::new(alloc);
    for class in classes {
        names.push(class.name.copy(alloc)?)?;
    }
    Ok(names)
}

/// A deck with its programs compiled.
fn compiled(alloc: Global, deck: trees::ParsedDeck) -> Result<Deck, Memory>
    ensures deck { IfOk result (λ whole. whole ≡ compiled deck) }
    ensures small { IfOk result (λ whole. IsSmall whole.system) }
{
    let trees::ParsedDeck {
        told,
        requesters,
        servers,
    } = deck;
    let DeckTables {
        system: tables,
        script,
        log,
        version,
    } = told;
    let links = Links {
        programs: requester_names(alloc, requesters.as_slice())?,
        classes: class_names(alloc, tables.classes.as_slice())?,
        files: tables.files,
    };
    let programs = requester_codes(alloc, requesters.as_slice(), &links)?;
    let servers = server_codes(alloc, servers.as_slice(), &links)?;
    let screens = all_screens(alloc, requesters)?;
    Ok(Deck {
        system: System {
            programs,
            servers,
            screens,
            classes: tables.classes,
            files: links.files,
            tcps: tables.tcps,
            terminals: tables.terminals,
            rule: LockRule::ReadersShare,
        },
        script,
        log,
        version,
    })
}

/// Reads a deck (docs/reference/DECK.md): its bytes once, and each section once, and compiles its programs.
///
/// It refuses exactly with the deck's first fault, as `read_deck` does. The system that it gives is
/// valid, and behaves by its codes as the deck does by the trees of its programs: so the paired system
/// may run it. The pair or process that a failure line names is there, and there are at most 64 lines.
pub fn read(alloc: Global, bytes: &[u8]) -> Result<Deck, Refusal>
    ensures gives { Gives (λ deck. deck) result (whole_of bytes.now) }
    ensures valid { IfOk result (λ deck. IsValid deck.system) }
    ensures behaves { IfOk result (λ deck. IsBehaviour (behaviour deck.script.lines deck.system)) }
    ensures same { (deck : trees_of_deck.ParsedDeck) → deck_of bytes.now ≡ Ok deck
        → IfOk result (λ whole. behaviour whole.script.lines whole.system
        ≡ tree.behaviour ReadersShare (trees_of deck)) }
    ensures small { IfOk result (λ deck. IsSmall deck.system) }
    ensures lines { IfOk result (λ deck. All (IsFailNamed deck.system) deck.script.lines) }
    ensures few { IfOk result (λ deck. length deck.script.lines ≤ most_fail_lines) }
{
    let deck = read_deck(alloc, bytes)?;
    Ok(compiled(alloc, deck)?)
}
