ghost use Rattle.std.specs.Prelude.{◌≡◌, ◌≤◌, length, Ok, IfOk};
ghost use Rattle.pw_base.specs.First.{Gives};
ghost use Rattle.pw_base.specs.Limits.{longest_input};
ghost use Rattle.pw_deck.specs.Deck.{end_found, deck_in, deck_of};
ghost use Rattle.pw_deck.specs.Parts.{parts_of};
ghost use Rattle.pw_deck.specs.Sound.{HasValidTables};

use crate::named::{requester_names, server_names};
use crate::parts::Parts;
use crate::sections::read_parts;
use pw_base::fault::Refusal;
use pw_base::fault_code::FaultCode;
use pw_base::list::List;
use pw_base::read_all::MAX_INPUT;
use pw_code::links::Links;
use pw_deck_tables::piece::line_count;
use pw_deck_tables::tables::class_names;
use pw_deck_tables::told::{DeckTables, tell};
use pw_names::names::names;
use pw_scobol::requester::Requester;
use pw_server::server::Server;
use std::alloc::Global;

/// What a deck says. Its programs are trees yet, and stand beside the tables of the system.
#[derive(Drop)]
pub struct ParsedDeck {
    /// The tables, the failure lines and the log.
    pub told: DeckTables,
    /// The programs of terminals.
    pub requesters: List<Requester>,
    /// The programs of servers.
    pub servers: List<Server>,
}

/// Refuses the line behind the last one of a deck that was not ended.
fn end_found(bytes: &[u8], has_end: bool) -> Result<(), Refusal>
    requires { length bytes.now ≤ longest_input }
    ensures { Gives (λ done. done) result (end_found bytes.now has_end) }
{
    if has_end {
        Ok(())
    } else {
        Err(Refusal::At {
            line: line_count(bytes) + 1,
            code: FaultCode::EndMissing,
        })
    }
}

/// The deck of what its sections say. It refuses exactly with the first of the faults that are looked
/// for once all sections are read.
fn finish(alloc: Global, bytes: &[u8], parts: Parts) -> Result<ParsedDeck, Refusal>
    requires size { length bytes.now ≤ longest_input }
    requires parts { parts_of bytes.now ≡ Ok parts }
    ensures { Gives (λ deck. deck) result (deck_in bytes.now parts.entry) }
{
    end_found(bytes, parts.has_end)?;
    let Parts {
        requesters,
        servers,
        mut objects,
        ..
    } = parts;
    let links = Links {
        programs: requester_names(alloc, requesters.as_slice())?,
        classes: class_names(alloc, objects.commands.classes.as_slice())?,
        files: objects.files,
    };
    names(alloc, requesters.as_slice(), servers.as_slice(), &links)?;
    let Links {
        programs,
        files,
        ..
    } = links;
    objects.files = files;
    let server_programs = server_names(alloc, servers.as_slice())?;
    let told = tell(
        alloc,
        objects,
        programs.as_slice(),
        server_programs.as_slice(),
    )?;
    Ok(ParsedDeck {
        told,
        requesters,
        servers,
    })
}

/// Reads a deck (docs/reference/DECK.md): its bytes once, and each section once.
///
/// It refuses exactly with the deck's first fault. Too long an input is 190 at line 0. The sections
/// come in text order, and in a section the passes in the order of docs/reference/DECK.md; the first pass that
/// has a fault gives its first, by line and on one line by code. Behind the sections come 192, and then
/// 161, 162, 123 in procedures, 163, 164, 183 and 185 in this order, each by line.
///
/// The tables of a deck are those of a valid system, whatever its programs are compiled to.
pub fn read_deck(alloc: Global, bytes: &[u8]) -> Result<ParsedDeck, Refusal>
    ensures gives { Gives (λ deck. deck) result (deck_of bytes.now) }
    ensures tables { IfOk result (λ deck. HasValidTables deck) }
{
    if bytes.len() > MAX_INPUT {
        return Err(Refusal::At {
            line: 0,
            code: FaultCode::InputTooLong,
        });
    }
    let parts = read_parts(alloc, bytes)?;
    finish(alloc, bytes, parts)
}
