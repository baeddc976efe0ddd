ghost use Rattle.std.specs.Prelude.{◌≡◌, option_map};
ghost use Rattle.pw_sections.specs.Words.{words};
ghost use Rattle.pw_pathcom.specs.Verbs.{keyword, object_of, deed, set_for_terminals, set_for_servers, set_for, setting, with_operand, command_of};

use pw_sections::word::{is_blank, next_word};
use pw_words::texts::pathcom_words;

/// A word of the commands, or another word.
#[derive(Clone, Copy, Debug)]
pub enum CommandKeyword {
    Set,
    Add,
    Start,
    Tcp,
    Term,
    Server,
    Initial,
    Program,
    MaxServers,
    MaxRestarts,
    Other,
}

/// The keywords, in the order of the table of words.
const KEYWORDS: [CommandKeyword; 10] = [
    CommandKeyword::Set,
    CommandKeyword::Add,
    CommandKeyword::Start,
    CommandKeyword::Tcp,
    CommandKeyword::Term,
    CommandKeyword::Server,
    CommandKeyword::Initial,
    CommandKeyword::Program,
    CommandKeyword::MaxServers,
    CommandKeyword::MaxRestarts,
];

impl CommandKeyword {
    /// The keyword that a word is, in either case.
    fn of(word: &[u8]) -> CommandKeyword
        ensures { result ≡ keyword word.now }
    {
        match pathcom_words().find(word) {
            Some(place) => KEYWORDS[place],
            None => CommandKeyword::Other,
        }
    }
}

/// What is added and started.
#[derive(Clone, Copy, Debug)]
pub enum Object {
    Tcp,
    Term,
    Server,
}

/// What a command does.
#[derive(Clone, Copy, Debug)]
pub enum CommandVerb {
    SetTcp,
    SetInitial,
    SetRestarts,
    SetProgram,
    SetProcesses,
    Add(Object),
    Start(Object),
}

/// The kind of object that a keyword names.
fn object_of(kind: CommandKeyword) -> Option<Object>
    ensures { result ≡ object_of kind }
{
    match kind {
        CommandKeyword::Tcp => Some(Object::Tcp),
        CommandKeyword::Term => Some(Object::Term),
        CommandKeyword::Server => Some(Object::Server),
        _ => None,
    }
}

/// ADD or START of an object.
fn deed(action: CommandKeyword, kind: CommandKeyword) -> Option<CommandVerb>
    ensures { result ≡ deed action kind }
{
    match action {
        CommandKeyword::Add => object_of(kind).map(CommandVerb::Add),
        CommandKeyword::Start => object_of(kind).map(CommandVerb::Start),
        _ => None,
    }
}

/// What is set for terminals.
fn set_for_terminals(attribute: CommandKeyword) -> Option<CommandVerb>
    ensures { result ≡ set_for_terminals attribute }
{
    match attribute {
        CommandKeyword::Tcp => Some(CommandVerb::SetTcp),
        CommandKeyword::Initial => Some(CommandVerb::SetInitial),
        CommandKeyword::MaxRestarts => Some(CommandVerb::SetRestarts),
        _ => None,
    }
}

/// What is set for servers.
fn set_for_servers(attribute: CommandKeyword) -> Option<CommandVerb>
    ensures { result ≡ set_for_servers attribute }
{
    match attribute {
        CommandKeyword::Program => Some(CommandVerb::SetProgram),
        CommandKeyword::MaxServers => Some(CommandVerb::SetProcesses),
        _ => None,
    }
}

/// What is set for a kind of object.
fn set_for(kind: CommandKeyword, attribute: CommandKeyword) -> Option<CommandVerb>
    ensures { result ≡ set_for kind attribute }
{
    match kind {
        CommandKeyword::Term => set_for_terminals(attribute),
        CommandKeyword::Server => set_for_servers(attribute),
        _ => None,
    }
}

/// SET of an attribute of a kind of object.
fn setting(
    set: CommandKeyword,
    kind: CommandKeyword,
    attribute: CommandKeyword,
) -> Option<CommandVerb>
    ensures { result ≡ setting set kind attribute }
{
    match set {
        CommandKeyword::Set => set_for(kind, attribute),
        _ => None,
    }
}

/// What a command does, and its operand; None exactly where the words of the line are no command.
pub fn command_of(line: &[u8]) -> Option<(CommandVerb, &[u8])>
    ensures { option_map (λ command. (command.0, command.1.now)) result ≡ command_of (words line.now) }
{
    let (first, rest) = next_word(line)?;
    let (second, rest) = next_word(rest)?;
    let (third, rest) = next_word(rest)?;
    let Some((fourth, rest)) = next_word(rest) else {
        let verb = deed(CommandKeyword::of(first), CommandKeyword::of(second))?;
        return Some((verb, third));
    };
    if !is_blank(rest) {
        return None;
    }
    let verb = setting(
        CommandKeyword::of(first),
        CommandKeyword::of(second),
        CommandKeyword::of(third),
    )?;
    Some((verb, fourth))
}
