//! What the words of the command line say.

ghost use Rattle.std.specs.Prelude.{◌≡◌, IfOk, IfSome, map, string_bytes};
ghost use Rattle.pathway.specs.Commands.{is_for_program, is_for_desk, said};
ghost use Rattle.pw_command_line.specs.CommandLine.{AreOptionsInRange};

use pw_base::memory::Memory;
use pw_command_line::read::read_words;
use pw_command_line::words::{Command, Words, WordsFault};
use std::alloc::Global;

/// What the words say; None exactly where they are not those of a command.
pub fn said(alloc: Global, words: &[String]) -> Result<Option<Words>, Memory>
    ensures says { IfOk result (λ words_say. words_say ≡ said is_for_program (map string_bytes words.now)) }
    ensures range { IfOk result (λ words_say. IfSome words_say AreOptionsInRange) }
{
    match read_words(alloc, words) {
        Ok(said) => Ok(Some(said)),
        Err(WordsFault::Refused) => Ok(None),
        Err(WordsFault::Memory) => Err(Memory),
    }
}

/// What the words say; None exactly where they are not those of a command that waits for no thread.
pub fn said_to_desk(alloc: Global, words: &[String]) -> Result<Option<Words>, Memory>
    ensures says { IfOk result (λ words_say. words_say ≡ said is_for_desk (map string_bytes words.now)) }
    ensures range { IfOk result (λ words_say. IfSome words_say AreOptionsInRange) }
{
    match read_words(alloc, words) {
        Ok(said) if is_for_desk(said.command) => Ok(Some(said)),
        Ok(_) => Ok(None),
        Err(WordsFault::Refused) => Ok(None),
        Err(WordsFault::Memory) => Err(Memory),
    }
}

/// Whether a command waits for no thread.
fn is_for_desk(command: Command) -> bool
    ensures { result ≡ is_for_desk command }
{
    matches!(
        command,
        Command::Check | Command::Verify | Command::Gen | Command::Status | Command::Expand
    )
}
