//! The deck with which a store began.

ghost use Rattle.std.specs.Prelude.{IfErr, IfOk};
ghost use Rattle.pw_base.specs.First.{Refuses};
ghost use Rattle.pw_deck.specs.Deck.{deck_of};
ghost use Rattle.pw_store_runs.specs.Stores.{AreFilesOf};

use pw_base::fault::Refusal;
use pw_base::list::List;
use pw_base::memory::Memory;
use pw_code::copies::Duplicate;
use pw_code::file::FileInfo;
use pw_compiled_deck::deck::{Deck, read};
use pw_report::taken::let_go;
use std::alloc::Global;

/// The files of the deck of these bytes, with its records. It refuses exactly with the deck's first fault.
pub fn first_files(alloc: Global, bytes: &[u8]) -> Result<List<FileInfo>, Refusal>
    ensures ok { IfOk result (AreFilesOf bytes.now) }
    ensures fault { IfErr result (λ refusal. Refuses refusal (deck_of bytes.now)) }
{
    let Deck { system, .. } = match read(alloc, bytes) {
        Ok(deck) => deck,
        Err(refusal) => return Err(refusal),
    };
    let files = system.files.copy(alloc);
    let_go(system);
    match files {
        Ok(files) => Ok(files),
        Err(Memory) => Err(Refusal::Memory),
    }
}
