ghost use Rattle.std.specs.Prelude.{◌≡◌, All, IfOk, List as ListOf, ℕ, [], map, replicate};
ghost use Rattle.pw_blocks.specs.Blocks.{BlocksState, records_of};
ghost use Rattle.pw_code.specs.Valid.{IsDeckFile};
ghost use Rattle.pw_files.specs.Records.{IsContent, IsKeyLength};
ghost use Rattle.pw_tmf.specs.Starting.{all_put, key_in, key_in_system, records_in, records_in_system};
ghost use Rattle.pw_tmf.specs.Tmf.{no_slot};

use crate::slot::Slot;
use crate::store::put;
use pw_base::bytes::Bytes;
use pw_base::memory::Memory;
use pw_blocks::block_file::BlockFile;
use pw_code::file::FileInfo;
use std::alloc::Global;

/// A file of these records.
fn file_of(alloc: Global, key: u16, records: &[Bytes]) -> Result<BlockFile, Memory>
    requires key { IsKeyLength key }
    requires records { All (IsContent key) records.now }
    ensures key { IfOk result (λ file. file.key ≡ key) }
    ensures records { IfOk result (λ file. records_of file.blocks ≡ all_put key [] records.now) }
{
    let mut file = BlockFile::new(alloc, key)?;
    for content in records {
        put(&mut file, content)?;
    }
    Ok(file)
}

/// The files of a system.
pub fn files_of(alloc: Global, files: &[FileInfo]) -> Result<Vec<BlockFile>, Memory>
    requires { All IsDeckFile files.now }
    ensures keys { IfOk result (λ made. map key_in made.items ≡ map key_in_system files.now) }
    ensures records { IfOk result (λ made. map records_in made.items ≡ map records_in_system files.now) }
{
    let mut made = Vec::new(alloc);
    for file in files {
        made.push(file_of(alloc, file.key, file.records.as_slice())?)?;
    }
    Ok(made)
}

/// The units of so many terminals, none of which has begun.
pub fn slots_of(alloc: Global, terminals: usize) -> Result<Vec<Slot>, Memory>
    ensures { IfOk result (λ slots. slots.items ≡ replicate terminals no_slot) }
{
    let mut slots = Vec::new(alloc);
    for _ in 0..terminals {
        slots.push(Slot::new())?;
    }
    Ok(slots)
}
