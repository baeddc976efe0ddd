ghost use Rattle.std.specs.Prelude.{◌≡◌, ◌≤◌, length, IfOk};
ghost use Rattle.pw_code.specs.Limits.{most_files};
ghost use Rattle.pw_records.specs.Records.{files_with, with_records};
ghost use Rattle.pw_tmf.specs.Committed.{committed};

use pw_base::list::List;
use pw_base::memory::Memory;
use pw_code::copies::Duplicate;
use pw_code::file::FileInfo;
use pw_code::system::System;
use pw_tmf::disc::Disc;
use std::alloc::Global;

/// A copy of a system whose files have the records that a disc of it has committed.
pub fn with_records<D: Disc>(alloc: Global, system: &System, disc: &D) -> Result<System, Memory>
    requires few { length system.now.files ≤ most_files }
    requires files { (D.told disc.now).file_count ≡ length system.now.files }
    ensures { IfOk result (λ copy. copy ≡ with_records system.now (committed (D.told disc.now))) }
{
    let files = committed_files(alloc, system.files.as_slice(), disc)?;
    Ok(with_files(system.copy(alloc)?, files))
}

/// The same files with the records that a disc has committed.
fn committed_files<D: Disc>(
    alloc: Global,
    files: &[FileInfo],
    disc: &D,
) -> Result<List<FileInfo>, Memory>
    requires few { length files.now ≤ most_files }
    requires files { (D.told disc.now).file_count ≡ length files.now }
    ensures { IfOk result (λ copies. copies ≡ files_with files.now (committed (D.told disc.now))) }
{
    let mut copies = List::new(alloc);
    for number in 0..files.len() as u32 {
        let file = &files[number as usize];
        copies.push(FileInfo {
            name: file.name.copy(alloc)?,
            key: file.key,
            records: List::from_vec(disc.committed(alloc, number)?),
        })?;
    }
    Ok(copies)
}

/// The system with these files.
pub fn with_files(system: System, files: List<FileInfo>) -> System
    ensures { result ≡ record system { files = files } }
{
    let System {
        programs,
        servers,
        screens,
        classes,
        files: _,
        tcps,
        terminals,
        rule,
    } = system;
    System {
        programs,
        servers,
        screens,
        classes,
        files,
        tcps,
        terminals,
        rule,
    }
}
