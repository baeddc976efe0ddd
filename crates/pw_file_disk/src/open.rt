ghost use Rattle.std.specs.Prelude.{◌≡◌, IfOk, IfSome};
ghost use Rattle.pw_file_disk.specs.FileDisk.{opened_with};

use crate::fault::OpenFailed;
use crate::file_disk::FileDisk;
use crate::folder::{HostFolder, WholeFile};
use crate::host::HostFile;
use std::alloc::Global;

/// The disk over the file of this name in a folder, none where there is no such file. It changes nothing: what the file has is
/// what a read of the disk gives and what a crash leaves, and the disk has not failed.
pub fn open(
    rt: &HostRuntime,
    alloc: Global,
    folder: &HostFolder,
    name: &str,
) -> Result<Option<FileDisk<HostFile>>, OpenFailed>
    ensures { IfOk result (λ found. IfSome found (λ disk. disk ≡ opened_with disk.bytes)) }
{
    match folder.read(rt, alloc, name)? {
        None => Ok(None),
        Some(WholeFile { file, bytes }) => {
            let host = HostFile::of(file, &bytes);
            Ok(Some(FileDisk::new(host, bytes)))
        }
    }
}

/// Makes the file of this name in a folder, with these bytes, and opens the disk over it, which has not failed.
pub fn make(
    rt: &HostRuntime,
    alloc: Global,
    folder: &HostFolder,
    name: &str,
    bytes: &[u8],
) -> Result<FileDisk<HostFile>, OpenFailed>
    ensures { IfOk result (λ disk. disk ≡ opened_with bytes.now) }
{
    let bytes = Vec::from_slice(alloc, bytes)?;
    let file = folder.make(rt, alloc, name, bytes.as_slice())?;
    let host = HostFile::of(file, &bytes);
    Ok(FileDisk::new(host, bytes))
}
