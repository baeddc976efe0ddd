ghost use Rattle.std.specs.Prelude.{◌≡◌, None};

use crate::fault::{FileAction, FileFailure};
use crate::raw::RawFile;
use pw_volume::fault::DiskFailed;
use std::fs::File;
use std::io;
use std::io::ErrorKind;
use std::os::unix::fs::{FileExt, MetadataExt};
use std::snapshot::Snapshot;

/// A file of the operating system. Each call makes one of std, and then notes what contracts see of it: that the system
/// has done it is trusted (docs/design/STORAGE.md).
#[derive(Drop)]
pub struct HostFile {
    file: File,
    /// The first call that failed.
    failure: Option<FileFailure>,
    pub(crate) has: Snapshot<Vec<u8>>,
    pub(crate) synced: Snapshot<Vec<u8>>,
}

impl HostFile {
    /// A file that has these bytes, synced.
    pub(crate) fn of(file: File, bytes: &Vec<u8>) -> HostFile
        ensures has { result.has.value ≡ bytes.now }
        ensures synced { result.synced.value ≡ bytes.now }
    {
        HostFile {
            file,
            failure: None,
            has: Snapshot::of(bytes),
            synced: Snapshot::of(bytes),
        }
    }

    /// The first call that failed, if one did.
    pub fn failure(&self) -> Option<FileFailure> {
        self.failure
    }

    /// Notes how a call went: each error of the system is a fault of the disk.
    fn done(&mut self, action: FileAction, answer: io::Result<()>) -> Result<(), DiskFailed>
        ensures has { self.new.has ≡ self.old.has }
        ensures synced { self.new.synced ≡ self.old.synced }
    {
        match answer {
            Ok(()) => Ok(()),
            Err(error) => {
                if self.failure.is_none() {
                    self.failure = Some(FileFailure { action, error });
                }
                Err(DiskFailed)
            }
        }
    }
}

/// Hands what a file has to the device, its length too. A file that nobody can open again is none: where its name was taken away,
/// with its folder, say, the sync has failed.
fn sync_named(file: &File) -> io::Result<()> {
    file.sync_all()?;
    if file.metadata()?.nlink() == 0 {
        return Err(ErrorKind::NotFound.into());
    }
    Ok(())
}

impl RawFile for HostFile {
    ghost has = { λ host. host.has.value.items };

    ghost synced = { λ host. host.synced.value.items };

    fn write(&mut self, at: u64, piece: &[u8], all: &Vec<u8>) -> Result<(), DiskFailed> {
        let answer = self.file.write_all_at(piece, at);
        self.done(FileAction::Write, answer)?;
        self.has = Snapshot::of(all);
        Ok(())
    }

    fn cut(&mut self, length: u64, all: &Vec<u8>) -> Result<(), DiskFailed> {
        let answer = self.file.set_len(length);
        self.done(FileAction::Cut, answer)?;
        self.has = Snapshot::of(all);
        Ok(())
    }

    fn sync(&mut self, all: &Vec<u8>) -> Result<(), DiskFailed> {
        let answer = sync_named(&self.file);
        self.done(FileAction::Sync, answer)?;
        self.synced = Snapshot::of(all);
        Ok(())
    }
}
