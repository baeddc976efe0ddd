//! A folder of the system in which a store keeps its files: it is locked by a lock on a file of it, and its files are read whole,
//! and made whole. docs/design/STORAGE.md has what is trusted of it.

use crate::fault::{FileAction, OpenFailed, during};
use std::alloc::Global;
use std::fs::{File, Metadata, OpenOptions, Permissions, TryLockError};
use std::io::ErrorKind;
use std::os::fd::AsRawFd;
use std::os::unix::fs::{FileExt, MetadataExt, OpenOptionsExt, PermissionsExt, fchown};
use std::{fs, io};

/// The name of the file whose lock is that of the folder.
const LOCK: &str = "lock";

/// The mode of a file that is made where none was before.
const MODE: u32 = 0o644;

/// A folder that is there, which stays locked as long as this is there. The lock is on the file `lock` in it, since some file systems
/// that two machines share see locks on files alone.
#[derive(Drop)]
pub struct HostFolder {
    path: String,
    place: File,
    /// Its lock goes with it.
    _lock: File,
}

/// A regular file of a folder, and all that it has.
#[derive(Drop)]
pub struct WholeFile {
    /// Open for changes too where the system allows it.
    pub file: File,
    pub bytes: Vec<u8>,
}

impl HostFolder {
    /// The folder of this name, which is locked before any other file of it is opened. `InUse` where it is locked already, also by
    /// this process.
    pub fn open(rt: &HostRuntime, alloc: Global, path: &str) -> Result<HostFolder, OpenFailed> {
        let place = during(FileAction::Open, File::open(rt, path))?;
        if !during(FileAction::Find, place.metadata())?.is_dir() {
            return Err(OpenFailed::NoFile);
        }
        let lock = open_lock(rt, format!(in alloc; "{path}/{LOCK}")?.as_str())?;
        match lock.try_lock() {
            Ok(()) => Ok(HostFolder {
                path: format!(in alloc; "{path}")?,
                place,
                _lock: lock,
            }),
            Err(TryLockError::WouldBlock) => Err(OpenFailed::InUse),
            Err(TryLockError::Error(error)) => during(FileAction::Lock, Err(error)),
        }
    }

    /// All that a regular file of the folder has; none where there is no file of this name. What an earlier process has written is
    /// synced first. It changes nothing.
    pub fn read(
        &self,
        rt: &HostRuntime,
        alloc: Global,
        name: &str,
    ) -> Result<Option<WholeFile>, OpenFailed> {
        let path = format!(in alloc; "{}/{name}", self.path.as_str())?;
        let Some(found) = regular(rt, path.as_str())? else {
            return Ok(None);
        };
        let file = open_found(rt, path.as_str(), &found)?;
        during(FileAction::Sync, file.sync_all())?;
        let length = during(FileAction::Find, file.metadata())?.len() as usize;
        let mut bytes = vec![in alloc; 0u8; length]?;
        during(
            FileAction::Read,
            file.read_exact_at(bytes.as_mut_slice(), 0),
        )?;
        Ok(Some(WholeFile { file, bytes }))
    }

    /// Makes a file of these bytes, which takes its name, also from another, once they are synced; and syncs the folder. It has the
    /// mode and the owner of the one before, where there was one. A crash leaves the file as it was, or all of these bytes. What was
    /// made is taken away again where a call fails.
    pub fn make(
        &self,
        rt: &HostRuntime,
        alloc: Global,
        name: &str,
        bytes: &[u8],
    ) -> Result<File, OpenFailed> {
        let path = format!(in alloc; "{}/{name}", self.path.as_str())?;
        let made = format!(in alloc; "{}/{name}.new", self.path.as_str())?;
        remove(rt, made.as_str())?;
        let file = create(rt, made.as_str())?;
        match name_filled(rt, &file, path.as_str(), made.as_str(), bytes) {
            Ok(()) => {
                during(FileAction::SyncFolder, self.place.sync_all())?;
                Ok(file)
            }
            Err(failed) => {
                let _left = remove(rt, made.as_str());
                Err(failed)
            }
        }
    }
}

/// Gives a file that was made the mode and the owner of the one that has the name, its bytes, and the name.
fn name_filled(
    rt: &HostRuntime,
    file: &File,
    path: &str,
    made: &str,
    bytes: &[u8],
) -> Result<(), OpenFailed> {
    if let Some(before) = regular(rt, path)? {
        during(FileAction::GiveAccess, give_access(file, &before))?;
    }
    during(FileAction::Write, file.write_all_at(bytes, 0))?;
    during(FileAction::Sync, file.sync_all())?;
    during(FileAction::Rename, fs::rename(rt, made, path))
}

/// What is known of a regular file; none where there is nothing of this name. A link is no file, nor is a pipe.
fn regular(rt: &HostRuntime, path: &str) -> Result<Option<Metadata>, OpenFailed> {
    match fs::symlink_metadata(rt, path) {
        Ok(found) if found.is_file() => Ok(Some(found)),
        Ok(_) => Err(OpenFailed::NoFile),
        Err(error) if error.kind() == ErrorKind::NotFound => Ok(None),
        Err(error) => during(FileAction::Find, Err(error)),
    }
}

/// The file of the folder's lock, which is made where it is not there. A folder that may only be read is locked too.
fn open_lock(rt: &HostRuntime, path: &str) -> Result<File, OpenFailed> {
    match regular(rt, path)? {
        Some(_) => {
            let file = during(FileAction::Open, File::open(rt, path))?;
            after_the_streams(file)
        }
        None => create(rt, path),
    }
}

/// A new file: nothing may have the name, no link either.
fn create(rt: &HostRuntime, path: &str) -> Result<File, OpenFailed> {
    let file = OpenOptions::new()
        .read(true)
        .write(true)
        .create_new(true)
        .mode(MODE)
        .open(rt, path);
    after_the_streams(during(FileAction::Make, file)?)
}

/// The regular file that was found under a name, open for changes where the system allows it, else for reading. One that took the
/// name since then is refused.
fn open_found(rt: &HostRuntime, path: &str, found: &Metadata) -> Result<File, OpenFailed> {
    let file = match OpenOptions::new().read(true).write(true).open(rt, path) {
        Err(error)
            if matches!(
                error.kind(),
                ErrorKind::PermissionDenied | ErrorKind::ReadOnlyFilesystem
            ) => File::open(rt, path),
        answer => answer,
    };
    let file = during(FileAction::Open, file)?;
    let opened = during(FileAction::Find, file.metadata())?;
    if opened.dev() != found.dev() || opened.ino() != found.ino() {
        return Err(OpenFailed::NoFile);
    }
    after_the_streams(file)
}

/// Takes a file away that has this name, or a link; there may be none.
fn remove(rt: &HostRuntime, path: &str) -> Result<(), OpenFailed> {
    match fs::remove_file(rt, path) {
        Err(error) if error.kind() != ErrorKind::NotFound => during(FileAction::Remove, Err(error)),
        _ => Ok(()),
    }
}

/// Gives a file the mode of another one, and its group and owner where this process may.
fn give_access(file: &File, before: &Metadata) -> io::Result<()> {
    unless_denied(fchown(file, None, Some(before.gid())))?;
    unless_denied(fchown(file, Some(before.uid()), None))?;
    file.set_permissions(Permissions::from_mode(before.mode() & 0o777))
}

/// Only root sets an owner, and a member of a group may still set that.
fn unless_denied(outcome: io::Result<()>) -> io::Result<()> {
    match outcome {
        Err(error) if error.kind() == ErrorKind::PermissionDenied => Ok(()),
        other => other,
    }
}

/// A file that got the number of a standard stream which was closed gets another, so that nothing that is meant for the
/// stream lands in it.
fn after_the_streams(file: File) -> Result<File, OpenFailed> {
    if file.as_raw_fd() <= 2 {
        during(FileAction::Open, file.try_clone())
    } else {
        Ok(file)
    }
}
