use pw_base::memory::Memory;
use std::alloc::{AllocError, AllocFailed};
use std::io;
use thiserror::Error;

/// What a call of the system was to do with a file or a folder.
#[derive(Clone, Copy, Debug, PartialEq, Eq, Error)]
pub enum FileAction {
    #[error("open")]
    Open,
    #[error("lock")]
    Lock,
    #[error("look at")]
    Find,
    #[error("read")]
    Read,
    #[error("make")]
    Make,
    #[error("give mode and owner to")]
    GiveAccess,
    #[error("write")]
    Write,
    #[error("cut")]
    Cut,
    #[error("sync")]
    Sync,
    #[error("rename")]
    Rename,
    #[error("remove")]
    Remove,
    #[error("sync the folder of")]
    SyncFolder,
}

/// A call of the system that failed, and why.
#[derive(Clone, Copy, Debug, Error)]
#[error("{action}: {error}")]
pub struct FileFailure {
    pub action: FileAction,
    pub error: io::Error,
}

/// Why a file of a folder was not opened or made.
#[derive(Clone, Copy, Debug, Error)]
pub enum OpenFailed {
    /// The folder is locked by another process, or by another call of this one.
    #[error("it is in use")]
    InUse,
    /// What has the name is no regular file, or what should be a folder is none.
    #[error("it is no file")]
    NoFile,
    /// Memory ran out.
    #[error("out of memory")]
    Memory,
    /// A call of the system failed.
    #[error("{0}")]
    System(FileFailure),
}

/// What a call of the system answered, or that it failed.
pub(crate) fn during<T: Drop>(action: FileAction, answer: io::Result<T>) -> Result<T, OpenFailed> {
    match answer {
        Ok(value) => Ok(value),
        Err(error) => Err(OpenFailed::System(FileFailure { action, error })),
    }
}

impl From<AllocError> for OpenFailed {
    fn from(_error: AllocError) -> OpenFailed {
        OpenFailed::Memory
    }
}

impl<T: Drop> From<AllocFailed<T>> for OpenFailed {
    fn from(_error: AllocFailed<T>) -> OpenFailed {
        OpenFailed::Memory
    }
}

impl From<Memory> for OpenFailed {
    fn from(_memory: Memory) -> OpenFailed {
        OpenFailed::Memory
    }
}
