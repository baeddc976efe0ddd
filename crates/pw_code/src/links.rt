use crate::file::FileInfo;
use pw_base::bytes::Bytes;
use pw_base::list::List;

/// What the programs of a deck may name besides what is theirs. The programs are those of terminals;
/// they, the classes and the files are numbered from 0, in order of declaration.
#[derive(Debug, Drop)]
pub struct Links {
    /// The names of the programs.
    pub programs: List<Bytes>,
    /// The names of the classes.
    pub classes: List<Bytes>,
    pub files: List<FileInfo>,
}
