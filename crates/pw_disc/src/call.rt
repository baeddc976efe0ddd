use crate::units::Units;
use pw_base::bytes::Bytes;
use pw_code::file::FileCall;
use pw_code::unit::Unit;

/// A call of a disc that changes what it keeps.
#[derive(Debug, Drop)]
pub enum DiscCall {
    /// The next attempt of the unit begins.
    Begin(Unit),
    /// The unit does an operation on a file.
    Operate(Unit, FileCall),
    /// The unit ends with its changes, and its reply is kept, if there is one.
    Commit(Unit, Option<Bytes>),
    /// The changes of the units are put back; where the truth is set, the units end.
    BackOut(Units, bool),
}
