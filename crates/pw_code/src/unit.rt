/// A unit of work: a transaction of a terminal, or one SEND outside a transaction.
#[derive(Clone, Copy, Debug, PartialEq, Eq)]
pub struct Unit {
    pub terminal: u32,
    /// The unit's number on its terminal, from 1.
    pub number: u32,
    /// The unit's place in the order of first beginnings: the smaller is the older.
    pub birth: u64,
}
