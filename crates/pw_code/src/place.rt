/// What the characters of an item are: those of a group, a text, or a number of `digits` digits of
/// which the last `places` are decimals, behind a sign where it is `signed`.
#[derive(Clone, Copy, Debug, PartialEq, Eq)]
pub enum Kind {
    Group,
    Text,
    Number {
        digits: u8,
        places: u8,
        signed: bool,
    },
}

/// A register: all programs of a terminal have it in common, and no statement writes it.
#[derive(Clone, Copy, Debug, PartialEq, Eq)]
pub enum Register {
    /// TERMINATION-STATUS, 4 digits.
    Termination,
    /// RESTART-COUNTER, 5 digits.
    Restarts,
    /// FILE-STATUS, 4 digits.
    FileStatus,
}

/// What says which occurrence of an item is meant, counted from 1.
#[derive(Clone, Copy, Debug, PartialEq, Eq)]
pub enum PlaceSubscript {
    /// A number as it is written, of at most 18 digits.
    Number(u64),
    /// The whole part of an unsigned Number item, which lies `at` and has `digits` digits, of which the last
    /// `places` are decimals.
    Item { at: u32, digits: u8, places: u8 },
    /// The value of a register.
    Register(Register),
}

/// The table in which an item stands: `occurs` occurrences, 1 to 1,000, each `step` characters behind
/// the one before.
#[derive(Clone, Copy, Debug, PartialEq, Eq)]
pub struct PlaceTable {
    pub subscript: PlaceSubscript,
    pub occurs: u16,
    pub step: u32,
}

/// Where an item lies in the storage of its program: `size` characters from `at` on, or from where the
/// subscript of its table says. What holds of the places of a program is `IsPlace`.
#[derive(Clone, Copy, Debug, PartialEq, Eq)]
pub struct StoragePlace {
    pub at: u32,
    pub size: u32,
    pub kind: Kind,
    pub table: Option<PlaceTable>,
}
