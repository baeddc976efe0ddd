ghost use Rattle.std.specs.Prelude.{◌≡◌, ◌<◌};
ghost use Rattle.pw_base.specs.FaultCodes.{place, number};

use std::fmt::{self, Display, Formatter};

/// What is wrong in a text that is refused. The variants stand in the order of their numbers, and
/// docs/reference/DECK.md tells of each.
#[derive(Clone, Copy, Debug, PartialEq, Eq)]
pub enum FaultCode {
    /// A byte outside 0x20 to 0x7E, or a character that begins no token.
    BadCharacter,
    /// A text that its line does not close.
    UnclosedLiteral,
    /// A word of more than 30 characters.
    WordTooLong,
    /// A number of more than 18 digits.
    NumberTooLong,
    /// A picture of no form that there is.
    BadPicture,
    /// A data entry of another form, or in a place where it may not stand.
    BadDataEntry,
    /// A name that stands already, or a table word as a name.
    NameTwice,
    /// A name that no item has.
    UnknownItem,
    /// The storage of a program is too large.
    StorageTooLarge,
    /// A piece of a procedure of no form that there is.
    NoSuchForm,
    /// An ELSE or END-IF without its IF.
    NoIf,
    /// A second paragraph of a name.
    ParagraphTwice,
    /// A field with a cell outside the rows and columns of fields.
    FieldOutside,
    /// A cell that two fields use.
    FieldsOverlap,
    /// A clause of a screen that may not stand there.
    BadClause,
    /// A division or section that is missing, or a token that stands in none.
    BadDivision,
    /// A statement of requesters in a server.
    NotForServers,
    /// A paragraph that is not there.
    UnknownParagraph,
    /// A program, class, file or screen that is not there.
    UnknownName,
    /// An argument, key or record of another length.
    WrongLength,
    /// An operand of another kind.
    WrongKind,
    /// A log line of no form that there is, or with a wrong number.
    BadLogLine,
    /// A failure line of no form that there is.
    BadFailureLine,
    /// A command of no form that there is.
    BadCommand,
    /// A TCP, terminal or class that was added before.
    AddedTwice,
    /// A TCP, program, terminal, class, file or process that is not there.
    UnknownObject,
    /// A number outside its range.
    OutOfRange,
    /// A START of what was not added or is started.
    BadStart,
    /// An input of more bytes than one may have.
    InputTooLong,
    /// A section line of no form that there is, or a line before the first one.
    BadSection,
    /// No section line `?END`.
    EndMissing,
    /// A section that stands already.
    SectionTwice,
    /// A record that is shorter than its key or too long, or has a key that stands already.
    BadRecord,
    /// An entry line of no form that there is.
    BadEntry,
    /// More lines or sections than there may be.
    TooMany,
}

impl FaultCode {
    /// Its place among the variants, from 0.
    pub fn place(self) -> usize
        ensures value { result ≡ place self }
        ensures bound { result < 35 }
    {
        self as usize
    }

    /// Its number, 101 to 196.
    pub fn number(self) -> u16
        ensures { result ≡ number self }
    {
        match self {
            FaultCode::BadCharacter => 101,
            FaultCode::UnclosedLiteral => 102,
            FaultCode::WordTooLong => 103,
            FaultCode::NumberTooLong => 104,
            FaultCode::BadPicture => 111,
            FaultCode::BadDataEntry => 121,
            FaultCode::NameTwice => 122,
            FaultCode::UnknownItem => 123,
            FaultCode::StorageTooLarge => 124,
            FaultCode::NoSuchForm => 131,
            FaultCode::NoIf => 132,
            FaultCode::ParagraphTwice => 133,
            FaultCode::FieldOutside => 141,
            FaultCode::FieldsOverlap => 142,
            FaultCode::BadClause => 143,
            FaultCode::BadDivision => 151,
            FaultCode::NotForServers => 152,
            FaultCode::UnknownParagraph => 161,
            FaultCode::UnknownName => 162,
            FaultCode::WrongLength => 163,
            FaultCode::WrongKind => 164,
            FaultCode::BadLogLine => 171,
            FaultCode::BadFailureLine => 172,
            FaultCode::BadCommand => 181,
            FaultCode::AddedTwice => 182,
            FaultCode::UnknownObject => 183,
            FaultCode::OutOfRange => 184,
            FaultCode::BadStart => 185,
            FaultCode::InputTooLong => 190,
            FaultCode::BadSection => 191,
            FaultCode::EndMissing => 192,
            FaultCode::SectionTwice => 193,
            FaultCode::BadRecord => 194,
            FaultCode::BadEntry => 195,
            FaultCode::TooMany => 196,
        }
    }
}

/// A code is printed as its number.
impl Display for FaultCode {
    ghost use Rattle.std.specs.Prelude.{Some};
    ghost use Rattle.std.specs.Fmt.{decimal};

    ghost output = { λ code. Some (decimal (number code)) };

    fn fmt<W: fmt::Write>(&self, formatter: &mut Formatter<W>) -> fmt::Result {
        write!(formatter, "{}", self.number())
    }
}
