use pw_base::bytes::Bytes;
use pw_base::fault_code::FaultCode;
use pw_code::field::Field;

/// What an entry of the section is.
#[derive(Drop)]
pub enum ScreenEntry {
    /// It begins a screen of this name, in upper case.
    Screen(Bytes),
    /// A field of the screen that has begun.
    Field(Field),
    /// It is refused. Of several reasons the one of the smallest number is given.
    Refused(FaultCode),
}

/// An entry with the line of its first token.
#[derive(Drop)]
pub struct PlacedEntry {
    pub line: u32,
    pub entry: ScreenEntry,
}
