use pw_code::context::Return;

/// The program at work: its number, the place of its next instruction, its storage and its active PERFORMs, the
/// last one behind the others.
#[derive(Debug, Drop)]
pub struct Top {
    pub program: u16,
    pub at: u32,
    pub storage: Vec<u8>,
    pub returns: Vec<Return>,
}
