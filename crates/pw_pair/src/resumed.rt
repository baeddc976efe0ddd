use pw_code::context::Context;

/// A terminal that goes on behind a takeover.
#[derive(Debug, Drop)]
pub struct Resumed {
    pub terminal: u32,
    /// The unit number in the memory.
    pub unit: u32,
    pub context: Context,
}
