use pw_code::place::Kind;

/// Where one occurrence of an item lies in a storage: `size` characters from `at` on.
#[derive(Clone, Copy, Debug, PartialEq, Eq)]
pub struct MachineSpot {
    pub at: usize,
    pub size: usize,
    pub kind: Kind,
}

/// An operand once its subscript was taken: an item's spot, a register with its digits and its value, or what
/// does not change.
#[derive(Clone, Copy, Debug, PartialEq, Eq)]
pub enum MachineOperand {
    Stored(MachineSpot),
    Register { digits: u8, value: u32 },
    Fixed,
}
