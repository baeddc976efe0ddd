use crate::copies::Duplicate;
use crate::place::{Register, StoragePlace};
use pw_base::bytes::Bytes;
use pw_base::memory::Memory;
use pw_number::scaled::Scaled;
use std::alloc::Global;

/// What an instruction reads.
#[derive(Debug, Drop)]
pub enum InstructionOperand {
    Item(StoragePlace),
    Register(Register),
    /// A number as it is written, of at most 18 digits, and its value.
    Number { spelling: Bytes, value: Scaled },
    /// The characters of a text.
    Text(Bytes),
    Spaces,
    Zeros,
}

impl Duplicate for InstructionOperand {
    fn copy(&self, alloc: Global) -> Result<InstructionOperand, Memory> {
        match self {
            InstructionOperand::Item(place) => Ok(InstructionOperand::Item(*place)),
            InstructionOperand::Register(register) => Ok(InstructionOperand::Register(*register)),
            InstructionOperand::Number { spelling, value } => {
                let spelling = spelling.copy(alloc)?;
                Ok(InstructionOperand::Number {
                    spelling,
                    value: *value,
                })
            }
            InstructionOperand::Text(chars) => Ok(InstructionOperand::Text(chars.copy(alloc)?)),
            InstructionOperand::Spaces => Ok(InstructionOperand::Spaces),
            InstructionOperand::Zeros => Ok(InstructionOperand::Zeros),
        }
    }
}
