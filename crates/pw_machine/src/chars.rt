ghost use Rattle.std.specs.Prelude.{◌≡◌, ◌≤◌, length, option_map, IfOk};
ghost use Rattle.pw_picture.specs.Stored.{digits_of};
ghost use Rattle.pw_code.specs.Places.{IsOperand};
ghost use Rattle.pw_tree_meaning.specs.Values.{as_it_stands};
ghost use Rattle.pw_code_meaning.specs.Reading.{value_in, read};
ghost use Rattle.pw_machine.specs.Views.{registers_by, taken_by, IsTaken};

use crate::numbers::chars_at;
use crate::reading::taken;
use crate::registers::MachineRegisters;
use crate::spot::MachineOperand;
use crate::texts::digit_of_value;
use pw_base::bytes::Bytes;
use pw_base::memory::Memory;
use pw_code::operand::InstructionOperand;
use std::alloc::Global;

/// So many digits of a value.
#[tactic(auto, using(crate::proofs::TextLemmas::digits_more, crate::proofs::TextLemmas::digits_all))]
pub fn digits_text(alloc: Global, digits: u8, value: u32) -> Result<Bytes, Memory>
    requires { digits ≤ 5 }
    ensures { IfOk result (λ text. text ≡ digits_of digits value) }
{
    let mut text = Bytes::new(alloc);
    for place in 0..digits {
        text.push(digit_of_value(digits, value, place as usize))?;
    }
    Ok(text)
}

/// The characters of an operand that was taken, as it is stored or written.
fn chars_of(
    alloc: Global,
    storage: &[u8],
    operand: &InstructionOperand,
    found: MachineOperand,
) -> Result<Bytes, Memory>
    requires { IsTaken (length storage.now) found }
    ensures { IfOk result (λ chars. chars ≡ as_it_stands (value_in storage.now (taken_by operand.now found))) }
{
    match found {
        MachineOperand::Stored(spot) => Bytes::from_slice(
            alloc,
            chars_at(storage, spot.at, spot.size),
        ),
        MachineOperand::Register { digits, value } => digits_text(alloc, digits, value),
        MachineOperand::Fixed => match operand {
            InstructionOperand::Number { spelling, .. } => spelling.copy(alloc),
            InstructionOperand::Text(chars) => chars.copy(alloc),
            InstructionOperand::Zeros => Bytes::from_slice(alloc, b"0"),
            _ => Bytes::from_slice(alloc, b" "),
        },
    }
}

/// The characters of an operand at this moment, as it is stored or written: None exactly where its subscript is
/// outside.
pub fn read_chars(
    alloc: Global,
    registers: MachineRegisters,
    storage: &[u8],
    operand: &InstructionOperand,
) -> Result<Option<Bytes>, Memory>
    requires { IsOperand (length storage.now) operand.now }
    ensures { IfOk result (λ chars. chars ≡ option_map as_it_stands (read (registers_by registers) storage.now operand.now)) }
{
    match taken(registers, storage, operand) {
        Some(found) => Ok(Some(chars_of(alloc, storage, operand, found)?)),
        None => Ok(None),
    }
}
