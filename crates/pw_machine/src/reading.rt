ghost use Rattle.std.specs.Prelude.{◌≡◌, ◌≤◌, ◌<◌, ◌+◌, ◌-◌, ◌*◌, ◌^◌, Some, None, length, take, drop, unsigned_abs, IfSome, option_map, if◌then◌else◌};
ghost use Rattle.pw_picture.specs.Stored.{read_of};
ghost use Rattle.pw_code.specs.Places.{HasDigits, IsSubscriptInStorage, IsTableAt, IsPlace, IsOperand};
ghost use Rattle.pw_code.specs.Instrs.{digits_of_register};
ghost use Rattle.pw_code.specs.declared.operand.InstructionOperand.{InstructionOperand};
ghost use Rattle.pw_code_meaning.specs.Reading.{Fixed, register_value, subscript_of, occurrence_at, at_this_moment, spot_of, code_operand_taken};
ghost use Rattle.pw_tree_meaning.specs.Values as values;
ghost use Rattle.pw_machine.specs.Views.{registers_by, spot_by, taken_by, IsSpot, IsTaken};

use crate::numbers::{chars_at, digits_in, whole_part};
use crate::registers::MachineRegisters;
use crate::spot::{MachineOperand, MachineSpot};
use pw_code::operand::InstructionOperand;
use pw_code::place::{PlaceSubscript, PlaceTable, Register, StoragePlace};

/// The value of a subscript.
#[inline(always)]
fn subscript_of(registers: MachineRegisters, storage: &[u8], subscript: &PlaceSubscript) -> u128
    requires { IsSubscriptInStorage (length storage.now) subscript.now }
    ensures { result ≡ subscript_of (registers_by registers) storage.now subscript.now }
{
    match subscript {
        PlaceSubscript::Number(number) => *number as u128,
        PlaceSubscript::Item { at, digits, places } => {
            let chars = chars_at(storage, *at as usize, *digits as usize);
            whole_part(digits_in(chars, *places))
        }
        PlaceSubscript::Register(register) => registers.value(*register) as u128,
    }
}

/// Where the k-th occurrence of an item begins, None exactly outside 1 to OCCURS.
#[inline(always)]
fn occurrence_at(at: usize, table: &PlaceTable, k: u128) -> Option<usize>
    requires { at + (table.now.occurs - 1) * table.now.step < 2 ^ 63 }
    ensures { result ≡ occurrence_at at table.now k }
{
    if k >= 1 && k <= table.occurs as u128 {
        Some(at + (k as usize - 1) * table.step as usize)
    } else {
        None
    }
}

/// Where the occurrence begins that is meant at this moment.
#[inline(always)]
fn at_this_moment(
    registers: MachineRegisters,
    storage: &[u8],
    place: &StoragePlace,
) -> Option<usize>
    requires { IsPlace (length storage.now) place.now }
    ensures at { result ≡ at_this_moment (registers_by registers) storage.now place.now.at place.now.table }
    ensures inside { IfSome result (λ at. at + place.now.size ≤ length storage.now) }
{
    match &place.table {
        None => Some(place.at as usize),
        Some(table) => {
            let k = subscript_of(registers, storage, &table.subscript);
            occurrence_at(place.at as usize, table, k)
        }
    }
}

/// The spot of a place, None exactly where its subscript is outside.
#[inline(always)]
pub fn spot_of(
    registers: MachineRegisters,
    storage: &[u8],
    place: &StoragePlace,
) -> Option<MachineSpot>
    requires { IsPlace (length storage.now) place.now }
    ensures spot { option_map spot_by result ≡ spot_of (registers_by registers) storage.now place.now }
    ensures inside { IfSome result (IsSpot (length storage.now)) }
{
    let at = at_this_moment(registers, storage, place)?;
    Some(MachineSpot {
        at,
        size: place.size as usize,
        kind: place.kind,
    })
}

/// A register as it is read.
fn register_taken(registers: MachineRegisters, register: Register) -> MachineOperand
    ensures taken { (one : InstructionOperand) → taken_by one result ≡ Fixed (values.Register (digits_of_register register) (register_value (registers_by registers) register)) }
    ensures few { IsTaken 0 result }
{
    MachineOperand::Register {
        digits: match register {
            Register::Restarts => 5,
            _ => 4,
        },
        value: registers.value(register),
    }
}

/// An operand at this moment, None exactly where its subscript is outside.
#[inline(always)]
pub fn taken(
    registers: MachineRegisters,
    storage: &[u8],
    operand: &InstructionOperand,
) -> Option<MachineOperand>
    requires { IsOperand (length storage.now) operand.now }
    ensures taken { option_map (taken_by operand.now) result ≡ code_operand_taken (registers_by registers) storage.now operand.now }
    ensures inside { IfSome result (IsTaken (length storage.now)) }
{
    match operand {
        InstructionOperand::Item(place) => Some(MachineOperand::Stored(spot_of(
            registers, storage, place,
        )?)),
        InstructionOperand::Register(register) => Some(register_taken(registers, *register)),
        _ => Some(MachineOperand::Fixed),
    }
}
