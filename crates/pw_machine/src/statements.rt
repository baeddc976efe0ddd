ghost use Rattle.std.specs.Prelude.{◌≡◌, ◌≢◌, true, ◌≤◌, ◌+◌, Some, None, [], ◌∷◌, map, length, All, IfOk, IfSome, option_map, if◌then◌else◌};
ghost use Rattle.std.specs.Bool.{OnFalse};
ghost use Rattle.pw_code.specs.Places.{IsOperand, IsPlace};
ghost use Rattle.pw_code_meaning.specs.Moves.{moves};
ghost use Rattle.pw_code_meaning.specs.Reading.{registers_of, spots_of};
ghost use Rattle.pw_code.specs.Instrs.{IsArithmetic};
ghost use Rattle.pw_machine.specs.Statements.{moved_all, computed_all};
ghost use Rattle.pw_machine.specs.Views.{registers_by, spot_by, taken_by, IsSpot, IsTaken};

use crate::arithmetic::computed;
use crate::counting::counted;
use crate::moves::{move_value, number_to, text_value_to};
use crate::reading::{spot_of, taken};
use crate::registers::MachineRegisters;
use crate::spot::{MachineOperand, MachineSpot};
use crate::value::number_now;
use pw_base::memory::Memory;
use pw_code::context::Context;
use pw_code::instr::Arithmetic;
use pw_code::operand::InstructionOperand;
use pw_code::place::{Kind, StoragePlace};
use std::alloc::Global;

/// The spots of places, None exactly where the subscript of one is outside.
pub fn spots_of(
    alloc: Global,
    registers: MachineRegisters,
    storage: &[u8],
    places: &[StoragePlace],
) -> Result<Option<Vec<MachineSpot>>, Memory>
    requires { All (IsPlace (length storage.now)) places.now }
    ensures spots { IfOk result (λ found. option_map (λ spots. map spot_by spots.items) found ≡ spots_of (registers_by registers) storage.now places.now) }
    ensures inside { IfOk result (λ found. IfSome found (λ spots. All (IsSpot (length storage.now)) spots.items)) }
    ensures sizes { IfOk result (λ found. IfSome found (λ spots. map (λ spot. spot.size) spots.items ≡ map (λ place. place.size) places.now)) }
{
    let mut spots = Vec::new(alloc);
    for place in places {
        let Some(spot) = spot_of(registers, storage, place) else {
            return Ok(None);
        };
        spots.push(spot)?;
    }
    Ok(Some(spots))
}

/// Moves to each of the spots, from left to right.
fn move_to_each(
    storage: &mut [u8],
    from: &InstructionOperand,
    source: MachineOperand,
    targets: &[MachineSpot],
)
    requires operand { IsOperand (length storage.old) from.now }
    requires source { IsTaken (length storage.old) source }
    requires targets { All (IsSpot (length storage.old)) targets.now }
    ensures { storage.new ≡ moves (taken_by from.now source) (map spot_by targets.now) storage.old }
{
    for target in targets {
        move_value(storage, from, source, *target);
    }
}

/// MOVE to one place. It is false exactly where a subscript is outside, and then nothing is moved. It takes no memory.
#[inline(always)]
fn move_one(
    context: &Context,
    storage: &mut [u8],
    from: &InstructionOperand,
    to: &StoragePlace,
) -> bool
    requires from { IsOperand (length storage.old) from.now }
    requires to { IsPlace (length storage.old) to.now }
    ensures moved { (if result then Some storage.new else None) ≡ moved_all (registers_of context.now) storage.old from.now (to.now ∷ []) }
    ensures same { OnFalse result (storage.new ≡ storage.old) }
{
    let Some(target) = spot_of(MachineRegisters::of(context), storage, to) else {
        return false;
    };
    if let Kind::Number {
        digits,
        places,
        signed,
    } = target.kind
    {
        let Some(value) = number_now(MachineRegisters::of(context), storage, from) else {
            return false;
        };
        number_to(storage, target, digits, places, signed, value);
    } else {
        let Some(source) = taken(MachineRegisters::of(context), storage, from) else {
            return false;
        };
        text_value_to(storage, from, source, target);
    }
    true
}

/// MOVE to any number of places.
fn move_to_all(
    alloc: Global,
    registers: MachineRegisters,
    storage: &mut [u8],
    from: &InstructionOperand,
    to: &[StoragePlace],
) -> Result<bool, Memory>
    requires from { IsOperand (length storage.old) from.now }
    requires to { All (IsPlace (length storage.old)) to.now }
    ensures moved { IfOk result (λ done. (if done then Some storage.new else None) ≡ moved_all (registers_by registers) storage.old from.now to.now) }
    ensures same { IfOk result (λ done. OnFalse done (storage.new ≡ storage.old)) }
{
    let Some(source) = taken(registers, storage, from) else {
        return Ok(false);
    };
    let Some(targets) = spots_of(alloc, registers, storage, to)? else {
        return Ok(false);
    };
    move_to_each(storage, from, source, targets.as_slice());
    Ok(true)
}

/// MOVE: the source and all the targets are taken first. It is false exactly where a subscript is outside, and then
/// nothing is moved. It takes memory only for more than one target.
#[inline(always)]
pub fn move_all(
    alloc: Global,
    context: &Context,
    storage: &mut [u8],
    from: &InstructionOperand,
    to: &[StoragePlace],
) -> Result<bool, Memory>
    requires from { IsOperand (length storage.old) from.now }
    requires to { All (IsPlace (length storage.old)) to.now }
    ensures moved { IfOk result (λ done. (if done then Some storage.new else None) ≡ moved_all (registers_of context.now) storage.old from.now to.now) }
    ensures same { IfOk result (λ done. OnFalse done (storage.new ≡ storage.old)) }
{
    match to {
        [target] => Ok(move_one(context, storage, from, target)),
        _ => move_to_all(alloc, MachineRegisters::of(context), storage, from, to),
    }
}

/// Arithmetic by the numbers of its operands: these and the receiver are taken first, None exactly where a subscript is outside.
/// It is false on a size error. Nothing is stored then.
#[inline(never)]
fn compute_numbers(context: &Context, storage: &mut [u8], arithmetic: &Arithmetic) -> Option<bool>
    requires { IsArithmetic (length storage.old) arithmetic.now }
    ensures stored { option_map (λ done. (if done then Some storage.new else None)) result ≡ computed_all (registers_of context.now) storage.old arithmetic.now }
    ensures same { result ≢ Some true → storage.new ≡ storage.old }
{
    let registers = MachineRegisters::of(context);
    let first = number_now(registers, storage, &arithmetic.first)?;
    let second = number_now(registers, storage, &arithmetic.second)?;
    let receiver = spot_of(registers, storage, &arithmetic.receiver)?;
    Some(computed(storage, arithmetic.operation, first, second, receiver))
}

/// Arithmetic: both operands and the receiver are taken first, None exactly where a subscript is outside. It is
/// false on a size error. Nothing is stored then.
#[inline(always)]
pub fn compute(context: &Context, storage: &mut [u8], arithmetic: &Arithmetic) -> Option<bool>
    requires { IsArithmetic (length storage.old) arithmetic.now }
    ensures stored { option_map (λ done. (if done then Some storage.new else None)) result ≡ computed_all (registers_of context.now) storage.old arithmetic.now }
    ensures same { result ≢ Some true → storage.new ≡ storage.old }
{
    if counted(context, storage, arithmetic) {
        return Some(true);
    }
    compute_numbers(context, storage, arithmetic)
}
