ghost use Rattle.std.specs.Prelude.{◌≡◌, ℕ, ◌≤◌, ◌<◌, ◌+◌, ◌^◌, Some, None, length, unsigned_abs, if◌then◌else◌};
ghost use Rattle.std.specs.Bool.{OnFalse};
ghost use Rattle.pw_code.specs.Places.{picture_of};
ghost use Rattle.pw_code_meaning.specs.Moves.{operated, receiver_decimals, stored_in, stored_by};
ghost use Rattle.pw_machine.specs.Views.{spot_by, IsSpot};

use crate::spot::MachineSpot;
use pw_code::instr::ArithmeticOperation;
use pw_code::place::Kind;
use pw_number::scaled::Scaled;
use pw_number::size_error::SizeError;
use pw_picture::picture::Picture;

/// The result of an operation of the first operand on the second. A quotient has these places.
#[inline(always)]
fn operated(
    operation: ArithmeticOperation,
    places: u8,
    first: Scaled,
    second: Scaled,
) -> Result<Scaled, SizeError>
    requires places { places ≤ 18 }
    requires first { unsigned_abs first.units < 10 ^ 18 }
    requires second { unsigned_abs second.units < 10 ^ 18 }
    ensures { result ≡ operated operation places first second }
{
    match operation {
        ArithmeticOperation::Add => second.add(first),
        ArithmeticOperation::Subtract => second.subtract(first),
        ArithmeticOperation::Multiply => second.multiply(first),
        ArithmeticOperation::Divide => second.divide(first, places),
    }
}

/// The places of a receiver.
fn places_of(kind: Kind) -> u8
    ensures { (size : ℕ) → result ≡ receiver_decimals (picture_of kind size) }
{
    match kind {
        Kind::Number { places, .. } => places,
        _ => 0,
    }
}

/// Stores a number in a spot. It is false exactly on a size error, which leaves all as it is.
#[inline(always)]
fn stored_by(storage: &mut [u8], spot: MachineSpot, value: Scaled) -> bool
    requires { IsSpot (length storage.old) spot }
    ensures stored { (if result then Some storage.new else None) ≡ stored_by (picture_of spot.kind spot.size) (spot_by spot) value storage.old }
    ensures same { OnFalse result (storage.new ≡ storage.old) }
{
    match spot.kind {
        Kind::Number {
            digits,
            places,
            signed,
        } => {
            let picture = Picture::Number {
                digits,
                places,
                signed,
            };
            let into = &mut storage[spot.at..spot.at + spot.size];
            picture.store(value, into).is_ok()
        }
        _ => false,
    }
}

/// Does an operation, whose result a spot receives. It is false exactly on a size error, which leaves all as it is; a
/// divisor of zero is one (docs/reference/LANGUAGE.md).
#[inline(always)]
pub fn computed(
    storage: &mut [u8],
    operation: ArithmeticOperation,
    first: Scaled,
    second: Scaled,
    receiver: MachineSpot,
) -> bool
    requires spot { IsSpot (length storage.old) receiver }
    requires first { unsigned_abs first.units < 10 ^ 18 }
    requires second { unsigned_abs second.units < 10 ^ 18 }
    ensures stored { (if result then Some storage.new else None)
        ≡ stored_in (spot_by receiver) (operated operation (receiver_decimals (picture_of receiver.kind receiver.size)) first second) storage.old }
    ensures same { OnFalse result (storage.new ≡ storage.old) }
{
    match operated(operation, places_of(receiver.kind), first, second) {
        Ok(value) => stored_by(storage, receiver, value),
        Err(_) => false,
    }
}
