ghost use Rattle.std.specs.Prelude.{◌≡◌, ◌≤◌, ◌+◌, length, map, All};
ghost use Rattle.pw_code.specs.Valid.{IsLinked};
ghost use Rattle.pw_code_meaning.specs.Calls.{put_linkage, put_all, linkage_chars};
ghost use Rattle.pw_code_meaning.specs.Reading as reading;
ghost use Rattle.pw_terminal.specs.Shown.{written};
ghost use Rattle.pw_machine.specs.Views.{spot_by, IsSpot};

use crate::numbers::chars_at;
use crate::spot::MachineSpot;

/// Writes characters over those from a place on.
pub fn write_at(storage: &mut [u8], at: usize, chars: &[u8])
    requires { at + length chars.now ≤ length storage.old }
    ensures { storage.new ≡ written at chars.now storage.old }
{
    let into = &mut storage[at..at + chars.len()];
    into.copy_from_slice(chars);
}

/// Copies arguments into the linkage items of a called program, from left to right.
pub fn copy_in(storage: &mut [u8], linkage: &[(u32, u32)], from: &[u8], places: &[MachineSpot])
    requires linkage { All (IsLinked (length storage.old)) linkage.now }
    requires places { All (IsSpot (length from.now)) places.now }
    requires sizes { map (λ spot. spot.size) places.now ≡ map (λ item. item.1) linkage.now }
    ensures { storage.new ≡ put_linkage linkage.now (map (λ spot. reading.chars_at spot from.now) (map spot_by places.now)) storage.old }
{
    for place in 0..places.len() {
        let spot = places[place];
        let chars = chars_at(from, spot.at, spot.size);
        write_at(storage, linkage[place].0 as usize, chars);
    }
}

/// Copies the linkage items of a called program back to the arguments, from left to right.
pub fn copy_back(storage: &mut [u8], places: &[MachineSpot], linkage: &[(u32, u32)], from: &[u8])
    requires places { All (IsSpot (length storage.old)) places.now }
    requires linkage { All (IsLinked (length from.now)) linkage.now }
    requires sizes { map (λ spot. spot.size) places.now ≡ map (λ item. item.1) linkage.now }
    ensures { storage.new ≡ put_all (map spot_by places.now) (linkage_chars linkage.now from.now) storage.old }
{
    for place in 0..places.len() {
        let (at, size) = linkage[place];
        let chars = chars_at(from, at as usize, size as usize);
        write_at(storage, places[place].at, chars);
    }
}
