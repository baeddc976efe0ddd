ghost use Rattle.std.specs.Prelude.{◌≡◌};
ghost use Rattle.pw_locks.specs.Oldest.{older, oldest_unit_noted};

use pw_code::unit::Unit;

/// The older of a unit and of the one that is known, if any.
fn older(known: Option<Unit>, unit: Unit) -> Unit
    ensures { result ≡ older known unit }
{
    match known {
        Some(oldest) if oldest.birth <= unit.birth => oldest,
        _ => unit,
    }
}

/// The one that is known, or where the unit counts the older of the two.
pub fn noted(known: Option<Unit>, counts: bool, unit: Unit) -> Option<Unit>
    ensures { result ≡ oldest_unit_noted known counts unit }
{
    if counts {
        Some(older(known, unit))
    } else {
        known
    }
}
