//! Laws of what a summed disk has below.

ghost use Rattle.pw_summed_disk.specs.Damage.{FindsChanges, RefusesChanges};

/// That a change of one byte of extents is found, or changes nothing of what is read; and that one of a sealed piece is found.
pub fn damage_laws()
    ensures extents { FindsChanges }
    ensures piece { RefusesChanges }
{}
