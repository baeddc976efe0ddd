ghost use Rattle.std.specs.Prelude.{◌≡◌, ◌≤◌, ℕ, List, false, true, length, All};
ghost use Rattle.pw_trail.specs.Body.{fits};
ghost use Rattle.pw_trail.specs.Format.{units_in};
ghost use Rattle.pw_trail.specs.Stored.{HasPrefix};

use crate::changes::UnitChanges;
use crate::log::TrailLog;
use crate::synced::Synced;
use std::alloc::Global;

/// Puts the records of units behind the others, one after the other, up to the first that is refused: how many answered
/// Ok. Whichever call of the disk is the first that fails, a crash behind it leaves the units from before and a prefix
/// of these, in their order, none skipped and none in part: each that answered Ok, and at most one more.
pub fn append_all<S: Synced>(alloc: Global, log: &mut TrailLog<S>, units: &[UnitChanges]) -> usize
    requires goes { log.old.is_broken ≡ false }
    requires fit { All (λ unit. All (λ change. fits log.old.files change ≡ true) unit.changes) units.now }
    ensures within { result ≤ length units.now }
    ensures prefix { (image : List ℕ) → S.images log.new.disk image
        → HasPrefix log.old.files (units_in log.old.files (S.held log.old.disk)) units.now result image }
{
    let mut done = 0;
    for unit in units {
        if log.append(alloc, unit).is_err() {
            return done;
        }
        done += 1;
    }
    done
}
