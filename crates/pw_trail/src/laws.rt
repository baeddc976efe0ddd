ghost use Rattle.std.specs.Prelude.{◌≡◌, ◌∷◌, [], ℕ, List, Ok};
ghost use Rattle.pw_code.specs.declared.file.FileInfo.{FileInfo};
ghost use Rattle.pw_code.specs.declared.system.System.{System};
ghost use Rattle.pw_tmf.specs.Told.{Told};
ghost use Rattle.pw_trail.specs.Calls.{Call, HasPrefixOf, Moment, RecoversPrefixOf, CallsLeadTo, DiskHoldsUnits};
ghost use Rattle.pw_trail.specs.Format.{units_in};
ghost use Rattle.pw_trail.specs.Restoring.{IsReadBack};
ghost use Rattle.pw_trail.specs.declared.changes.UnitChanges.{UnitChanges};

use crate::synced::Synced;

/// Runs of calls of a disc over a trail, whichever call of the disk is the first that fails. A crash
/// behind any of them, or inside one, leaves a trail of the units from before and a prefix of those whose
/// commit was called and did not answer Memory, in that order, none skipped and none in part, with each
/// that answered Ok. What opens a trail reads back the records after them; and a crash inside that leaves
/// what has the same units.
pub fn run_laws<S: Synced>()
    ensures formatted { (files : List FileInfo) → units_in files (0 ∷ []) ≡ Ok [] }
    ensures leaves { (before : List UnitChanges) (calls : List Call) (first now : Moment S)
        → DiskHoldsUnits S.held S.images first (Ok before) → CallsLeadTo S.held S.images first calls now
        → (image : List ℕ) → S.images now.disk image → HasPrefixOf first.files before calls image }
    ensures recovers { (system : System) (before : List UnitChanges) (calls : List Call)
        (image : List ℕ) (told : Told)
        → HasPrefixOf system.files before calls image
        → IsReadBack system (units_in system.files image) told
        → RecoversPrefixOf system before calls told }
    ensures reopens { (files : List FileInfo) (before : List UnitChanges) (calls : List Call)
        (image other : List ℕ)
        → HasPrefixOf files before calls image → units_in files other ≡ units_in files image
        → HasPrefixOf files before calls other }
{}
