ghost use Rattle.std.specs.Prelude.{◌≡◌, ◌≢◌, ℕ, List, drop, false};
ghost use Rattle.pw_disc.specs.Lines.{disc_lines_behind, may_lose};
ghost use Rattle.pw_disc.specs.Pair.{IsLost, PairState};
ghost use Rattle.pw_disc.specs.declared.standing.DiscPairState.TheVariants.{Lost};
ghost use Rattle.pw_disc.specs.declared.script.DiscLine.{DiscLine};

/// A pair whose script has no PRIMARY AFTER line directly behind a PRIMARY AFTER or BACKUP AFTER line is never lost: its
/// next call does not lose it, and neither do the lines that are left behind that.
pub fn never_lost_laws()
    ensures next { (pair : PairState) → pair.standing ≢ Lost → may_lose pair.lines ≡ false → ¬ IsLost pair }
    ensures behind { (done : ℕ) (lines : List DiscLine) → may_lose lines ≡ false → may_lose (disc_lines_behind done lines) ≡ false }
    ensures one_less { (lines : List DiscLine) → may_lose lines ≡ false → may_lose (drop 1 lines) ≡ false }
{}
