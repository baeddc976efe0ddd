ghost use Rattle.std.specs.Prelude.{◌≡◌, ◌≢◌, ℕ, ◌+◌, ◌≤◌, List, [], ◌∷◌, ◌++◌, None, Some, true, false};
ghost use Rattle.pw_event.specs.declared.event.Cause.{Cause};
ghost use Rattle.pw_event.specs.declared.event.Cause.TheVariants.{Older};
ghost use Rattle.pw_event.specs.declared.event.Ending.TheVariants.{Lost, Suspended};
ghost use Rattle.pw_event.specs.declared.event.Event.{Event};
ghost use Rattle.pw_event.specs.declared.event.Event.TheVariants.{Begin, End, Restart};
ghost use Rattle.pw_onecopy.specs.Behaviour.{Behaviour};
ghost use Rattle.pw_onecopy.specs.IsBehaviour.{IsBehaviour};
ghost use Rattle.pw_paired.specs.State.{Gone, OpenUnit, Paired, starting};
ghost use Rattle.pw_paired.specs.Step.{IsRun, after};
ghost use Rattle.pw_paired.specs.Terminal.{IsLive};
ghost use Rattle.pw_laws.specs.progress.Failures.{Losses, Suspensions};
ghost use Rattle.pw_laws.specs.progress.Running.{HasStep, IsUnitOpen, MadeGone, Runs, restarts_in};

/// In a run of a deck each attempt of a unit begins once, whatever fails: no entry BEGIN t n r
/// stands twice. The recorded restarts of an open unit are its RESTART entries, and never more than
/// its terminal's MAXTMFRESTARTS; a terminal is suspended after exactly so many.
pub fn begin_laws()
    ensures once { (sys : Behaviour) → IsBehaviour sys → (before between : List Event) (t n r : ℕ)
        → ¬ IsRun sys (before ++ Begin t n r ∷ (between ++ Begin t n r ∷ [])) }
    ensures few { (sys : Behaviour) → IsBehaviour sys → (log : List Event) → IsRun sys log
        → (t : ℕ) (unit : OpenUnit)
        → (after sys log).units t ≡ Some unit → unit.restarts ≤ sys.max_restarts t }
    ensures counted { (sys : Behaviour) → IsBehaviour sys → (log : List Event) → IsRun sys log
        → (t : ℕ) (unit : OpenUnit)
        → (after sys log).units t ≡ Some unit → restarts_in t unit.number log ≡ unit.restarts }
    ensures suspended { (sys : Behaviour) → IsBehaviour sys
        → (log : List Event) (t : ℕ) (cause : Cause)
        → IsRun sys (log ++ End t (Suspended cause) ∷ []) → (unit : OpenUnit)
        → (after sys log).units t ≡ Some unit → restarts_in t unit.number log ≡ sys.max_restarts t }
{}

/// In a run of a deck a pending cause is one of a running attempt: so the attempt can restart by
/// it, or its terminal be suspended.
pub fn pending_laws()
    ensures { (sys : Behaviour) → IsBehaviour sys → (log : List Event) → IsRun sys log
        → (t : ℕ) (cause : Cause) → ((after sys log).terms t).pending ≡ Some cause
        → Runs ((after sys log).units t) }
{}

/// In a run of a deck an entry is legal wherever a live terminal's pair is not up to date, a cause
/// is pending for it or a message of it is in flight: a failure line that is due, a takeover, a
/// restart or suspension, a new backup and its copies, or the loss of the pair.
pub fn pair_laws()
    ensures pair { (sys : Behaviour) → IsBehaviour sys → (log : List Event) → IsRun sys log
        → (t : ℕ)
        → IsLive sys (after sys log) t → (after sys log).modes (sys.pair_of t) ≢ Paired
        → HasStep sys (after sys log) }
    ensures pending { (sys : Behaviour) → IsBehaviour sys → (log : List Event) → IsRun sys log
        → (t : ℕ)
        → IsLive sys (after sys log) t → ((after sys log).terms t).pending ≢ None
        → HasStep sys (after sys log) }
    ensures message { (sys : Behaviour) → IsBehaviour sys → (log : List Event) → IsRun sys log
        → (t : ℕ)
        → IsLive sys (after sys log) t → (after sys log).flight t ≢ None
        → HasStep sys (after sys log) }
{}

/// In a run of a deck a pair is Gone only behind a FAIL TCP entry that made it so: of its primary
/// while it was Raising or Alone, or of its backup while it was Down. A terminal is lost only
/// behind such an entry of its pair.
pub fn lost_laws()
    ensures gone { (sys : Behaviour) (log : List Event) (p : ℕ) → (after sys log).modes p ≡ Gone
        → MadeGone sys (starting sys) log p }
    ensures lost { (sys : Behaviour) (log : List Event) (t : ℕ) → IsRun sys (log ++ End t Lost ∷ [])
        → MadeGone sys (starting sys) log (sys.pair_of t) }
{}

/// In a run of a deck the units for which one unit restarts as the younger one differ, and each was
/// open before the BEGIN entry that opened the one that restarts.
pub fn older_laws()
    ensures differ { (sys : Behaviour) → IsBehaviour sys
        → (before between : List Event) (t n o m : ℕ)
        → ¬ IsRun sys
        (before ++ Restart t n (Older o m) ∷ (between ++ Restart t n (Older o m) ∷ [])) }
    ensures open_before { (sys : Behaviour) → IsBehaviour sys
        → (before between : List Event) (t n r o m : ℕ)
        → IsRun sys (before ++ Begin t n r ∷ (between ++ Restart t n (Older o m) ∷ []))
        → (after sys before).units t ≡ None → IsUnitOpen (after sys before) o m }
{}

/// What failures leave in a log. In a run a pair is Gone exactly from a FAIL TCP entry on that made
/// it so, its terminals end as Lost and no others do, and where the log is finished none of them is
/// left. In a run of a deck each restart and suspension has a cause that holds there, and a terminal
/// is suspended after exactly as many restarts of its unit as it may have.
pub fn runs_tell_their_losses()
    ensures losses { (sys : Behaviour) (log : List Event) → IsRun sys log → Losses sys log }
    ensures suspensions { (sys : Behaviour) → IsBehaviour sys → (log : List Event) → IsRun sys log
        → Suspensions sys log }
{}
