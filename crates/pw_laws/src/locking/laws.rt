ghost use Rattle.std.specs.Prelude.{◌≡◌, ◌++◌, ◌∷◌, [], ℕ, Bool, List, filter, not, Option, None, Some, true, false};
ghost use Rattle.std.specs.List.{AllByRecursion};
ghost use Rattle.pw_event.specs.declared.event.Event.{Event};
ghost use Rattle.pw_files.specs.Records.{IsFile};
ghost use Rattle.pw_laws.specs.locking.Held.{AreCompatibleLocks, IsHeld, has_key_lock};
ghost use Rattle.pw_laws.specs.locking.Records.{commits_at};
ghost use Rattle.pw_locks.specs.Conflicts.{is_same_unit};
ghost use Rattle.pw_locks.specs.declared.lock.Lock.{Lock};
ghost use Rattle.pw_onecopy.specs.Behaviour.{Behaviour};
ghost use Rattle.pw_onecopy.specs.IsBehaviour.{IsBehaviour};
ghost use Rattle.pw_paired.specs.Failure.{unit_named};
ghost use Rattle.pw_paired.specs.State.{OpenUnit};
ghost use Rattle.pw_paired.specs.Step.{IsRun, after};
ghost use Rattle.pw_paired.specs.Units.{committed_files, has_image, only, without_locks};

/// In a run of a deck the committed records of a file are a file, and they change only at an entry
/// that commits a unit: no operation, restart, drop, failure or end changes them. What a unit has
/// changed is under an exclusive lock of it.
pub fn record_laws()
    ensures file { (sys : Behaviour) → IsBehaviour sys → (log : List Event) → IsRun sys log
        → (f : ℕ) → IsFile (sys.key_length f) (committed_files sys (after sys log) f) }
    ensures stay { (sys : Behaviour) → IsBehaviour sys → (log : List Event) (entry : Event)
        → IsRun sys (log ++ entry ∷ []) → commits_at (after sys log) entry ≡ false
        → (f : ℕ)
        → committed_files sys (after sys (log ++ entry ∷ [])) f
        ≡ committed_files sys (after sys log) f }
    ensures covered { (sys : Behaviour) → IsBehaviour sys → (log : List Event) → IsRun sys log
        → (t f : ℕ) (key : List ℕ) → has_image t f key (after sys log).before ≡ true
        → has_key_lock t f key (after sys log).locks ≡ true }
{}

/// In a run of a deck each lock is held by the open unit of its terminal, an attempt of which runs,
/// and no two locks conflict.
pub fn lock_laws()
    ensures held { (sys : Behaviour) → IsBehaviour sys → (log : List Event) → IsRun sys log
        → AllByRecursion (IsHeld (after sys log).units) (after sys log).locks }
    ensures apart { (sys : Behaviour) → IsBehaviour sys → (log : List Event) → IsRun sys log
        → AreCompatibleLocks (after sys log).locks }
{}

/// To release the locks of a terminal is to release those of its open unit, and of no lock where
/// none is open: this holds of locks that are held, as those of a run are.
pub fn release_laws()
    ensures unit { (units : ℕ → Option OpenUnit) (locks : List Lock)
        → AllByRecursion (IsHeld units) locks
        → (t : ℕ) (unit : OpenUnit) → units t ≡ Some unit
        → without_locks (only t) locks
        ≡ filter (λ held. not (is_same_unit held.unit (unit_named t unit))) locks }
    ensures none { (units : ℕ → Option OpenUnit) (locks : List Lock)
        → AllByRecursion (IsHeld units) locks
        → (t : ℕ) → units t ≡ None → without_locks (only t) locks ≡ locks }
    ensures stay { (units : ℕ → Option OpenUnit) (locks : List Lock)
        → AllByRecursion (IsHeld units) locks
        → (whose : ℕ → Bool) → AllByRecursion (IsHeld units) (without_locks whose locks) }
{}
