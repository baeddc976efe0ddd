ghost use Rattle.std.specs.Prelude.{◌≡◌, ◌≢◌, ℕ, ◌<◌, ◌≤◌, Bool, List, [], Some, None, true, false, filter, length, not};
ghost use Rattle.pw_event.specs.declared.event.Cause.{Cause};
ghost use Rattle.pw_event.specs.declared.event.Ending.{Ending};
ghost use Rattle.pw_event.specs.declared.event.Event.TheVariants.{FailTcp};
ghost use Rattle.pw_code.specs.declared.file.FileOp.{FileOp};
ghost use Rattle.pw_code.specs.declared.lock.LockMode.{LockMode};
ghost use Rattle.pw_onecopy.specs.Behaviour.{Behaviour};
ghost use Rattle.pw_onecopy.specs.Path.{PathAnswer};
ghost use Rattle.pw_locks.specs.Conflicts.{holders};
ghost use Rattle.pw_paired.specs.End.{do_end};
ghost use Rattle.pw_paired.specs.Failure.{LegalFailServer, LegalFailTcp, do_fail_tcp, do_restart, lose_pair, lose_primary, resume_terminal, resumed_path};
ghost use Rattle.pw_paired.specs.Raising.{copied_path};
ghost use Rattle.pw_paired.specs.Serial.{Reading, answers_behind, out_block};
ghost use Rattle.pw_paired.specs.Server.{LegalFile, free_process, lock_of_job};
ghost use Rattle.pw_paired.specs.State.{Awaited, BackupCopy, Down, Gone, LastEnded, OpenUnit, State, Term};
ghost use Rattle.pw_paired.specs.Terminal.{LegalBegin, do_again, path_of};
ghost use Rattle.pw_paired.specs.Units.{attempt_of, has_request, leave_units, only};

/// A takeover goes on behind the unit that the backup holds where TMF has ended it and the backup
/// holds its end path, and at the unit's start path where TMF has not; it lets a cause become
/// pending for an attempt of that unit alone. What a new backup is told of a running attempt is its
/// start path.
pub fn backup_laws()
    ensures start { (held : BackupCopy) (last : LastEnded)
        → last.number ≢ held.unit → resumed_path held last ≡ held.start }
    ensures end { (held : BackupCopy) (last : LastEnded) (path : List PathAnswer)
        → last.number ≡ held.unit → held.end ≡ Some path → resumed_path held last ≡ path }
    ensures other_unit { (p : ℕ) (held : BackupCopy) (unit : OpenUnit) (last : LastEnded)
        (term : Term) → unit.number ≢ held.unit
        → (resume_terminal p (Some held) (Some unit) last term).pending ≡ term.pending }
    ensures copied { (state : State) (t : ℕ) (unit : OpenUnit) (start : List PathAnswer)
        → state.units t ≡ Some unit → unit.running ≡ Some start → copied_path state t ≡ start }
{}

/// A failed primary takes the requests of its terminals along, from every class. A backup that
/// fails before it has taken over leaves the pair Gone. A terminal of a lost pair has no path and
/// no pending cause, and TMF keeps no reply of a unit that is left. A process that is free again
/// has released no lock. No FAIL entry is of line 0.
pub fn failure_laws()
    ensures requests { (sys : Behaviour) (state : State) (p c t : ℕ) → sys.pair_of t ≡ p
        → has_request t (sys.processes c) ((lose_primary sys p state).classes c) ≡ false }
    ensures gone { (sys : Behaviour) (state : State) (p : ℕ) → state.modes p ≡ Down
        → (do_fail_tcp sys p false state).modes p ≡ Gone }
    ensures lost { (sys : Behaviour) (state : State) (p t : ℕ) → sys.pair_of t ≡ p
        → (lose_pair sys p state).terms t ≡ record (state.terms t) { path = []; pending = None } }
    ensures left { (sys : Behaviour) (whose : ℕ → Bool) (state : State) (t : ℕ) (unit : OpenUnit)
        → whose t ≡ true → state.units t ≡ Some unit
        → (leave_units sys whose state).ended t ≡ record { number = unit.number; reply = None } }
    ensures no_member { (sys : Behaviour) (p : ℕ) (primary : Bool) → ¬ LegalFailTcp sys p primary 0 }
    ensures no_process { (sys : Behaviour) (c i : ℕ) → ¬ LegalFailServer sys c i 0 }
    ensures locks { (state : State) (c i : ℕ) → (free_process c i state).locks ≡ state.locks }
{}

/// A terminal that ends leaves nothing in its backup. AGAIN asks no server. A restart backs the
/// changes of its attempt out, and a failure takes no answer from the count of an attempt. A screen
/// or an entry line reads as nothing while an attempt runs, and where the path was longer before. A
/// file operation waits for every lock that conflicts with its own, and a unit that has restarted
/// for an older one begins again only when that has ended.
pub fn entry_laws()
    ensures ended { (sys : Behaviour) (state : State) (t : ℕ) (ending : Ending)
        → (do_end sys t ending state).memory t ≡ None }
    ensures again { (state : State) (t : ℕ) → (do_again t state).classes ≡ state.classes }
    ensures restarted { (sys : Behaviour) (state : State) (t : ℕ) (cause : Cause)
        → (do_restart sys t cause state).before
        ≡ filter (λ image. not (only t image.terminal)) state.before }
    ensures counted { (sys : Behaviour) (state : State) (p k : ℕ) (primary : Bool)
        (answers : ℕ → ℕ) → answers_behind sys state (FailTcp p primary k) answers ≡ answers }
    ensures within { (state : State) (reading : Reading) (t : ℕ) (start : List PathAnswer)
        → attempt_of (state.units t) ≡ Some start → out_block state reading t ≡ [] }
    ensures known { (state : State) (reading : Reading) (t : ℕ)
        → length (path_of state t) < reading.longest t → out_block state reading t ≡ [] }
    ensures waits { (sys : Behaviour) (state : State) (c i : ℕ) (op : FileOp) (mode : LockMode)
        (f status : ℕ) → (l : LegalFile sys state c i op mode f status)
        → holders (lock_of_job sys state l.job l.call) state.locks ≡ [] }
    ensures over { (sys : Behaviour) (state : State) (t n r : ℕ) (unit : OpenUnit)
        (awaited : Awaited) → LegalBegin sys state t n r
        → state.units t ≡ Some unit → unit.awaits ≡ Some awaited
        → awaited.number ≤ (state.ended awaited.terminal).number }
{}
