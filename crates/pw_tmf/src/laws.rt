ghost use Rattle.std.specs.Prelude.{◌≡◌, ◌==◌, ◌<◌, ℕ, All, Bool, List, [], ◌∷◌, None, Option, Some, true, false};
ghost use Rattle.std.specs.List.{IsDistinct};
ghost use Rattle.pw_code.specs.declared.file.FileCall.{FileCall};
ghost use Rattle.pw_code.specs.declared.unit.Unit.{Unit};
ghost use Rattle.pw_event.specs.declared.event.Cause.{Cause};
ghost use Rattle.pw_onecopy.specs.Behaviour.{Behaviour};
ghost use Rattle.pw_onecopy.specs.Path.{PathAnswer};
ghost use Rattle.pw_paired.specs.Failure.{do_restart};
ghost use Rattle.pw_paired.specs.Server.{do_operation};
ghost use Rattle.pw_paired.specs.State.{Job, OpenUnit, State};
ghost use Rattle.pw_paired.specs.Terminal.{IsIdle, do_begin};
ghost use Rattle.pw_paired.specs.Units.{commit_unit, committed_files, drop_unit, leave_units, only, unit_of, without_locks};
ghost use Rattle.pw_tmf.specs.Committed.{committed};
ghost use Rattle.pw_tmf.specs.Leaving.{AreSingle, CanLeave, HaveOpen, IsKeyed, open_units};
ghost use Rattle.pw_tmf.specs.Operation.{after_operation};
ghost use Rattle.pw_tmf.specs.Tells.{Tells, begun_as, unit_begun};
ghost use Rattle.pw_tmf.specs.Told.{Told};
ghost use Rattle.pw_tmf.specs.Units.{HaveDistinctTerminals, CanBackOut, after_commit, all_backed_out, backed_out, begun};

/// A disc that tells the files, locks and units of a state of the paired system tells them behind an entry too, once the
/// entry's call is made: BEGIN begins the unit, FILE operates, COMMIT and the REPLY that ends one SEND commit, BACK
/// backs out and ends, and RESTART backs out and leaves the unit open.
pub fn told_laws()
    ensures begins { (sys : Behaviour) (state : State) (told : Told) (t n r : ℕ) → Tells sys state told
        → IsIdle state t → (unit_begun state t n).number ≡ n
        → Tells sys (do_begin sys t n r state) (begun told (begun_as state t n)) }
    ensures operates { (sys : Behaviour) (state : State) (told : Told) (c i : ℕ) (job : Job) (call : FileCall)
        (own : OpenUnit) (start : List PathAnswer) → Tells sys state told
        → state.units job.request.terminal ≡ Some own → own.running ≡ Some start
        → Tells sys (do_operation sys c i job call state) (after_operation told (unit_of state job.request) call) }
    ensures commits { (sys : Behaviour) (state : State) (told : Told) (unit : Unit) (reply : Option (List ℕ))
        → Tells sys state told
        → Tells sys (commit_unit unit.terminal unit.number reply state) (after_commit told unit reply) }
    ensures drops { (sys : Behaviour) (state : State) (told : Told) (unit : Unit) → Tells sys state told
        → Tells sys (drop_unit sys unit.terminal unit.number state) (backed_out true told unit) }
    ensures restarts { (sys : Behaviour) (state : State) (told : Told) (unit : Unit) (cause : Cause) → Tells sys state told
        → Tells sys (do_restart sys unit.terminal cause state) (backed_out false told unit) }
{}

/// The committed records that a disc tells are those of the state that it tells: what before-images put back has its key,
/// no key has those of two terminals, and each is of a terminal that is there.
pub fn committed_laws()
    ensures { (sys : Behaviour) (state : State) (told : Told) → Tells sys state told
        → All (IsKeyed sys.key_length) state.before → AreSingle state.before
        → All (λ image. image.terminal < told.terminals) state.before
        → committed told ≡ committed_files sys state }
{}

/// A disc that tells a state tells it behind units that are left too, once these are backed out: one terminal's own unit,
/// the unit of a terminal if one is open, or the open units of several terminals, in whatever order. The open units of
/// different terminals may be backed out.
pub fn leaving_laws()
    ensures own { (sys : Behaviour) (state : State) (told : Told) (unit : Unit) (own : OpenUnit) → Tells sys state told
        → state.units unit.terminal ≡ Some own → own.number ≡ unit.number
        → Tells sys (leave_units sys (only unit.terminal) state) (backed_out true told unit) }
    ensures one { (sys : Behaviour) (state : State) (told : Told) (t : ℕ) → Tells sys state told
        → (state.units t ≡ None → without_locks (only t) state.locks ≡ state.locks)
        → Tells sys (leave_units sys (only t) state) (all_backed_out true told (open_units told (t ∷ []))) }
    ensures several { (sys : Behaviour) (state : State) (told : Told) (whose : ℕ → Bool) (terminals : List ℕ)
        → Tells sys state told → CanLeave sys state → HaveOpen whose state terminals
        → Tells sys (leave_units sys whose state) (all_backed_out true told (open_units told terminals)) }
    ensures may { (told : Told) (terminals : List ℕ) → IsDistinct (λ a b. a == b) terminals
        → All (λ t. t < told.terminals) terminals
        → HaveDistinctTerminals (open_units told terminals) × All (CanBackOut true told) (open_units told terminals) }
{}
