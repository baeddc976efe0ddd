ghost use Rattle.std.specs.Prelude.{◌≡◌, ◌<◌, ℕ, List, Option, Some, length, slice_get};
ghost use Rattle.pw_code.specs.declared.file.FileOp.{FileOp};
ghost use Rattle.pw_code.specs.declared.lock.LockMode.{LockMode};
ghost use Rattle.pw_code.specs.declared.system.ClassInfo.{ClassInfo};
ghost use Rattle.pw_code.specs.declared.system.System.{System};
ghost use Rattle.pw_event.specs.declared.event.Cause.{Cause};
ghost use Rattle.pw_event.specs.declared.event.Ending.TheVariants.{Fault, Lost, NoEntries, Stopped, Suspended};
ghost use Rattle.pw_event.specs.declared.script.FailLine.{FailLine};
ghost use Rattle.pw_code_meaning.specs.OfSystem.{behaviour};
ghost use Rattle.pw_world_state.specs.CauseTests.{may_restart, may_suspend};
ghost use Rattle.pw_world_state.specs.ClassTests.{may_file, may_reply, may_take};
ghost use Rattle.pw_world_state.specs.Kept.{Kept};
ghost use Rattle.pw_world_state.specs.PairTests.{may_apply, may_copy, may_lose, may_raise, may_take_over};
ghost use Rattle.pw_world_state.specs.Stands.{Stands};
ghost use Rattle.pw_world_state.specs.TerminalTests.{may_again, may_back, may_begin, may_check_end, may_check_start, may_commit, may_end_entries, may_fault, may_key, may_send, may_show, may_stop};
ghost use Rattle.pw_world_state.specs.Tested.{CauseTested, IsAsking, IsAskingEnd, IsAskingStart, IsPlaced, IsServing};
ghost use Rattle.pw_laws.specs.legal.Causes.{is_legal_restart};
ghost use Rattle.pw_laws.specs.legal.Classes.{is_legal_file, is_legal_reply, is_legal_take};
ghost use Rattle.pw_laws.specs.legal.Pairs.{is_legal_applied, is_legal_check_copy, is_legal_end, is_legal_raise, is_legal_takeover};
ghost use Rattle.pw_laws.specs.legal.Terminals.{is_legal_again, is_legal_back, is_legal_begin, is_legal_check_end, is_legal_check_start, is_legal_commit, is_legal_key, is_legal_send, is_legal_show};
ghost use Rattle.pw_paired.specs.State.{State};

/// SHOW, KEY, SEND, AGAIN, and END STOPPED, NOENTRIES and FAULT: the test of what is kept says
/// whether the entry is legal by its kind, where the terminal's program stands at its verb.
pub fn verb_laws()
    ensures show { (system : System) (script : List FailLine) (state : State) (kept : Kept)
        (t phase attempt k : ℕ)
        → Stands system script state kept → IsAsking system script state kept t
        → may_show system kept t phase attempt k ≡ is_legal_show
        (behaviour script system) state t phase attempt k }
    ensures key { (system : System) (script : List FailLine) (state : State) (kept : Kept) (t k : ℕ)
        → Stands system script state kept → IsAsking system script state kept t
        → may_key system kept t k ≡ is_legal_key (behaviour script system) state t k }
    ensures send { (system : System) (script : List FailLine) (state : State) (kept : Kept)
        (t n c : ℕ)
        → Stands system script state kept → IsAsking system script state kept t
        → may_send system kept t n c ≡ is_legal_send (behaviour script system) state t n c }
    ensures again { (system : System) (script : List FailLine) (state : State) (kept : Kept)
        (t n : ℕ)
        → Stands system script state kept → IsAsking system script state kept t
        → may_again system kept t n ≡ is_legal_again (behaviour script system) state t n }
    ensures stop { (system : System) (script : List FailLine) (state : State) (kept : Kept) (t : ℕ)
        → Stands system script state kept → IsAsking system script state kept t
        → may_stop system kept t ≡ is_legal_end (behaviour script system) state t Stopped }
    ensures entries { (system : System) (script : List FailLine) (state : State) (kept : Kept)
        (t : ℕ)
        → Stands system script state kept → IsAsking system script state kept t
        → may_end_entries system kept t ≡ is_legal_end (behaviour script system) state t NoEntries }
    ensures fault { (system : System) (script : List FailLine) (state : State) (kept : Kept)
        (t x : ℕ)
        → Stands system script state kept → IsAsking system script state kept t
        → may_fault system kept t x ≡ is_legal_end (behaviour script system) state t (Fault x) }
{}

/// CHECK START, BEGIN, CHECK END, COMMIT and BACK: the same, where images tell the paths of which
/// they are.
pub fn image_laws()
    ensures check_start { (system : System) (script : List FailLine) (state : State) (kept : Kept)
        (t : ℕ)
        → Stands system script state kept → IsAskingStart system script state kept t
        → may_check_start system kept t ≡ is_legal_check_start (behaviour script system) state t }
    ensures begin { (system : System) (script : List FailLine) (state : State) (kept : Kept)
        (t n r : ℕ)
        → Stands system script state kept → IsAskingStart system script state kept t
        → may_begin system kept t n r ≡ is_legal_begin (behaviour script system) state t n r }
    ensures check_end { (system : System) (script : List FailLine) (state : State) (kept : Kept)
        (t : ℕ)
        → Stands system script state kept → IsAskingEnd system script state kept t
        → may_check_end system kept t ≡ is_legal_check_end (behaviour script system) state t }
    ensures commit { (system : System) (script : List FailLine) (state : State) (kept : Kept)
        (t n : ℕ)
        → Stands system script state kept → IsAskingEnd system script state kept t
        → may_commit system kept t n ≡ is_legal_commit (behaviour script system) state t n }
    ensures back { (system : System) (script : List FailLine) (state : State) (kept : Kept)
        (t n : ℕ)
        → Stands system script state kept → IsAskingEnd system script state kept t
        → may_back system kept t n ≡ is_legal_back (behaviour script system) state t n }
{}

/// CHECK COPY, APPLIED, RAISE, TAKEOVER and END LOST: the test of what is kept says whether the
/// entry is legal by its kind.
pub fn pair_laws()
    ensures copy { (system : System) (script : List FailLine) (state : State) (kept : Kept) (t : ℕ)
        → Stands system script state kept → IsPlaced system t
        → may_copy system kept t ≡ is_legal_check_copy (behaviour script system) state t }
    ensures apply { (system : System) (script : List FailLine) (state : State) (kept : Kept) (t : ℕ)
        → Stands system script state kept → IsPlaced system t
        → may_apply system kept t ≡ is_legal_applied (behaviour script system) state t }
    ensures raise { (system : System) (script : List FailLine) (state : State) (kept : Kept) (p : ℕ)
        → Stands system script state kept → p < length system.tcps
        → may_raise system kept p ≡ is_legal_raise (behaviour script system) state p }
    ensures takeover { (system : System) (script : List FailLine) (state : State) (kept : Kept)
        (p : ℕ)
        → Stands system script state kept → p < length system.tcps
        → may_take_over kept p ≡ is_legal_takeover state p }
    ensures lost { (system : System) (script : List FailLine) (state : State) (kept : Kept) (t : ℕ)
        → Stands system script state kept → IsPlaced system t
        → may_lose system kept t ≡ is_legal_end (behaviour script system) state t Lost }
{}

/// TAKE, FILE and REPLY: the test of what is kept says whether the entry is legal by its kind, for
/// FILE and REPLY where the server in the process stands at its verb.
pub fn class_laws()
    ensures take { (system : System) (script : List FailLine) (state : State) (kept : Kept)
        (c i t : ℕ) (info : ClassInfo)
        → Stands system script state kept → slice_get system.classes c ≡ Some info
        → may_take kept c i t ≡ is_legal_take (behaviour script system) state c i t }
    ensures file { (system : System) (script : List FailLine) (state : State) (kept : Kept)
        (c i : ℕ) (op : FileOp)
        (mode : LockMode) (f status : ℕ) → Stands system script state kept
        → IsServing system script state kept c i
        → may_file system kept c i op mode f status ≡ is_legal_file
        (behaviour script system) state c i op mode f status }
    ensures reply { (system : System) (script : List FailLine) (state : State) (kept : Kept)
        (c i t : ℕ) (fault : Option ℕ)
        → Stands system script state kept → IsServing system script state kept c i
        → may_reply system kept c i t fault ≡ is_legal_reply
        (behaviour script system) state c i t fault }
{}

/// RESTART and END SUSPENDED: the test of what is kept says whether the entry is legal by its kind,
/// for REDO where the terminal's program stands at its verb, and for OLDER where each server at
/// work does.
pub fn cause_laws()
    ensures restart { (system : System) (script : List FailLine) (state : State) (kept : Kept)
        (t n : ℕ) (cause : Cause)
        → Stands system script state kept → IsPlaced system t
        → CauseTested system script state kept t cause
        → may_restart system kept t n cause ≡ is_legal_restart
        (behaviour script system) state t n cause }
    ensures suspend { (system : System) (script : List FailLine) (state : State) (kept : Kept)
        (t : ℕ) (cause : Cause)
        → Stands system script state kept → IsPlaced system t
        → CauseTested system script state kept t cause
        → may_suspend system kept t cause ≡ is_legal_end (behaviour script system) state t
        (Suspended cause) }
{}
