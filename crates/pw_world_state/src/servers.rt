ghost use Rattle.std.specs.Prelude.{◌≡◌, ◌≤◌, ℕ, List, [], ◌∷◌, ◌++◌, None, Some, false, slice_get, true};
ghost use Rattle.pw_code.specs.declared.context.Context.{Context};
ghost use Rattle.pw_code.specs.declared.file.FileOp.{FileOp};
ghost use Rattle.pw_code.specs.declared.lock.LockMode.{LockMode};
ghost use Rattle.pw_code.specs.declared.system.ClassInfo.{ClassInfo};
ghost use Rattle.pw_code.specs.declared.system.System.{System};
ghost use Rattle.pw_code.specs.declared.system.TermInfo.{TermInfo};
ghost use Rattle.pw_event.specs.declared.script.FailLine.{FailLine};
ghost use Rattle.pw_code_meaning.specs.OfSystem.{behaviour};
ghost use Rattle.pw_world_state.specs.Arrivals.{StandsForPath};
ghost use Rattle.pw_world_state.specs.Changes.{kept_fail_server, kept_file, kept_reply, kept_reply_ends, kept_take};
ghost use Rattle.pw_world_state.specs.Kept.{Kept};
ghost use Rattle.pw_world_state.specs.Stands.{Stands, StandsForJob};
ghost use Rattle.pw_onecopy.specs.Path.{Failed, PathAnswer, Replied, is_outside, unit_number};
ghost use Rattle.pw_paired.specs.Failure.{do_fail_server};
ghost use Rattle.pw_paired.specs.Server.{LegalFile, LegalReply, LegalTake, answer_on, do_file, do_reply, do_take, reply_at, with_answer};
ghost use Rattle.pw_paired.specs.State.{OpenUnit, State};
ghost use Rattle.pw_paired.specs.Terminal.{path_of};

/// TAKE, FILE, REPLY and FAIL SERVER: what is kept stands for the state behind the entry. TAKE is
/// given the context of a server that starts on the message, FILE that of the server with one more
/// answer, REPLY that of the terminal with its answer. A FILE is for a unit of which an attempt
/// runs.
pub fn server_laws()
    ensures take { (system : System) (script : List FailLine) (state : State) (kept : Kept)
        (c i t : ℕ)
        (info : ClassInfo) (new : Context) → Stands system script state kept
        → slice_get system.classes c ≡ Some info → (legal : LegalTake
        (behaviour script system) state c i t)
        → StandsForJob system info (record { request = legal.request; done = [] }) new
        → Stands system script (do_take c i state) (kept_take c i new kept) }
    ensures file { (system : System) (script : List FailLine) (state : State) (kept : Kept)
        (c i : ℕ) (op : FileOp)
        (mode : LockMode) (f status : ℕ) (info : ClassInfo) (own : OpenUnit)
        (start : List PathAnswer) (new : Context)
        → Stands system script state kept → slice_get system.classes c ≡ Some info
        → (legal : LegalFile (behaviour script system) state c i op mode f status)
        → state.units legal.job.request.terminal ≡ Some own → own.running ≡ Some start
        → StandsForJob system info (with_answer (answer_on
        (behaviour script system) state legal.call) legal.job) new
        → Stands system script (do_file (behaviour script system) c i state)
        (kept_file c i legal.job.request legal.call new kept) }
    ensures reply { (system : System) (script : List FailLine) (state : State) (kept : Kept)
        (c i t : ℕ)
        (info : ClassInfo) (terminal : TermInfo) (new : Context) → Stands system script state kept
        → slice_get system.classes c ≡ Some info → slice_get system.terminals t ≡ Some terminal
        → LegalReply (behaviour script system) state c i t None → is_outside
        (path_of state t) ≡ false
        → StandsForPath system terminal
        (path_of state t ++ Replied (reply_at (behaviour script system) c
        ((state.classes c).busy i)) ∷ []) new
        → Stands system script (do_reply (behaviour script system) c i t None state)
        (kept_reply c i t new kept) }
    ensures reply_ends { (system : System) (script : List FailLine) (state : State) (kept : Kept)
        (c i t : ℕ)
        (info : ClassInfo) (terminal : TermInfo) (reply : List ℕ) (new : Context)
        → Stands system script state kept
        → slice_get system.classes c ≡ Some info → slice_get system.terminals t ≡ Some terminal
        → LegalReply (behaviour script system) state c i t None → is_outside
        (path_of state t) ≡ true
        → reply ≡ reply_at (behaviour script system) c ((state.classes c).busy i)
        → StandsForPath system terminal (path_of state t ++ Replied reply ∷ []) new
        → Stands system script (do_reply (behaviour script system) c i t None state)
        (kept_reply_ends c i t (unit_number (path_of state t)) reply new kept) }
    ensures fault { (system : System) (script : List FailLine) (state : State) (kept : Kept)
        (c i t x : ℕ)
        (info : ClassInfo) (terminal : TermInfo) (new : Context) → Stands system script state kept
        → slice_get system.classes c ≡ Some info → slice_get system.terminals t ≡ Some terminal
        → LegalReply (behaviour script system) state c i t (Some x)
        → StandsForPath system terminal (path_of state t ++ Failed x ∷ []) new
        → Stands system script (do_reply (behaviour script system) c i t (Some x) state)
        (kept_reply c i t new kept) }
    ensures fails { (system : System) (script : List FailLine) (state : State) (kept : Kept)
        (c i k : ℕ)
        (info : ClassInfo) → Stands system script state kept
        → slice_get system.classes c ≡ Some info
        → 1 ≤ i → i ≤ info.processes
        → Stands system script (do_fail_server c i k state) (kept_fail_server c i k kept) }
{}
