ghost use Rattle.std.specs.Prelude.{◌≡◌, ℕ, List, Option, Some, false, slice_get};
ghost use Rattle.pw_code.specs.declared.context.Context.{Context};
ghost use Rattle.pw_code.specs.declared.file.FileOp.{FileOp};
ghost use Rattle.pw_code.specs.declared.lock.LockMode.{LockMode};
ghost use Rattle.pw_code.specs.declared.system.ClassInfo.{ClassInfo};
ghost use Rattle.pw_code.specs.declared.system.System.{System};
ghost use Rattle.pw_code.specs.declared.verb.Answer.TheVariants as answer;
ghost use Rattle.pw_code.specs.declared.verb.Verb.TheVariants as verb;
ghost use Rattle.pw_event.specs.declared.event.Event.{Event};
ghost use Rattle.pw_event.specs.declared.script.FailLine.{FailLine};
ghost use Rattle.pw_code_meaning.specs.OfSystem.{behaviour};
ghost use Rattle.pw_image.specs.Image.{HasImage};
ghost use Rattle.pw_image.specs.Values.{HasValues};
ghost use Rattle.pw_world_state.specs.Asked.{answered_with};
ghost use Rattle.pw_world_state.specs.Entered.{copied, entered, entered_again, entered_back, entered_begin, entered_check_copy, entered_check_end, entered_check_start, entered_commit, entered_file, entered_key, entered_reply, entered_send, entered_show, entered_take};
ghost use Rattle.pw_world_state.specs.Kept.{Kept};
ghost use Rattle.pw_world_state.specs.Members.{AreOf, KnowsAll};
ghost use Rattle.pw_world_state.specs.Needs.{Needs};
ghost use Rattle.pw_world_state.specs.Stands.{Stands};
ghost use Rattle.pw_world_state.specs.Tested.{CarriesPath, IsAsking, IsPlaced, IsServing};
ghost use Rattle.pw_paired.specs.Raising.{LegalCheckCopy, copied_path, do_check_copy, lacks_one};
ghost use Rattle.pw_paired.specs.Server.{LegalFile, LegalReply, LegalTake, do_file, do_reply, do_take};
ghost use Rattle.pw_paired.specs.State.{Down, OpenUnit, State};
ghost use Rattle.pw_paired.specs.Step.{Legal, effect};
ghost use Rattle.pw_paired.specs.Terminal.{LegalAgain, LegalBack, LegalBegin, LegalCheckEnd, LegalCheckStart, LegalCommit, LegalKey, LegalSend, LegalShow, do_again, do_back, do_begin, do_check_end, do_check_start, do_commit, do_key, do_send, do_show, next_verb, path_of};
ghost use Rattle.pw_tmf.specs.Leaving.{CanLeave};

/// SHOW, KEY, AGAIN, BEGIN, SEND, COMMIT and BACK of a terminal whose program stands at its verb:
/// what is computed from what was kept stands for the state behind the entry. An open unit has the
/// number that it begins again with.
pub fn verb_laws()
    ensures show { (system : System) (script : List FailLine) (state : State) (kept : Kept)
        (t phase attempt k : ℕ)
        → Stands system script state kept → IsAsking system script state kept t
        → LegalShow (behaviour script system) state t phase attempt k
        → Stands system script (do_show t state) (entered_show system t kept) }
    ensures key { (system : System) (script : List FailLine) (state : State) (kept : Kept) (t k : ℕ)
        → Stands system script state kept → IsAsking system script state kept t
        → LegalKey (behaviour script system) state t k
        → Stands system script (do_key t k state) (entered_key system t k kept) }
    ensures again { (system : System) (script : List FailLine) (state : State) (kept : Kept)
        (t n : ℕ)
        → Stands system script state kept → IsAsking system script state kept t
        → LegalAgain (behaviour script system) state t n
        → Stands system script (do_again t state) (entered_again system t kept) }
    ensures begin { (system : System) (script : List FailLine) (state : State) (kept : Kept)
        (t n r : ℕ)
        → Stands system script state kept → IsAsking system script state kept t
        → LegalBegin (behaviour script system) state t n r
        → ((own : OpenUnit) → state.units t ≡ Some own → own.number ≡ n)
        → next_verb (behaviour script system) state t ≡ verb.Begin
        → Stands system script (do_begin (behaviour script system) t n r state)
        (entered_begin system t n r kept) }
    ensures begin_send { (system : System) (script : List FailLine) (state : State) (kept : Kept)
        (t n r c : ℕ)
        (message : List ℕ) → Stands system script state kept → IsAsking system script state kept t
        → LegalBegin (behaviour script system) state t n r
        → ((own : OpenUnit) → state.units t ≡ Some own → own.number ≡ n)
        → next_verb (behaviour script system) state t ≡ verb.Send c message
        → Stands system script (do_begin (behaviour script system) t n r state)
        (entered_begin system t n r kept) }
    ensures send { (system : System) (script : List FailLine) (state : State) (kept : Kept)
        (t n c : ℕ)
        → Stands system script state kept → IsAsking system script state kept t
        → LegalSend (behaviour script system) state t n c
        → Stands system script (do_send (behaviour script system) t n c state)
        (entered_send system t n c kept) }
    ensures commit { (system : System) (script : List FailLine) (state : State) (kept : Kept)
        (t n : ℕ)
        → Stands system script state kept → IsAsking system script state kept t
        → LegalCommit (behaviour script system) state t n
        → Stands system script (do_commit t n state) (entered_commit system t n kept) }
    ensures back { (system : System) (script : List FailLine) (state : State) (kept : Kept)
        (t n : ℕ)
        → Stands system script state kept → IsAsking system script state kept t
        → LegalBack (behaviour script system) state t n
        → Stands system script (do_back (behaviour script system) t n state)
        (entered_back system t n kept) }
{}

/// CHECK START, CHECK COPY and CHECK END: the same, where the context that the message carries has
/// an image.
pub fn check_laws()
    ensures start { (system : System) (script : List FailLine) (state : State) (kept : Kept)
        (t : ℕ) (context : Context)
        → Stands system script state kept → IsAsking system script state kept t
        → (kept.terminals t).context ≡ Some context → CarriesPath (path_of state t) context
        → LegalCheckStart (behaviour script system) state t
        → Stands system script (do_check_start t state) (entered_check_start system t kept) }
    ensures copy { (system : System) (script : List FailLine) (state : State) (kept : Kept) (t : ℕ)
        (context : Context)
        → Stands system script state kept → IsPlaced system t
        → copied (kept.terminals t).start (kept.terminals t).context ≡ Some context
        → CarriesPath (copied_path state t) context → LegalCheckCopy (behaviour script system) state t
        → Stands system script (do_check_copy t state) (entered_check_copy system t kept) }
    ensures end { (system : System) (script : List FailLine) (state : State) (kept : Kept) (t : ℕ)
        → Stands system script state kept → (asking : IsAsking system script state kept t)
        → next_verb (behaviour script system) state t ≡ verb.End
        → HasImage (answered_with system answer.Ended asking.context)
        → HasValues (answered_with system answer.Ended asking.context)
        → LegalCheckEnd (behaviour script system) state t
        → Stands system script (do_check_end (behaviour script system) t state)
        (entered_check_end system t kept) }
    ensures drop { (system : System) (script : List FailLine) (state : State) (kept : Kept) (t : ℕ)
        → Stands system script state kept → (asking : IsAsking system script state kept t)
        → next_verb (behaviour script system) state t ≡ verb.Drop
        → HasImage (answered_with system answer.Dropped asking.context)
        → HasValues (answered_with system answer.Dropped asking.context)
        → LegalCheckEnd (behaviour script system) state t
        → Stands system script (do_check_end (behaviour script system) t state)
        (entered_check_end system t kept) }
{}

/// TAKE, FILE and REPLY: the same, for FILE and REPLY where the server in the process stands at its
/// verb, and for REPLY its terminal's program too.
pub fn class_laws()
    ensures take { (system : System) (script : List FailLine) (state : State) (kept : Kept)
        (c i t : ℕ) (info : ClassInfo)
        → Stands system script state kept → slice_get system.classes c ≡ Some info
        → LegalTake (behaviour script system) state c i t
        → Stands system script (do_take c i state) (entered_take system c i kept) }
    ensures file { (system : System) (script : List FailLine) (state : State) (kept : Kept)
        (c i : ℕ) (op : FileOp)
        (mode : LockMode) (f status : ℕ) → Stands system script state kept
        → IsServing system script state kept c i
        → LegalFile (behaviour script system) state c i op mode f status
        → Stands system script (do_file (behaviour script system) c i state)
        (entered_file system c i kept) }
    ensures reply { (system : System) (script : List FailLine) (state : State) (kept : Kept)
        (c i t : ℕ) (fault : Option ℕ)
        → Stands system script state kept → IsServing system script state kept c i
        → IsAsking system script state kept t → LegalReply
        (behaviour script system) state c i t fault
        → Stands system script (do_reply (behaviour script system) c i t fault state)
        (entered_reply system c i t fault kept) }
{}

/// Every entry: where it is legal and what it needs is there, what is computed from what was kept
/// stands for the state behind it. The lists have the terminals of each pair.
pub fn entry_laws()
    ensures { (system : System) (script : List FailLine) (members : ℕ → List ℕ) (state : State)
        (kept : Kept)
        (entry : Event) → Stands system script state kept → ((p : ℕ) → AreOf system p (members p))
        → KnowsAll (behaviour script system) state → CanLeave (behaviour script system) state
        → ((p : ℕ) → state.modes p ≡ Down → lacks_one (behaviour script system) p state ≡ false)
        → Legal (behaviour script system) state entry → Needs system script state kept entry
        → Stands system script (effect (behaviour script system) state entry)
        (entered system members entry kept) }
{}
