ghost use Rattle.std.specs.Prelude.{◌≡◌, ℕ, List, Some, slice_get};
ghost use Rattle.pw_code.specs.declared.system.System.{System};
ghost use Rattle.pw_code.specs.declared.system.TermInfo.{TermInfo};
ghost use Rattle.pw_event.specs.declared.script.FailLine.{FailLine};
ghost use Rattle.pw_code_meaning.specs.OfSystem.{behaviour};
ghost use Rattle.pw_world_state.specs.Changes.{at_pair, kept_applied, kept_check, kept_raise};
ghost use Rattle.pw_world_state.specs.Kept.{Kept};
ghost use Rattle.pw_world_state.specs.Stands.{IsPathImage, Stands};
ghost use Rattle.pw_onecopy.specs.Path.{unit_number};
ghost use Rattle.pw_pair.specs.Pairs.{changed_at};
ghost use Rattle.pw_pair.specs.Seats.{built};
ghost use Rattle.pw_pair.specs.declared.message.CheckKind.TheVariants as kind;
ghost use Rattle.pw_paired.specs.Raising.{LegalApplied, LegalCheckCopy, LegalRaise, copied_path, do_applied, do_check_copy, do_raise};
ghost use Rattle.pw_paired.specs.State.{State};
ghost use Rattle.pw_paired.specs.Terminal.{LegalCheckEnd, LegalCheckStart, closed_path, do_check_end, do_check_start, path_of};

/// CHECK START, CHECK END and CHECK COPY: where the image that is sent is one of the path that goes
/// to the backup, what is kept stands for the state behind the entry.
pub fn check_laws()
    ensures start { (system : System) (script : List FailLine) (state : State) (kept : Kept) (t : ℕ)
        (terminal : TermInfo) (image : List ℕ) → Stands system script state kept
        → slice_get system.terminals t ≡ Some terminal → LegalCheckStart
        (behaviour script system) state t
        → IsPathImage system terminal (path_of state t) image
        → Stands system script (do_check_start t state)
        (kept_check terminal.tcp (record {
          terminal = t;
          kind = kind.Start;
          unit = unit_number
              (path_of state t);
          image = image;
        }) kept) }
    ensures end { (system : System) (script : List FailLine) (state : State) (kept : Kept)
        (t unit : ℕ)
        (terminal : TermInfo) (image : List ℕ) → Stands system script state kept
        → slice_get system.terminals t ≡ Some terminal → LegalCheckEnd
        (behaviour script system) state t
        → IsPathImage system terminal (closed_path (behaviour script system) state t) image
        → Stands system script (do_check_end (behaviour script system) t state)
        (kept_check terminal.tcp
        (record { terminal = t; kind = kind.End; unit = unit; image = image }) kept) }
    ensures copy { (system : System) (script : List FailLine) (state : State) (kept : Kept) (t : ℕ)
        (terminal : TermInfo) (image : List ℕ) → Stands system script state kept
        → slice_get system.terminals t ≡ Some terminal → LegalCheckCopy
        (behaviour script system) state t
        → IsPathImage system terminal (copied_path state t) image
        → Stands system script (do_check_copy t state)
        (kept_check terminal.tcp (record {
          terminal = t;
          kind = kind.Copy;
          unit = unit_number
              (copied_path state t);
          image = image;
        }) kept) }
{}

/// RAISE and APPLIED: what is kept stands for the state behind the entry.
pub fn raise_laws()
    ensures raise { (system : System) (script : List FailLine) (state : State) (kept : Kept) (p : ℕ)
        → Stands system script state kept → LegalRaise (behaviour script system) state p
        → Stands system script (do_raise (behaviour script system) p state) (kept_raise p kept) }
    ensures applied { (system : System) (script : List FailLine) (state : State) (kept : Kept)
        (t : ℕ)
        (terminal : TermInfo) → Stands system script state kept
        → slice_get system.terminals t ≡ Some terminal → LegalApplied
        (behaviour script system) state t
        → Stands system script (do_applied (behaviour script system) t state)
        (kept_applied terminal.tcp t kept) }
{}

/// The backup may build the image of a message in flight at any time.
pub fn built_laws()
    ensures built { (system : System) (script : List FailLine) (state : State) (kept : Kept)
        (p t : ℕ)
        → Stands system script state kept → Stands system script state (at_pair p
        (changed_at t built) kept) }
{}
