ghost use Rattle.std.specs.Prelude.{◌≡◌, ℕ, List, [], ◌∷◌, ◌++◌, All, true, false};
ghost use Rattle.pw_code.specs.Valid.{IsValid};
ghost use Rattle.pw_code.specs.declared.system.System.{System};
ghost use Rattle.pw_event.specs.declared.event.Event.{Event};
ghost use Rattle.pw_event.specs.declared.script.FailLine.{FailLine};
ghost use Rattle.pw_code_meaning.specs.OfSystem.{behaviour};
ghost use Rattle.pw_world_state.specs.Entered.{entered};
ghost use Rattle.pw_world_state.specs.Kept.{Kept};
ghost use Rattle.pw_world_state.specs.May.{IsLineThere, IsThere, may};
ghost use Rattle.pw_world_state.specs.Meeting.{IsStepRead, StepShows};
ghost use Rattle.pw_world_state.specs.Members.{AreOf};
ghost use Rattle.pw_world_state.specs.Needs.{Needs};
ghost use Rattle.pw_world_state.specs.Read.{AreValued, IsEntryRead, IsReplyRead};
ghost use Rattle.pw_world_state.specs.Stands.{Stands};
ghost use Rattle.pw_laws.specs.legal.Legality.{fits};
ghost use Rattle.pw_onecopy.specs.IsBehaviour.{IsBehaviour};
ghost use Rattle.pw_paired.specs.Step.{IsRun, Legal, after, is_finished, line_due, line_wanted};

/// In every run of a deck: where the programs of which an entry speaks have been read, the test of
/// what is kept says whether the entry is legal by its kind; and it is legal where besides the log
/// is not finished and the failure line that is due is its own. The contexts of which images are
/// compared have numbers and characters of their types.
pub fn may_laws()
    ensures kind { (system : System) (script : List FailLine) (log : List Event) (kept : Kept)
        (entry : Event)
        → IsValid system → IsBehaviour (behaviour script system)
        → IsRun (behaviour script system) log
        → Stands system script (after (behaviour script system) log) kept
        → IsThere system entry → IsEntryRead system kept entry → AreValued system kept entry
        → may system script kept entry
        ≡ fits (behaviour script system) (after (behaviour script system) log) entry }
    ensures legal { (system : System) (script : List FailLine) (log : List Event) (kept : Kept)
        (entry : Event)
        → IsValid system → IsBehaviour (behaviour script system)
        → IsRun (behaviour script system) log
        → Stands system script (after (behaviour script system) log) kept
        → IsThere system entry → IsEntryRead system kept entry → AreValued system kept entry
        → is_finished (behaviour script system) (after (behaviour script system) log) ≡ false
        → line_due (behaviour script system) (after (behaviour script system) log) entry
        ≡ line_wanted entry
        → may system script kept entry ≡ true
        → Legal (behaviour script system) (after (behaviour script system) log) entry }
    ensures passes { (system : System) (script : List FailLine) (log : List Event) (kept : Kept)
        (entry : Event)
        → IsValid system → IsBehaviour (behaviour script system)
        → IsRun (behaviour script system) log
        → Stands system script (after (behaviour script system) log) kept
        → IsThere system entry → IsEntryRead system kept entry → AreValued system kept entry
        → Legal (behaviour script system) (after (behaviour script system) log) entry
        → may system script kept entry ≡ true }
{}

/// In every run of a deck, whatever servers have been read: the test of an entry tells which steps
/// show. Every step shows, but one with the cause OLDER only once the context of a process on whose
/// next file operation it rests stands at its verb.
pub fn show_laws()
    ensures shows { (system : System) (script : List FailLine) (log : List Event) (kept : Kept)
        (entry : Event)
        → IsValid system → IsBehaviour (behaviour script system)
        → IsRun (behaviour script system) log
        → Stands system script (after (behaviour script system) log) kept
        → IsThere system entry → IsStepRead system kept entry → AreValued system kept entry
        → is_finished (behaviour script system) (after (behaviour script system) log) ≡ false
        → line_due (behaviour script system) (after (behaviour script system) log) entry
        ≡ line_wanted entry
        → may system script kept entry ≡ true
        → Legal (behaviour script system) (after (behaviour script system) log) entry
        × StepShows (behaviour script system) (after (behaviour script system) log) kept entry }
    ensures passes { (system : System) (script : List FailLine) (log : List Event) (kept : Kept)
        (entry : Event)
        → IsValid system → IsBehaviour (behaviour script system)
        → IsRun (behaviour script system) log
        → Stands system script (after (behaviour script system) log) kept
        → IsThere system entry → IsStepRead system kept entry → AreValued system kept entry
        → Legal (behaviour script system) (after (behaviour script system) log) entry
        → StepShows (behaviour script system) (after (behaviour script system) log) kept entry
        → may system script kept entry ≡ true }
{}

/// In every run of a deck: what a legal entry needs is there, where the programs of which it speaks
/// have been read; so what is computed from what was kept stands for the state behind it. The
/// contexts of which images are sent have numbers and characters of their types, and the lists have
/// the terminals of each pair.
pub fn step_laws()
    ensures needs { (system : System) (script : List FailLine) (log : List Event) (kept : Kept)
        (entry : Event)
        → IsValid system → IsBehaviour (behaviour script system)
        → IsRun (behaviour script system) log
        → Stands system script (after (behaviour script system) log) kept
        → IsThere system entry → IsEntryRead system kept entry → IsReplyRead kept entry
        → AreValued system kept entry
        → Legal (behaviour script system) (after (behaviour script system) log) entry
        → Needs system script (after (behaviour script system) log) kept entry }
    ensures next { (system : System) (script : List FailLine) (members : ℕ → List ℕ)
        (log : List Event) (kept : Kept) (entry : Event)
        → IsValid system → IsBehaviour (behaviour script system)
        → IsRun (behaviour script system) log
        → ((p : ℕ) → AreOf system p (members p))
        → Stands system script (after (behaviour script system) log) kept
        → IsThere system entry → IsEntryRead system kept entry → IsReplyRead kept entry
        → AreValued system kept entry
        → Legal (behaviour script system) (after (behaviour script system) log) entry
        → Stands system script (after (behaviour script system) (log ++ entry ∷ []))
        (entered system members entry kept) }
{}

/// In every run of a deck whose failure lines name what is there, a legal entry names what is
/// there. So an entry that names anything else is no step.
pub fn there_laws()
    ensures { (system : System) (script : List FailLine) (log : List Event) (entry : Event)
        → IsBehaviour (behaviour script system) → All (IsLineThere system) script
        → IsRun (behaviour script system) log
        → Legal (behaviour script system) (after (behaviour script system) log) entry
        → IsThere system entry }
{}
