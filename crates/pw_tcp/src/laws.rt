ghost use Rattle.std.specs.Prelude.{◌≡◌, ℕ, Bool, List, Some, true, IfSome};
ghost use Rattle.pw_event.specs.declared.event.Event.{Event};
ghost use Rattle.pw_onecopy.specs.Behaviour.{Behaviour};
ghost use Rattle.pw_onecopy.specs.IsBehaviour.{IsBehaviour};
ghost use Rattle.pw_paired.specs.State.{State};
ghost use Rattle.pw_paired.specs.Step.{Fits, IsRun, after};
ghost use Rattle.pw_paired.specs.Terminal.{IsLive};
ghost use Rattle.pw_tcp.specs.Entries.{step_entry, makes_way, stepper_of};
ghost use Rattle.pw_tcp.specs.InState.{FitsTogether, HasMember, MayStep, next_step_in};
ghost use Rattle.pw_tcp.specs.NextStep.{SaysEnough, next_step_of};
ghost use Rattle.pw_tcp.specs.declared.step.TcpStep.TheVariants.{Wait};
ghost use Rattle.pw_tcp.specs.declared.terminal.Note.{Note};
ghost use Rattle.pw_tcp.specs.declared.terminal.Terminal.{Terminal};
ghost use Rattle.pw_code.specs.declared.verb.Verb.{Verb};

/// In a state in which a live terminal may be asked for its next step, the entry that the step names fits its kind;
/// and where the terminal waits, no entry of its own fits but a restart or a suspension for an older unit, and the
/// ending of a terminal whose pair is lost.
pub fn step_laws()
    ensures fits { (sys : Behaviour) (state : State) (t : ℕ) → IsLive sys state t → MayStep sys state t
        → FitsTogether sys state t
        → IfSome (step_entry sys state t (next_step_in sys state t)) (Fits sys state) }
    ensures waits { (sys : Behaviour) (state : State) (t : ℕ) → MayStep sys state t → FitsTogether sys state t
        → next_step_in sys state t ≡ Wait
        → (entry : Event) → stepper_of entry ≡ Some t → Fits sys state entry → makes_way entry ≡ true }
{}

/// In every state of a run of a deck the next step of a live terminal whose pair has a member at
/// work may be asked for, and what the state has of it fits together. So the entry that the step
/// names fits its kind; where it waits, no entry of its own fits but one that makes way for an older
/// unit; and where no member works, none fits but such a one and the ending of a terminal whose pair
/// is lost.
pub fn run_laws()
    ensures may { (sys : Behaviour) → IsBehaviour sys → (log : List Event) → IsRun sys log
        → (t : ℕ) → IsLive sys (after sys log) t
        → HasMember ((after sys log).modes (sys.pair_of t)) → MayStep sys (after sys log) t }
    ensures together { (sys : Behaviour) → IsBehaviour sys → (log : List Event) → IsRun sys log
        → (t : ℕ) → IsLive sys (after sys log) t
        → HasMember ((after sys log).modes (sys.pair_of t)) → FitsTogether sys (after sys log) t }
    ensures fits { (sys : Behaviour) → IsBehaviour sys → (log : List Event) → IsRun sys log
        → (t : ℕ) → IsLive sys (after sys log) t
        → HasMember ((after sys log).modes (sys.pair_of t))
        → IfSome (step_entry sys (after sys log) t (next_step_in sys (after sys log) t))
        (Fits sys (after sys log)) }
    ensures waits { (sys : Behaviour) → IsBehaviour sys → (log : List Event) → IsRun sys log
        → (t : ℕ) → IsLive sys (after sys log) t
        → HasMember ((after sys log).modes (sys.pair_of t))
        → next_step_in sys (after sys log) t ≡ Wait
        → (entry : Event) → stepper_of entry ≡ Some t → Fits sys (after sys log) entry
        → makes_way entry ≡ true }
    ensures rests { (sys : Behaviour) (state : State) (t : ℕ)
        → ¬ HasMember (state.modes (sys.pair_of t))
        → (entry : Event) → stepper_of entry ≡ Some t → Fits sys state entry
        → makes_way entry ≡ true }
{}

/// The next step is the same where a note says enough: of what the backup holds only what the step depends on.
pub fn note_laws()
    ensures { (terminal : Terminal) (asked : Verb) (in_unit : Bool) (note other : Note) (max : ℕ)
        → SaysEnough terminal asked in_unit note other
        → next_step_of terminal asked in_unit other max ≡ next_step_of terminal asked in_unit note max }
{}
