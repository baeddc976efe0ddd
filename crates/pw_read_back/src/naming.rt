ghost use Rattle.std.specs.Prelude.{List, All, map};
ghost use Rattle.std.specs.List.{AllByRecursion};
ghost use Rattle.pw_code.specs.declared.system.System.{System};
ghost use Rattle.pw_event.specs.Line.{IsNamed};
ghost use Rattle.pw_event.specs.declared.event.Event.{Event};
ghost use Rattle.pw_event.specs.declared.script.FailLine.{FailLine};
ghost use Rattle.pw_code_meaning.specs.OfSystem.{behaviour};
ghost use Rattle.pw_world_state.specs.May.{IsLineThere};
ghost use Rattle.pw_report_text.specs.Blocks.{IsBlockOf};
ghost use Rattle.pw_onecopy.specs.IsBehaviour.{IsBehaviour};
ghost use Rattle.pw_serial_order.specs.Order.{told};
ghost use Rattle.pw_paired.specs.Serial.{blocks};
ghost use Rattle.pw_paired.specs.Step.{IsRun, Legal, after};

/// In every run of a deck each entry names terminals, pairs, classes, processes and files that are
/// there, so that its line can be written (docs/reference/DECK.md); and so does each block of the serial order.
pub fn naming_laws()
    ensures entry { (system : System) (script : List FailLine) (log : List Event) (entry : Event)
        → IsBehaviour (behaviour script system) → All (IsLineThere system) script
        → IsRun (behaviour script system) log
        → Legal (behaviour script system) (after (behaviour script system) log) entry
        → IsNamed system entry }
    ensures log { (system : System) (script : List FailLine) (log : List Event)
        → IsBehaviour (behaviour script system) → All (IsLineThere system) script
        → IsRun (behaviour script system) log → AllByRecursion (IsNamed system) log }
    ensures order { (system : System) (script : List FailLine) (log : List Event)
        → IsBehaviour (behaviour script system) → All (IsLineThere system) script
        → IsRun (behaviour script system) log
        → AllByRecursion (IsBlockOf system) (map told (blocks (behaviour script system) log)) }
{}
