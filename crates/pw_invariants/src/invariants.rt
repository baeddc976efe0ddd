ghost use Rattle.std.specs.Prelude.{List, ◌++◌};
ghost use Rattle.pw_code.specs.declared.system.System.{System};
ghost use Rattle.pw_event.specs.declared.event.Event.{Event};
ghost use Rattle.pw_invariants.specs.Invariants.{KeepsInvariant};
ghost use Rattle.pw_invariants.specs.Reports.{PrintsMeeting};
ghost use Rattle.pw_invariants.specs.Servers.{OperationsKeep, ServersKeep};
ghost use Rattle.pw_invariants.specs.Units.{FileRecords};
ghost use Rattle.pw_onecopy.specs.Behaviour.{Behaviour};
ghost use Rattle.pw_onecopy.specs.IsBehaviour.{IsBehaviour};
ghost use Rattle.pw_paired.specs.Step.{IsRun, after};
ghost use Rattle.pw_paired.specs.Units.{committed_files};

use pw_laws::serial::laws::runs_are_serializable;

/// An invariant of an application's records. Its author implements this for a type of theirs, which serves for nothing else.
pub trait Invariant {
    ghost holds: { FileRecords → Type 0 };
}

/// What holds of all records: for laws that take an invariant and need none.
pub struct AnyRecords;

impl Invariant for AnyRecords {
    ghost holds = { λ records. Unit {0} };
}

/// An invariant that the deck's records meet, and that each unit keeps while it runs alone, holds in every run of the deck,
/// whatever the schedule and whatever fails: behind each entry the committed records meet it, and so do those that a
/// report prints as its FILES. And from any moment at which it holds, it holds on.
pub fn invariants_hold_in_every_run<I: Invariant>()
    ensures committed { (sys : Behaviour) → IsBehaviour sys → I.holds sys.records → KeepsInvariant sys I.holds
        → (log : List Event) → IsRun sys log → I.holds (committed_files sys (after sys log)) }
    ensures throughout { (sys : Behaviour) → IsBehaviour sys → I.holds sys.records → KeepsInvariant sys I.holds
        → (log more : List Event) → IsRun sys (log ++ more) → I.holds (committed_files sys (after sys log)) }
    ensures onwards { (sys : Behaviour) → IsBehaviour sys → KeepsInvariant sys I.holds
        → (log more : List Event) → IsRun sys (log ++ more) → I.holds (committed_files sys (after sys log))
        → I.holds (committed_files sys (after sys (log ++ more))) }
    ensures reported { (sys : Behaviour) → IsBehaviour sys → I.holds sys.records → KeepsInvariant sys I.holds
        → (log : List Event) → IsRun sys log → (system : System) → PrintsMeeting I.holds system sys log }
{
    runs_are_serializable();
}

/// What is enough for each unit to keep an invariant: that each server that replies keeps it, run by itself; and for this, that
/// each file operation keeps it.
pub fn servers_keep_invariants<I: Invariant>()
    ensures units { (sys : Behaviour) → IsBehaviour sys → ServersKeep sys I.holds → KeepsInvariant sys I.holds }
    ensures servers { (sys : Behaviour) → IsBehaviour sys → OperationsKeep sys I.holds → ServersKeep sys I.holds }
{}
