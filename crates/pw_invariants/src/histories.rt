ghost use Rattle.std.specs.Prelude.{◌≡◌, ℕ, List, [], ◌∷◌, ◌++◌, None, true, false};
ghost use Rattle.pw_event.specs.declared.event.Event.{Event};
ghost use Rattle.pw_event.specs.declared.event.Event.TheVariants.{Commit, Reply};
ghost use Rattle.pw_invariants.specs.Invariants.{KeepsHistory, KeepsInvariant, StepsBy, stepped};
ghost use Rattle.pw_invariants.specs.Requests.{RepliedRequest, ServersStep, UnitsBalance, requests_of};
ghost use Rattle.pw_invariants.specs.Servers.{ServersKeep};
ghost use Rattle.pw_invariants.specs.Units.{CommitsBetween, CommitsNext, CommittedUnit, FileRecords, RunInTurn, committed_units};
ghost use Rattle.pw_laws.specs.locking.Records.{commits_at};
ghost use Rattle.pw_onecopy.specs.Behaviour.{Behaviour};
ghost use Rattle.pw_onecopy.specs.IsBehaviour.{IsBehaviour};
ghost use Rattle.pw_onecopy.specs.OneCopy.{one_copy};
ghost use Rattle.pw_onecopy.specs.Path.{is_outside, unit_number};
ghost use Rattle.pw_paired.specs.Serial.{blocks};
ghost use Rattle.pw_paired.specs.Step.{IsRun, after};
ghost use Rattle.pw_paired.specs.Terminal.{path_of};
ghost use Rattle.pw_paired.specs.Units.{committed_files};

use crate::invariants::Invariant;
use pw_laws::serial::laws::runs_are_serializable;

/// In every run of a deck, whatever fails, the units that have committed run one after the other, each alone on the records that
/// the one before it left: from the deck's records to the committed ones, and between any two moments.
pub fn committed_units_run_in_turn()
    ensures whole { (sys : Behaviour) → IsBehaviour sys → (log : List Event) → IsRun sys log
        → RunInTurn sys sys.records (committed_units sys log) (committed_files sys (after sys log)) }
    ensures between { (sys : Behaviour) → IsBehaviour sys → (log more : List Event) → IsRun sys (log ++ more)
        → CommitsBetween sys log more }
{
    runs_are_serializable();
}

/// In every run of a deck each entry that commits adds its unit to those that the log has committed, as the last one: COMMIT, and
/// the REPLY of a unit that is one SEND. No other entry adds any.
pub fn committed_units_are_those_of_the_entries()
    ensures commit { (sys : Behaviour) → IsBehaviour sys → (log : List Event) (t n : ℕ)
        → IsRun sys (log ++ Commit t n ∷ []) → CommitsNext sys log (Commit t n) t n }
    ensures send { (sys : Behaviour) → IsBehaviour sys → (log : List Event) (c i t : ℕ)
        → IsRun sys (log ++ Reply c i t None ∷ []) → is_outside (path_of (after sys log) t) ≡ true
        → CommitsNext sys log (Reply c i t None) t (unit_number (path_of (after sys log) t)) }
    ensures stay { (sys : Behaviour) → IsBehaviour sys → (log : List Event) (entry : Event)
        → IsRun sys (log ++ entry ∷ []) → commits_at (after sys log) entry ≡ false
        → committed_units sys (log ++ entry ∷ []) ≡ committed_units sys log }
{
    runs_are_serializable();
}

/// An invariant of an application's records beside the units that have committed so far.
pub trait HistoryInvariant {
    ghost holds: { List CommittedUnit → FileRecords → Type 0 };
}

/// The same of records beside the units that have committed: what holds of the deck's records and no unit, and is kept by each
/// unit that runs alone, holds behind each entry of every run, of the committed records and the units that the log has committed,
/// in its serial order.
pub fn histories_hold_in_every_run<H: HistoryInvariant>()
    ensures committed { (sys : Behaviour) → IsBehaviour sys → H.holds [] sys.records → KeepsHistory sys H.holds
        → (log : List Event) → IsRun sys log → H.holds (committed_units sys log) (committed_files sys (after sys log)) }
    ensures throughout { (sys : Behaviour) → IsBehaviour sys → H.holds [] sys.records → KeepsHistory sys H.holds
        → (log more : List Event) → IsRun sys (log ++ more)
        → H.holds (committed_units sys log) (committed_files sys (after sys log)) }
    ensures reported { (sys : Behaviour) → IsBehaviour sys → H.holds [] sys.records → KeepsHistory sys H.holds
        → (log : List Event) → IsRun sys log → H.holds (committed_units sys log) (one_copy sys (blocks sys log)).files }
{
    runs_are_serializable();
}

/// What is measured of the records, as a sum of balances, is behind each entry of every run what it was at first, changed by the
/// step of each unit that has committed, in the serial order: where each unit that runs alone from records that meet an invariant
/// changes it by its step, and keeps the invariant.
pub fn measures_step_by_units<I: Invariant, A>()
    ensures committed { (sys : Behaviour) → IsBehaviour sys → I.holds sys.records → KeepsInvariant sys I.holds
        → (measure : FileRecords → A) (step : A → CommittedUnit → A) → StepsBy sys I.holds measure step
        → (log : List Event) → IsRun sys log
        → measure (committed_files sys (after sys log)) ≡ stepped step (measure sys.records) (committed_units sys log) }
    ensures reported { (sys : Behaviour) → IsBehaviour sys → I.holds sys.records → KeepsInvariant sys I.holds
        → (measure : FileRecords → A) (step : A → CommittedUnit → A) → StepsBy sys I.holds measure step
        → (log : List Event) → IsRun sys log
        → measure (one_copy sys (blocks sys log)).files ≡ stepped step (measure sys.records) (committed_units sys log) }
{
    runs_are_serializable();
}

/// What is measured of the records steps by the requests of the units that have committed, where it steps so by each server that
/// replies, run by itself on records that meet an invariant, which it keeps. So where the requests of each unit balance, as a
/// debit and its credit do, it is behind each entry of every run what it was at first: of the servers this asks for one run each,
/// and of the requesters for what they send.
pub fn measures_step_by_requests<I: Invariant, A>()
    ensures units { (sys : Behaviour) → IsBehaviour sys → ServersKeep sys I.holds
        → (measure : FileRecords → A) (step : A → RepliedRequest → A) → ServersStep sys I.holds measure step
        → StepsBy sys I.holds measure (λ value unit. stepped step value (requests_of sys unit)) }
    ensures balanced { (sys : Behaviour) → IsBehaviour sys → I.holds sys.records → ServersKeep sys I.holds
        → (measure : FileRecords → A) (step : A → RepliedRequest → A) → ServersStep sys I.holds measure step
        → UnitsBalance sys I.holds step
        → (log : List Event) → IsRun sys log → measure (committed_files sys (after sys log)) ≡ measure sys.records }
{
    runs_are_serializable();
}
