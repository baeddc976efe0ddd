ghost use Rattle.std.specs.BTreeSet.{BTreeSet};
ghost use Rattle.std.specs.Prelude.{◌≡◌, ◌+◌, ◌-◌, ◌<◌, ◌≤◌, ◌^◌, ◌++◌, ◌∷◌, [], Bool, List, Some, false, length, true, ℕ};
ghost use Rattle.pw_code.specs.Limits.{most_log_lines};
ghost use Rattle.pw_code.specs.declared.system.System.{System};
ghost use Rattle.pw_status.specs.Attempts.{AreAttemptsOf, AttemptsState, IsStart, attempts_behind};
ghost use Rattle.pw_status.specs.Counters.{AreCountersOf, CountersState, counters_behind};
ghost use Rattle.pw_status.specs.Counts.{waiting};
ghost use Rattle.pw_status.specs.Longest.{AreLongestOf, longest_with, sent_to};
ghost use Rattle.pw_status.specs.Over.{ends_at};
ghost use Rattle.pw_status.specs.Shown.{AreShownOf, IsForgotten, IsNumberNoted, IsSameAs};
ghost use Rattle.pw_status.specs.Tally.{IsFirstTally, EntryMeets, IsNotedIn, IsTallyOf, TallyState};
ghost use Rattle.pw_status.specs.declared.tally.Met.{Met};
ghost use Rattle.pw_event.specs.declared.event.Event.{Event};
ghost use Rattle.pw_report_text.specs.Listing.{refreshes_counted_once};
ghost use Rattle.pw_report_text.specs.Numbers.{number_of_refresh};
ghost use Rattle.pw_report_text.specs.declared.numbers.ListedRefreshNumber.{ListedRefreshNumber};
ghost use Rattle.pw_onecopy.specs.Behaviour.{Behaviour};
ghost use Rattle.pw_onecopy.specs.IsBehaviour.{IsBehaviour};
ghost use Rattle.pw_onecopy.specs.declared.refresh.Refresh.{Refresh};
ghost use Rattle.pw_serial_order.specs.Shadow.{IsOfSystem};
ghost use Rattle.pw_paired.specs.Shown.{refreshes};
ghost use Rattle.pw_paired.specs.State.{OpenUnit};
ghost use Rattle.pw_paired.specs.Step.{IsRun, after};

/// Counters of a log are those of the log with one more entry behind that entry.
pub fn counter_laws()
    ensures { (log : List Event) (entry : Event) (counters : CountersState) → length log < 2 ^ 32 - 1
        → AreCountersOf log counters
        → AreCountersOf (log ++ entry ∷ []) (counters_behind entry counters) }
{}

/// The greatest numbers of a log are those of the log with one more entry, once the number that waits
/// behind a SEND is taken in: behind every other entry no more wait than before it. No more wait than the
/// log has entries.
pub fn longest_laws()
    ensures few { (sys : Behaviour) (log : List Event) (c : ℕ) → waiting (after sys log) c ≤ length log }
    ensures next { (sys : Behaviour) (log : List Event) (entry : Event) (longest : List ℕ) (n : ℕ)
        → AreLongestOf sys log longest
        → ((c : ℕ) → sent_to entry ≡ Some c → n ≡ waiting (after sys (log ++ entry ∷ [])) c)
        → AreLongestOf sys (log ++ entry ∷ []) (longest_with (sent_to entry) n longest) }
{}

/// Attempts before the first entry are those of the empty log; and attempts of a log are those of the
/// log with one more entry behind that entry, where they are told whether a REPLY commits and whether
/// a FAIL TCP loses its pair.
pub fn attempt_laws()
    ensures start { (system : System) (sys : Behaviour) → IsOfSystem system sys
        → (attempts : AttemptsState) → IsStart system attempts → AreAttemptsOf sys [] attempts }
    ensures next { (sys : Behaviour) (log : List Event) (entry : Event) (attempts : AttemptsState)
        → sys.terminals ≤ 128 → length log < most_log_lines
        → ((t : ℕ) (own : OpenUnit) → (after sys log).units t ≡ Some own → t < sys.terminals)
        → AreAttemptsOf sys log attempts → AreAttemptsOf sys (log ++ entry ∷ [])
        (attempts_behind (ends_at sys (after sys log) entry) entry attempts) }
{}

/// The refresh numbers that are kept are those of the refreshes so far: where one more is noted, and
/// where one that was new is forgotten again. They are no more than the log has entries.
pub fn number_laws()
    ensures few { (sys : Behaviour) (log : List Event) (t : ℕ)
        → length (refreshes_counted_once (refreshes sys log) t) ≤ length log }
    ensures same { (refreshes : List Refresh) (old new : List (BTreeSet ListedRefreshNumber))
        → IsSameAs old new → AreShownOf refreshes old → AreShownOf refreshes new }
    ensures noted { (refreshes : List Refresh) (r : Refresh) (t : ℕ) (fresh : Bool)
        (old new : List (BTreeSet ListedRefreshNumber)) → t < length old → r.terminal ≡ t
        → IsNumberNoted t (number_of_refresh r) fresh old new
        → AreShownOf refreshes old → AreShownOf (refreshes ++ r ∷ []) new }
    ensures seen { (refreshes : List Refresh) (r : Refresh) (t : ℕ)
        (old new : List (BTreeSet ListedRefreshNumber)) → t < length old → IsNumberNoted t (number_of_refresh r) false old new
        → AreShownOf refreshes old → AreShownOf refreshes new }
    ensures forgotten { (refreshes : List Refresh) (r : Refresh) (t : ℕ)
        (old mid new : List (BTreeSet ListedRefreshNumber)) → t < length old
        → IsNumberNoted t (number_of_refresh r) true old mid → IsForgotten t (number_of_refresh r) mid new
        → AreShownOf refreshes old → AreShownOf refreshes new }
{}

/// All that is counted before the first entry is that of the empty log; and all that is counted of a log is
/// that of the log with one more entry, once this is noted with what it meets.
pub fn tally_laws()
    ensures first { (system : System) (sys : Behaviour) → IsOfSystem system sys
        → (tally : TallyState) → IsFirstTally system tally → IsTallyOf system sys [] tally }
    ensures next { (system : System) (sys : Behaviour) → IsBehaviour sys
        → sys.terminals ≤ 128 → (log : List Event) → IsRun sys log → length log < most_log_lines
        → (entry : Event) → (met : Met) → EntryMeets sys log entry met → (old new : TallyState)
        → IsTallyOf system sys log old → IsNotedIn entry met old new
        → IsTallyOf system sys (log ++ entry ∷ []) new }
{}
