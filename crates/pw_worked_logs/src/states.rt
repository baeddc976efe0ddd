ghost use Rattle.std.specs.Prelude.{[], ◌∷◌, ◌≡◌, codes, None, Some};
ghost use Rattle.pw_worked_logs.specs.logs.Locks.{older_unit_wins};
ghost use Rattle.pw_worked_logs.specs.logs.Losses.{pair_lost_while_down, pair_lost_while_raising, pair_lost_with_cause};
ghost use Rattle.pw_worked_logs.specs.logs.Takeovers.{takeover_frees_process};
ghost use Rattle.pw_worked_logs.specs.logs.Units.{committed_transaction, dropped_transaction, open_unit_is_left, server_breaks};
ghost use Rattle.pw_worked_logs.specs.Worked.{state_at};

/// What no later entry reads, behind worked logs: a lost pair's terminals have no path and no
/// pending cause, and TMF keeps the reply of a unit that is one SEND and has committed, and of no
/// other.
pub fn worked_states()
    ensures lost_while_down { (state_at pair_lost_while_down 14).terms 0
        ≡ record { path = []; pending = None; ending = None } }
    ensures lost_with_cause { (state_at pair_lost_with_cause 12).terms 0
        ≡ record { path = []; pending = None; ending = None } }
    ensures lost_while_raising { (state_at pair_lost_while_raising 22).terms 0
        ≡ record { path = []; pending = None; ending = None } }
    ensures down { (state_at takeover_frees_process 10).terms 0
        ≡ record { path = []; pending = None; ending = None } }
    ensures one_send { (state_at older_unit_wins 21).ended 0
        ≡ record { number = 1; reply = Some (codes "00000000A10006") } }
    ensures left_send { (state_at server_breaks 11).ended 0 ≡ record { number = 1; reply = None } }
    ensures left_transaction { (state_at open_unit_is_left 15).ended 0
        ≡ record { number = 1; reply = None } }
    ensures committed_transaction { (state_at committed_transaction 19).ended 0
        ≡ record { number = 1; reply = None } }
    ensures dropped_transaction { (state_at dropped_transaction 24).ended 0
        ≡ record { number = 1; reply = None } }
{}
