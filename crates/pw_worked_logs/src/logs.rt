ghost use Rattle.pw_worked_logs.specs.Worked.{WorksOut};
ghost use Rattle.pw_worked_logs.specs.logs.Locks as locks;
ghost use Rattle.pw_worked_logs.specs.logs.Losses as losses;
ghost use Rattle.pw_worked_logs.specs.logs.Servers as servers;
ghost use Rattle.pw_worked_logs.specs.logs.Takeovers as takeovers;
ghost use Rattle.pw_worked_logs.specs.logs.Units as units;

/// Two units that lock the same records: the logs are runs, with the records, serial orders and
/// screens that were worked out for them.
pub fn lock_logs()
    ensures older_unit_wins_version_1 { WorksOut locks.older_unit_wins }
    ensures shared_readers_version_2 { WorksOut locks.shared_readers }
    ensures suspended_at_restart_limit_version_1 { WorksOut locks.suspended_version_1 }
    ensures suspended_at_restart_limit_version_2 { WorksOut locks.suspended_version_2 }
    ensures span_lock_refuses_younger_write { WorksOut locks.span_lock }
    ensures locks_outlive_reply { WorksOut locks.locks_outlive_reply }
    ensures with_lock_reads_exclusive { WorksOut locks.with_lock_reads_exclusive }
    ensures next_with_lock_reaches_the_found { WorksOut locks.next_with_lock_reaches_the_found }
    ensures next_with_lock_goes_no_further { WorksOut locks.next_with_lock_goes_no_further }
{}

/// One terminal without failures: what operations answer and do, and how units and the terminal
/// end.
pub fn unit_logs()
    ensures two_displays { WorksOut units.two_displays }
    ensures duplicate_missing_and_end_of_file { WorksOut units.duplicate_missing_and_end_of_file }
    ensures missing_records { WorksOut units.missing_records }
    ensures each_operation { WorksOut units.each_operation }
    ensures open_unit_is_left { WorksOut units.open_unit_is_left }
    ensures committed_transaction { WorksOut units.committed_transaction }
    ensures dropped_transaction { WorksOut units.dropped_transaction }
    ensures redo_until_suspended { WorksOut units.redo_until_suspended }
    ensures begins_within { WorksOut units.begins_within }
    ensures server_breaks { WorksOut units.server_breaks }
{}

/// Takeovers, and backups that fail and are raised again.
pub fn takeover_logs()
    ensures takeover_after_commit { WorksOut takeovers.takeover_after_commit }
    ensures takeover_answers_kept_reply { WorksOut takeovers.takeover_answers_kept_reply }
    ensures takeover_restarts_open_unit { WorksOut takeovers.takeover_restarts_open_unit }
    ensures takeover_before_commit { WorksOut takeovers.takeover_before_commit }
    ensures takeover_frees_process { WorksOut takeovers.takeover_frees_process }
    ensures takeover_passes_stale_end { WorksOut takeovers.takeover_passes_stale_end }
    ensures takeover_repeats_screen { WorksOut takeovers.takeover_repeats_screen }
    ensures backup_failure_repeats_no_screen { WorksOut takeovers.backup_failure_repeats_no_screen }
    ensures backup_failure_in_unit { WorksOut takeovers.backup_failure_in_unit }
    ensures failures_without_effect { WorksOut takeovers.failures_without_effect }
    ensures backup_failure_in_transaction { WorksOut takeovers.backup_failure_in_transaction }
{}

/// Pairs that are lost.
pub fn loss_logs()
    ensures primary_fails_before_backup { WorksOut losses.primary_fails_before_backup }
    ensures pair_lost_while_raising { WorksOut losses.pair_lost_while_raising }
    ensures pair_lost_while_down { WorksOut losses.pair_lost_while_down }
    ensures pair_lost_with_cause { WorksOut losses.pair_lost_with_cause }
    ensures pair_lost_with_two_units { WorksOut losses.pair_lost_with_two_units }
{}

/// Processes that fail.
pub fn server_logs()
    ensures server_failure_restarts_unit { WorksOut servers.server_failure_restarts_unit }
    ensures failing_idle_process_changes_nothing { WorksOut servers.idle_process_fails }
    ensures server_cause_waits_for_backup { WorksOut servers.server_cause_waits_for_backup }
{}
