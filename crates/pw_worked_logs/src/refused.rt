ghost use Rattle.std.specs.Prelude.{[], ◌∷◌, ◌++◌, ◌≡◌, take, true, None};
ghost use Rattle.pw_code.specs.declared.file.FileOp.TheVariants.{Read, Rewrite, Write};
ghost use Rattle.pw_code.specs.declared.lock.LockMode.TheVariants.{Exclusive, Shared};
ghost use Rattle.pw_code.specs.declared.lock.LockRule.TheVariants.{AllExclusive};
ghost use Rattle.pw_event.specs.declared.event.Cause.TheVariants as cause;
ghost use Rattle.pw_event.specs.declared.event.Ending.TheVariants.{NoEntries, Suspended};
ghost use Rattle.pw_event.specs.declared.event.Event.TheVariants.{Again, Begin, Commit, End, FailTcp, File, Key, Raise, Restart, Show, Take, Takeover};
ghost use Rattle.pw_event.specs.declared.script.FailLine.TheVariants as line;
ghost use Rattle.pw_onecopy.specs.Blocks.{Out, Attempted, Left, Restarted};
ghost use Rattle.pw_paired.specs.Step.{Legal};
ghost use Rattle.pw_worked_logs.specs.Deck.{WorkedSetting, deck};
ghost use Rattle.pw_worked_logs.specs.logs.Locks.{locks_outlive_reply, next_with_lock_reaches_the_found, older_unit_wins, shared_readers, span_lock, two_increment, with_lock_reads_exclusive};
ghost use Rattle.pw_worked_logs.specs.logs.Losses.{pair_lost_while_down};
ghost use Rattle.pw_worked_logs.specs.logs.Servers.{server_cause_waits_for_backup, server_failure_restarts_unit};
ghost use Rattle.pw_worked_logs.specs.logs.Takeovers.{takeover_after_commit, takeover_answers_kept_reply, takeover_frees_process, takeover_restarts_open_unit, transaction};
ghost use Rattle.pw_worked_logs.specs.logs.Units.{redo_until_suspended};
ghost use Rattle.pw_worked_logs.specs.Refused.{pending_after_takeover, raising_before_restart};
ghost use Rattle.pw_worked_logs.specs.Worked.{IsBarred, IsNoStep, IsIllegalEntry, one_terminal};

/// What is no step behind the entries of a worked log before it, where two units lock the same
/// records: an operation whose lock conflicts, a restart without a conflict, for a younger unit,
/// beyond the limit or, as a suspension, below it, and a beginning while the awaited unit is open.
pub fn refused_locks()
    ensures shared_readers_rewrite_20 { IsNoStep shared_readers 19
        (File 0 1 Rewrite Exclusive 0 0) }
    ensures restart_without_conflict_19 { IsNoStep shared_readers 18
        (Restart 1 1 (cause.Older 0 1)) }
    ensures begin_while_awaited_is_open_21 { IsNoStep shared_readers 20 (Begin 1 1 1) }
    ensures second_process_while_first_is_free_16 { IsNoStep shared_readers 15 (Take 0 2 0) }
    ensures span_lock_write_20 { IsNoStep span_lock 19 (File 0 2 Write Exclusive 0 0) }
    ensures span_lock_older_restarts_20 { IsNoStep span_lock 19 (Restart 0 1 (cause.Older 1 1)) }
    ensures with_lock_read_19 { IsNoStep with_lock_reads_exclusive 18
        (File 0 2 Read Exclusive 0 0) }
    ensures next_with_lock_read_22 { IsNoStep next_with_lock_reaches_the_found 21
        (File 0 1 Read Shared 0 0) }
    ensures read_of_a_locked_record_22 { IsNoStep locks_outlive_reply 21
        (File 0 1 Read Shared 0 0) }
    ensures restart_beyond_the_limit_19 { IsIllegalEntry (two_increment 0 AllExclusive)
        (take 18 older_unit_wins.log) (Restart 1 1 (cause.Older 0 1)) }
    ensures suspended_below_the_limit_19 { IsIllegalEntry (two_increment 1 AllExclusive)
        (take 18 older_unit_wins.log) (End 1 (Suspended (cause.Older 0 1))) }
{}

/// What is no step behind the entries of a worked log before it, where a member or a process fails
/// or a checkpoint lacks.
pub fn refused_entries()
    ensures show_of_another_number_14 { IsNoStep takeover_after_commit 13 (Show 0 0 0 1) }
    ensures entry_line_before_its_turn_15 { IsNoStep takeover_after_commit 14 (Key 0 2) }
    ensures commit_before_end_checkpoint_16 { IsNoStep takeover_after_commit 15 (Commit 0 1) }
    ensures end_while_failure_is_due_19 { IsNoStep takeover_after_commit 18 (End 0 NoEntries) }
    ensures raise_before_takeover_20 { IsNoStep takeover_after_commit 19 (Raise 0) }
    ensures begin_of_ended_unit_19 { IsNoStep takeover_answers_kept_reply 18 (Begin 0 1 0) }
    ensures raise_before_restart_17 { IsNoStep takeover_restarts_open_unit 16 (Raise 0) }
    ensures request_taken_while_down_10 { IsIllegalEntry takeover_frees_process.setting
        (take 8 takeover_frees_process.log ++ FailTcp 0 true 1 ∷ []) (Take 0 1 0) }
    ensures operation_while_down_11 { IsNoStep takeover_frees_process 10
        (File 0 1 Read Shared 0 0) }
    ensures takeover_of_a_lost_pair_15 { IsNoStep pair_lost_while_down 14 (Takeover 0) }
    ensures again_of_a_new_unit_5 { IsNoStep server_failure_restarts_unit 4 (Again 0 1) }
    ensures server_cause_without_backup_12 { IsNoStep server_cause_waits_for_backup 11
        (Restart 0 1 (cause.Server 1)) }
    ensures failure_line_0 { IsIllegalEntry (one_terminal transaction (line.Tcp 0 true 0 ∷ [])) []
        (FailTcp 0 true 0) }
    ensures failure_of_a_finished_log_1 { IsIllegalEntry (record redo_until_suspended.setting {
      programs = [];
      script = line.Tcp 0 true 0 ∷ [];
    }) [] (FailTcp 0 true 1) }
{}

/// In states to which no run comes: no unit restarts by a TAKEOVER cause in a pair that is not
/// Alone, and a takeover lets none become pending for an attempt of another unit than the one that
/// the backup holds.
pub fn states_of_no_run()
    ensures takeover_cause_while_raising { ¬ Legal (deck takeover_restarts_open_unit.setting)
        raising_before_restart (Restart 0 1 (cause.Takeover 0)) }
    ensures cause_of_another_unit { pending_after_takeover ≡ None }
{}

/// What the one-copy machine does not run behind a list of blocks: a restart at the limit, and
/// another block than Done behind an attempt that was left.
pub fn barred_blocks()
    ensures restart_at_the_limit { IsBarred redo_until_suspended.setting
        (Out 0 ∷ Attempted 0 1 Restarted 5 ∷ []) (Attempted 0 1 Restarted 5) }
    ensures out_behind_left { IsBarred takeover_after_commit.setting
        (Out 0 ∷ Attempted 0 1 Left 1 ∷ []) (Out 0) }
    ensures attempt_behind_left { IsBarred takeover_after_commit.setting
        (Out 0 ∷ Attempted 0 1 Left 0 ∷ []) (Attempted 0 1 Left 0) }
{}
