ghost use Rattle.std.specs.Prelude.{◌≡◌, ◌++◌, ◌∷◌, [], ℕ, Bool, List};
ghost use Rattle.pw_code.specs.declared.system.System.{System};
ghost use Rattle.pw_event.specs.declared.event.Event.{Event};
ghost use Rattle.pw_report_text.specs.Listing.{files_part, report_of};
ghost use Rattle.pw_report_text.specs.Meaning.{files_text, printed, report_text};
ghost use Rattle.std.specs.List.{AllByRecursion};
ghost use Rattle.pw_code.specs.Valid.{HasNames};
ghost use Rattle.pw_event.specs.Line.{IsInRange, IsNamed, event_text, event_words};
ghost use Rattle.pw_report_text.specs.ReadBack.{AreLines, IsOneLine, behind_log, header_lines, last_words, lines_of, numbered_entry_lines};
ghost use Rattle.pw_onecopy.specs.declared.refresh.Refresh.{Refresh};
ghost use Rattle.pw_serial_order.specs.declared.block.Block.{Block};
ghost use Rattle.pw_onecopy.specs.Behaviour.{Behaviour};
ghost use Rattle.pw_onecopy.specs.IsBehaviour.{IsBehaviour};
ghost use Rattle.pw_paired.specs.Step.{IsRun, after};
ghost use Rattle.pw_paired.specs.Units.{committed_files};

/// What is printed of a run of a deck is its report: the screens of the log, each number counted
/// once, and the committed records are those of the one-copy machine on its serial order.
pub fn printed_is_the_report()
    ensures text { (system : System) (sys : Behaviour) → IsBehaviour sys
        → (log : List Event) → IsRun sys log
        → printed system sys log ≡ report_text system sys log }
    ensures files { (system : System) (sys : Behaviour) → IsBehaviour sys
        → (log : List Event) → IsRun sys log
        → files_part system (committed_files sys (after sys log)) ≡ files_text system sys log }
{}

/// The log can be read back from the text of a report: the lines behind its last line LOG are the
/// header, the log's lines and the last line, whatever the lines in front of it are. Each entry is
/// asked to be one line.
pub fn logs_are_read_back()
    ensures { (system : System) (order : List Block) (screens : ℕ → List Refresh)
        (records : ℕ → List (List ℕ)) (log : List Event) (finished : Bool) → AreLines system log
        → behind_log (lines_of (report_of system order screens records log finished))
        ≡ header_lines system.rule ++ (numbered_entry_lines system 1 log ++ last_words finished ∷ []) }
{}

/// The text of an entry of a system whose names are names is one line, where its numbers are those of
/// log lines.
pub fn entries_are_lines()
    ensures { (system : System) (entry : Event) → HasNames system → IsNamed system entry
        → AllByRecursion IsInRange (event_words system.rule entry)
        → IsOneLine (event_text system entry) }
{}
