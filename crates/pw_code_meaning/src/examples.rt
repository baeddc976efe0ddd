ghost use Rattle.std.specs.Prelude.{◌≡◌, codes, [], ◌∷◌, Some, None};
ghost use Rattle.pw_code.specs.declared.file.FileOp.TheVariants as op;
ghost use Rattle.pw_code.specs.declared.verb.Answer.TheVariants as answer;
ghost use Rattle.pw_code.specs.declared.verb.Verb.TheVariants as verb;
ghost use Rattle.pw_terminal.specs.Screen.{blank_cells, with_message};
ghost use Rattle.pw_code_meaning.specs.Config.{Config, starting, starting_server};
ghost use Rattle.pw_code_meaning.specs.Runs.{config_after_answers};
ghost use Rattle.pw_code_meaning.specs.Samples.{alone_of, counting, turning, testing, moving, dividing, calling, calling_itself, sending, asking, serving};
ghost use Rattle.pw_code_meaning.specs.Steps.{verb_of};
ghost use Rattle.pw_code_meaning.specs.Told.{asked, row};

/// PERFORM UNTIL tests before each turn, and counts up to 3.
pub fn until_counts_to_three()
    ensures first { row (alone_of counting) [] ≡ codes "1" }
    ensures third { row (alone_of counting) (answer.Shown ∷ (answer.Shown ∷ [])) ≡ codes "3" }
    ensures stops { asked (alone_of counting) (answer.Shown ∷ (answer.Shown ∷ (answer.Shown ∷ []))) ≡ verb.Stop }
{}

/// TIMES makes no turn below 1, and ONE OF none at a position without a paragraph.
pub fn times_and_positions()
    ensures none { asked (alone_of (turning (codes "0"))) [] ≡ verb.Stop }
    ensures turns { row (alone_of (turning (codes "2"))) (answer.Shown ∷ []) ≡ codes "2" }
    ensures position { row (alone_of (turning (codes "2"))) (answer.Shown ∷ (answer.Shown ∷ [])) ≡ codes "L" }
    ensures stops { asked (alone_of (turning (codes "2"))) (answer.Shown ∷ (answer.Shown ∷ (answer.Shown ∷ []))) ≡ verb.Stop }
{}

/// All operands of a condition are read, so a subscript of 0 is a fault also behind a comparison that does not hold.
pub fn conditions_read_all()
    ensures holds { asked (alone_of (testing (codes "1000"))) [] ≡ verb.Show }
    ensures fails { asked (alone_of (testing (codes "1100"))) [] ≡ verb.Stop }
    ensures outside { asked (alone_of (testing (codes "0000"))) [] ≡ verb.Fault 203 }
{}

/// The subscripts of a MOVE are taken once, and a size error stores nothing.
pub fn moves_and_size_errors()
    ensures element { (config_after_answers (alone_of moving) (starting (alone_of moving) 0) []).top.storage ≡ codes "2200" }
    ensures branch { row (alone_of dividing) [] ≡ codes "L" }
    ensures kept { row (alone_of dividing) (answer.Shown ∷ []) ≡ codes "5" }
{}

/// Arguments are copied back to the places from before the call, and the ninth CALL is one too many.
pub fn calls_copy_back()
    ensures back { row calling [] ≡ codes "2" }
    ensures element { (config_after_answers calling (starting calling 0) []).top.storage ≡ codes "2700" }
    ensures deep { asked calling_itself [] ≡ verb.Fault 202 }
{}

/// A SEND in a transaction: its reply by its code, a reply without a code, and a server's run fault.
pub fn replies_by_their_codes()
    ensures sends { asked (alone_of sending) (answer.Begun 2 ∷ []) ≡ verb.Send 0 (codes "M") }
    ensures yields { (config_after_answers (alone_of sending) (starting (alone_of sending) 0) (answer.Begun 2 ∷ (answer.Replied (codes "0005AB") ∷ []))).top.storage ≡ codes "M0005AB" }
    ensures ends { asked (alone_of sending) (answer.Begun 2 ∷ (answer.Replied (codes "0005AB") ∷ [])) ≡ verb.End }
    ensures no_code { asked (alone_of sending) (answer.Begun 2 ∷ (answer.Replied (codes "0006AB") ∷ [])) ≡ verb.Fault 204 }
    ensures fault { asked (alone_of sending) (answer.Begun 2 ∷ (answer.Failed 203 ∷ [])) ≡ verb.Fault 203 }
    ensures stops { asked (alone_of sending) (answer.Begun 2 ∷ (answer.Replied (codes "0005AB") ∷ (answer.Ended ∷ []))) ≡ verb.Stop }
{}

/// A wrong key is told, and the same entry is awaited again; a right entry is moved.
pub fn entries_are_checked()
    ensures awaits { asked asking [] ≡ verb.Accept 0 }
    ensures advice { row asking (answer.Entry (record { key = 3; fields = [] }) ∷ []) ≡ codes "I" }
    ensures shows { asked asking (answer.Entry (record { key = 3; fields = [] }) ∷ []) ≡ verb.Show }
    ensures again { asked asking (answer.Entry (record { key = 3; fields = [] }) ∷ (answer.Shown ∷ [])) ≡ verb.Accept 0 }
    ensures moved { (config_after_answers asking (starting asking 0) (answer.Entry (record { key = 2; fields = (codes "F-N", codes "7") ∷ [] }) ∷ [])).top.storage ≡ codes "07" }
{}

/// A server reads its message and a record, and replies.
pub fn a_server_reads_and_replies()
    ensures reads { verb_of serving (config_after_answers serving (starting_server serving 0 (codes "A1")) []) ≡ verb.File (record { file = 0; op = op.Read; key = codes "A1"; content = [] }) }
    ensures replies { verb_of serving (config_after_answers serving (starting_server serving 0 (codes "A1")) (answer.FileDone 0 (Some (codes "A10005")) ∷ [])) ≡ verb.Reply (codes "A1A10005") }
    ensures missing { verb_of serving (config_after_answers serving (starting_server serving 0 (codes "A1")) (answer.FileDone 11 None ∷ [])) ≡ verb.Reply (codes "A1......") }
{}
