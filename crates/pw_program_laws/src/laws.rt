ghost use Rattle.std.specs.Prelude.{◌≡◌, ℕ, ◌+◌, List, take};
ghost use Rattle.pw_files.specs.Records.{IsFile, record_at, with_record, without_key};
ghost use Rattle.pw_onecopy.specs.Behaviour.{Reply};
ghost use Rattle.pw_program_laws.specs.Known.{RecordsByFile};
ghost use Rattle.pw_program_laws.specs.Meets.{ServerMeets};
ghost use Rattle.pw_program_laws.specs.Texts.{HaveSizes, texts_in};
ghost use Rattle.pw_program_laws.specs.Totals.{counted_of, total_of};
ghost use Rattle.pw_tree_meaning.specs.Program.{DeckModel, program_at};
ghost use Rattle.pw_tree_meaning.specs.Runs.{served_alone};
ghost use Rattle.pw_tree_meaning.specs.Store.{initial_store};

/// A fact about what a server does, run by itself: of the message, the files, the reply, and the files that it leaves. Its author
/// implements this for a type of theirs, which serves for nothing else.
pub trait ReplyFact {
    ghost holds: { List ℕ → RecordsByFile → List ℕ → RecordsByFile → Type 0 };
}

/// Where a server's statements meet what they have to, from the start of its run by itself, the fact holds of each reply.
/// `sizes` are those of its elementary items.
pub fn servers_reply_as_their_statements_meet<F: ReplyFact>()
    ensures { (deck : DeckModel) (q : ℕ) (sizes message : List ℕ) (files : RecordsByFile)
        → HaveSizes sizes (texts_in (initial_store (program_at deck.servers q)))
        → ServerMeets deck (program_at deck.servers q) sizes message (F.holds message files) files
        → (reply : List ℕ) (left : RecordsByFile) → served_alone deck q message files ≡ Reply reply left
        → F.holds message files reply left }
{}

/// A change of one record changes a sum over the file by that record alone: what is counted of the new one comes in place of what
/// was counted of the one with its key, if any.
pub fn sums_follow_changes()
    ensures put { (count : List ℕ → ℕ) (n : ℕ) (records : List (List ℕ)) (content : List ℕ) → IsFile n records
        → total_of count (with_record n records content) + counted_of count (record_at n records (take n content))
        ≡ total_of count records + count content }
    ensures gone { (count : List ℕ → ℕ) (n : ℕ) (records : List (List ℕ)) (key : List ℕ) → IsFile n records
        → total_of count (without_key n records key) + counted_of count (record_at n records key)
        ≡ total_of count records }
{}
