ghost use Rattle.std.specs.Prelude.{◌≡◌, ℕ, ◌<◌, List, false, true};
ghost use Rattle.pw_code.specs.declared.file.FileCall.{FileCall};
ghost use Rattle.pw_code.specs.declared.lock.LockMode.TheVariants.{Exclusive};
ghost use Rattle.pw_code.specs.declared.verb.Verb.TheVariants as verb;
ghost use Rattle.pw_files.specs.Records.{IsContent, IsFile, record_at};
ghost use Rattle.pw_laws.specs.locking.Seen.{AgreeOn, AgreeOnRun, AreFiles, CallCovers, HaveSameAt, files_at, verb_at};
ghost use Rattle.pw_locks.specs.Conflicts.{conflict, is_same_unit};
ghost use Rattle.pw_locks.specs.Spans.{Covers};
ghost use Rattle.pw_locks.specs.declared.lock.Lock.{Lock};
ghost use Rattle.pw_onecopy.specs.Behaviour.{Behaviour};
ghost use Rattle.pw_onecopy.specs.IsBehaviour.{IsBehaviour, is_written};
ghost use Rattle.pw_onecopy.specs.Operation.{answer_of, changes_records, records_behind, span_of};
ghost use Rattle.pw_onecopy.specs.Play.{play_after};

/// What an operation sees is what it locks: on files that have the same records at the keys that it
/// locks it answers, locks and changes the same. Where it changes the same, a key at which the
/// files had the same record is such a key behind it. It leaves every key that it does not lock,
/// and leaves a file a file.
pub fn operation_laws()
    ensures sees { (n : ℕ) (a b : List (List ℕ)) → IsFile n a → IsFile n b → (call : FileCall)
        → AgreeOn n a b call
        → (answer_of n a call.op call ≡ answer_of n b call.op call)
        × (span_of n a call.op call ≡ span_of n b call.op call)
        × (changes_records n a call ≡ changes_records n b call) }
    ensures does { (n : ℕ) (call : FileCall) (a b : List (List ℕ)) (key : List ℕ)
        → changes_records n a call ≡ changes_records n b call
        → record_at n a key ≡ record_at n b key
        → record_at n (records_behind n a call) key ≡ record_at n (records_behind n b call) key }
    ensures leaves { (n : ℕ) (call : FileCall) (records : List (List ℕ)) (key : List ℕ)
        → ¬ Covers (span_of n records call.op call) key
        → record_at n (records_behind n records call) key ≡ record_at n records key }
    ensures file { (n : ℕ) (call : FileCall) (records : List (List ℕ)) → IsFile n records
        → (is_written call.op ≡ true → IsContent n call.content)
        → IsFile n (records_behind n records call) }
{}

/// What a server's run by itself sees is what its operations lock: on files that have the same
/// records at those keys its operations are answered the same, and a key at which the files had the
/// same record is such a key behind them. It leaves every key that none of its operations locks.
pub fn play_laws()
    ensures answers { (sys : Behaviour) → IsBehaviour sys → (c : ℕ) (message : List ℕ)
        → c < sys.classes
        → (a b : ℕ → List (List ℕ)) → AreFiles sys a → AreFiles sys b → (n : ℕ)
        → AgreeOnRun sys c message a b n
        → (play_after sys c message a n).done ≡ (play_after sys c message b n).done }
    ensures stays { (sys : Behaviour) → IsBehaviour sys → (c : ℕ) (message : List ℕ)
        → c < sys.classes
        → (a b : ℕ → List (List ℕ)) → AreFiles sys a → AreFiles sys b → (n : ℕ)
        → AgreeOnRun sys c message a b n
        → (f : ℕ) (key : List ℕ) → HaveSameAt sys a b f key
        → HaveSameAt sys (files_at sys c message a n) (files_at sys c message b n) f key }
    ensures leaves { (sys : Behaviour) (c : ℕ) (message : List ℕ)
        (files : ℕ → List (List ℕ)) (f : ℕ) (key : List ℕ) (n : ℕ)
        → ((i : ℕ) → i < n → (call : FileCall) → verb_at sys c message files i ≡ verb.File call
        → call.file ≡ f
        → ¬ CallCovers sys (files_at sys c message files i) call key)
        → HaveSameAt sys (files_at sys c message files n) files f key }
{}

/// Of two locks of one file and of two units that do not conflict, one is exclusive only where they
/// cover no common key.
pub fn key_laws()
    ensures { (a b : Lock) → is_same_unit a.unit b.unit ≡ false → a.file ≡ b.file → (key : List ℕ)
        → conflict a b ≡ false → a.mode ≡ Exclusive → Covers a.span key → ¬ Covers b.span key }
{}
