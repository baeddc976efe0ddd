ghost use Rattle.std.specs.Prelude.{◌≡◌, ◌≢◌, ℕ, List, [], Some, None, All, Contains, take, true, false};
ghost use Rattle.std.specs.Ordering.{is_eq, is_gt, is_lt};
ghost use Rattle.pw_files.specs.Records.{IsContent, IsFile, IsKeyLength, compared, key_cmp, record_after, record_at, with_record, without_key};

/// What it is that a file finds a record, and what changes of the records do to that: a record that
/// was put is found, one that was taken away is not, and nothing else changes.
pub fn lookup_laws()
    ensures found { (n : ℕ) (records : List (List ℕ)) (key content : List ℕ)
        → record_at n records key ≡ Some content
        → Contains records content × (take n content ≡ key) }
    ensures missing { (n : ℕ) (records : List (List ℕ)) (key : List ℕ)
        → record_at n records key ≡ None
        → All (λ content. is_eq (compared n key content) ≡ false) records }
    ensures put { (n : ℕ) (records : List (List ℕ)) (content : List ℕ)
        → record_at n (with_record n records content) (take n content) ≡ Some content }
    ensures put_beside { (n : ℕ) (records : List (List ℕ)) (content other : List ℕ)
        → other ≢ take n content
        → record_at n (with_record n records content) other ≡ record_at n records other }
    ensures gone { (n : ℕ) (records : List (List ℕ)) (key : List ℕ)
        → record_at n (without_key n records key) key ≡ None }
    ensures gone_beside { (n : ℕ) (records : List (List ℕ)) (key other : List ℕ)
        → other ≢ key
        → record_at n (without_key n records key) other ≡ record_at n records other }
{}

/// What the record after a key is: it is above the key, and no other record above the key is below
/// it; where there is none, no record is above the key.
pub fn next_laws()
    ensures found { (n : ℕ) (key : List ℕ) (records : List (List ℕ)) (content : List ℕ)
        → record_after n records key ≡ Some content
        → Contains records content × (is_gt (compared n key content) ≡ true) }
    ensures nearest { (n : ℕ) (key : List ℕ) (records : List (List ℕ)) (content : List ℕ)
        → IsFile n records
        → record_after n records key ≡ Some content
        → All (λ other. is_gt (compared n key other) ≡ true
        → is_lt (key_cmp (take n other) (take n content)) ≡ false) records }
    ensures missing { (n : ℕ) (key : List ℕ) (records : List (List ℕ))
        → record_after n records key ≡ None
        → All (λ content. is_gt (compared n key content) ≡ false) records }
{}

/// A record that is put into a file, or taken out of it, leaves it a file.
pub fn file_laws()
    ensures empty { (n : ℕ) → IsKeyLength n → IsFile n [] }
    ensures put { (n : ℕ) (records : List (List ℕ)) → IsFile n records
        → (content : List ℕ) → IsContent n content → IsFile n (with_record n records content) }
    ensures gone { (n : ℕ) (records : List (List ℕ)) → IsFile n records
        → (key : List ℕ) → IsFile n (without_key n records key) }
{}
