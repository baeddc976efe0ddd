ghost use Rattle.std.specs.Prelude.{◌≡◌, ℕ, List, IfOk, take, not};
ghost use Rattle.std.specs.Option.{option_copied};
ghost use Rattle.pw_files.specs.Files.{if_done};
ghost use Rattle.pw_files.specs.Records.{IsContent, IsFile, has_key, record_after, record_at, with_record, without_key};

use pw_base::bytes::Bytes;
use pw_base::memory::Memory;

/// A file of records. Each record is its content, and its key is the first bytes of it, as many as
/// the file's keys are long, 1 to 255. Keys are compared as bytes, and no two records have the same one.
/// docs/design/STORAGE.md has the rules.
pub trait RecordFile {
    ghost key_length: { Self → ℕ };

    ghost records: { Self → List (List ℕ) };

    /// The record with this key, None exactly where there is none. It takes no memory.
    fn find(&self, key: &[u8]) -> Option<&[u8]>
        ensures record { option_copied result
            ≡ record_at (key_length self.now) (records self.now) key.now }
        ensures file { IsFile (key_length self.now) (records self.now) };

    /// The record with the first key above this one, None exactly where no key is above it. It
    /// takes no memory.
    fn next(&self, after: &[u8]) -> Option<&[u8]>
        ensures record { option_copied result
            ≡ record_after (key_length self.now) (records self.now) after.now }
        ensures file { IsFile (key_length self.now) (records self.now) };

    /// Puts a new record in its place. It is false exactly where its key is there already. `Memory` leaves
    /// the file as it was; so below.
    fn insert(&mut self, content: Bytes) -> Result<bool, Memory>
        requires { IsContent (key_length self.old) content }
        ensures answer { let n = key_length self.old in
            IfOk result (λ is_new. is_new ≡ not (has_key n (records self.old) (take n content))) }
        ensures records { records self.new ≡ if_done result
            (with_record (key_length self.old) (records self.old) content) (records self.old) }
        ensures key_length { key_length self.new ≡ key_length self.old }
        ensures file { IsFile (key_length self.new) (records self.new) };

    /// Puts a content in place of the record with its key. It is false exactly where there is none.
    fn replace(&mut self, content: Bytes) -> Result<bool, Memory>
        requires { IsContent (key_length self.old) content }
        ensures answer { let n = key_length self.old in
            IfOk result (λ is_there. is_there ≡ has_key n (records self.old) (take n content)) }
        ensures records { records self.new ≡ if_done result
            (with_record (key_length self.old) (records self.old) content) (records self.old) }
        ensures key_length { key_length self.new ≡ key_length self.old }
        ensures file { IsFile (key_length self.new) (records self.new) };

    /// Takes the record with this key away. It is false exactly where there is none.
    fn remove(&mut self, key: &[u8]) -> Result<bool, Memory>
        ensures answer { IfOk result (λ is_there.
            is_there ≡ has_key (key_length self.old) (records self.old) key.now) }
        ensures records { records self.new ≡ if_done result
            (without_key (key_length self.old) (records self.old) key.now) (records self.old) }
        ensures key_length { key_length self.new ≡ key_length self.old }
        ensures file { IsFile (key_length self.new) (records self.new) };
}
