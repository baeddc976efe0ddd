ghost use Rattle.std.specs.Prelude.{◌≡◌, true, false};
ghost use Rattle.pw_records.specs.Records.{AreAlike};

use pw_code::file::FileInfo;
use pw_code::same::Same;

/// Whether files have the same names and keys.
pub fn are_alike(files: &[FileInfo], others: &[FileInfo]) -> bool
    ensures yes { result ≡ true → AreAlike files.now others.now }
    ensures no { result ≡ false → AreAlike files.now others.now → ⊥ }
{
    if files.len() != others.len() {
        return false;
    }
    for place in 0..files.len() {
        if !is_alike(&files[place], &others[place]) {
            return false;
        }
    }
    true
}

/// Whether a file has the name and the keys of another.
fn is_alike(file: &FileInfo, other: &FileInfo) -> bool
    ensures yes { result ≡ true → (file.now.name ≡ other.now.name) × (file.now.key ≡ other.now.key) }
    ensures no { result ≡ false → file.now.name ≡ other.now.name → file.now.key ≡ other.now.key → ⊥ }
{
    file.key == other.key && file.name.is_same(&other.name)
}
