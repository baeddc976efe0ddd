//! Names as they may stand in a line.

ghost use Rattle.std.specs.Prelude.{◌≡◌};
ghost use Rattle.std.specs.Char.{to_ascii_uppercase};
ghost use Rattle.std.specs.List.{list_all};
ghost use Rattle.std.specs.Str.{str_to_ascii_uppercase};
ghost use Rattle.pw_code.specs.Names.{begins_with_letter, is_name_byte, may_name};

/// The most bytes that a name has.
const MAX_NAME: usize = 30;

/// Whether a byte may stand in a name: a letter in either case, a digit or a hyphen.
fn is_name_byte(byte: u8) -> bool
    ensures { result ≡ is_name_byte (to_ascii_uppercase byte) }
{
    let upper = byte.to_ascii_uppercase();
    upper.is_ascii_uppercase() || (upper.is_ascii_digit() || upper == b'-')
}

/// Whether each byte of a word may stand in a name.
fn are_name_bytes(word: &[u8]) -> bool
    ensures { result ≡ list_all (λ byte. is_name_byte (to_ascii_uppercase byte)) word.now }
{
    word.iter().all(|byte| is_name_byte(*byte))
}

/// Whether the first byte of a word is a letter, in either case.
fn begins_with_letter(word: &[u8]) -> bool
    ensures { result ≡ begins_with_letter (str_to_ascii_uppercase word.now) }
{
    match word {
        [first, ..] => first.to_ascii_uppercase().is_ascii_uppercase(),
        [] => false,
    }
}

/// Whether a word is 1 to 30 letters, digits and hyphens, of which the first is a letter, in either
/// case.
pub fn may_name(word: &[u8]) -> bool
    ensures { result ≡ may_name word.now }
{
    begins_with_letter(word) && (word.len() <= MAX_NAME && are_name_bytes(word))
}
