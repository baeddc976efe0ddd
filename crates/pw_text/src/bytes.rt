ghost use Rattle.std.specs.Prelude.{◌≡◌, ◌==◌, ◌||◌, ◌&&◌, ◌<◌, ◌≤◌, ◌+◌, ◌^◌, ℕ, [], None, true, nat_le, length, take_while};
ghost use Rattle.pw_base.specs.First.{least};
ghost use Rattle.pw_text.specs.Bytes.{is_letter, is_digit, is_sign, is_signed, is_word_byte, is_separator, is_picture_byte, is_line_byte, run, begins_with, is_bad, line_behind, bad_bytes};

use pw_base::fault::{Fault, noted};
use pw_base::fault_code::FaultCode;

/// Whether a byte is a letter, in either case.
pub fn is_letter(byte: u8) -> bool
    ensures { result ≡ is_letter byte }
{
    (byte >= b'A' && byte <= b'Z') || (byte >= b'a' && byte <= b'z')
}

/// Whether a byte is a decimal digit.
pub fn is_digit(byte: u8) -> bool
    ensures { result ≡ is_digit byte }
{
    byte >= b'0' && byte <= b'9'
}

/// Whether a byte is `+` or `-`.
fn is_sign(byte: u8) -> bool
    ensures { result ≡ is_sign byte }
{
    byte == b'+' || byte == b'-'
}

/// Whether a byte separates two tokens.
pub fn is_separator(byte: u8) -> bool
    ensures { result ≡ is_separator byte }
{
    byte == b' ' || (byte == b',' || (byte == b';' || byte == b'|'))
}

/// Whether a byte may stand in a word: a letter, a digit or a hyphen.
fn is_word_byte(byte: u8) -> bool
    ensures { result ≡ is_word_byte byte }
{
    is_letter(byte) || (is_digit(byte) || byte == b'-')
}

/// Whether a byte may stand in a picture: any but a space and the end of a line.
fn is_picture_byte(byte: u8) -> bool
    ensures { result ≡ is_picture_byte byte }
{
    !(byte == b' ' || (byte == b'\r' || byte == b'\n'))
}

/// How many letters, digits and hyphens stand in front.
fn word_size(bytes: &[u8]) -> usize
    ensures value { result ≡ run is_word_byte bytes.now }
    ensures bound { result ≤ length bytes.now }
{
    bytes.iter().take_while(|byte| is_word_byte(**byte)).count()
}

/// How many bytes stand in front of the next space or of the end of the line.
fn picture_size(bytes: &[u8]) -> usize
    ensures value { result ≡ run is_picture_byte bytes.now }
    ensures bound { result ≤ length bytes.now }
{
    bytes
        .iter()
        .take_while(|byte| is_picture_byte(**byte))
        .count()
}

/// How many spaces stand in front.
pub fn space_count(bytes: &[u8]) -> usize
    ensures value { result ≡ run (λ byte. byte == 32) bytes.now }
    ensures bound { result ≤ length bytes.now }
{
    bytes.iter().take_while(|byte| **byte == b' ').count()
}

/// The letters, digits and hyphens in front.
pub fn word_at(bytes: &[u8]) -> &[u8]
    ensures { result.now ≡ take_while is_word_byte bytes.now }
{
    bytes.split_at(word_size(bytes)).0
}

/// The bytes in front of the next space or of the end of the line.
pub fn picture_at(bytes: &[u8]) -> &[u8]
    ensures { result.now ≡ take_while is_picture_byte bytes.now }
{
    bytes.split_at(picture_size(bytes)).0
}

/// How many digits stand in front.
pub fn digit_count(bytes: &[u8]) -> usize
    ensures value { result ≡ run is_digit bytes.now }
    ensures bound { result ≤ length bytes.now }
{
    bytes.iter().take_while(|byte| is_digit(**byte)).count()
}

/// How many bytes are left of the line.
pub fn line_size(bytes: &[u8]) -> usize
    ensures value { result ≡ run is_line_byte bytes.now }
    ensures bound { result ≤ length bytes.now }
{
    bytes.iter().take_while(|byte| **byte != b'\n').count()
}

/// Whether a byte is the sign of the number behind it.
pub fn is_signed(byte: u8, behind: &[u8]) -> bool
    ensures { result ≡ is_signed byte behind.now }
{
    is_sign(byte) && begins_with_digit(behind)
}

/// Whether a digit stands in front.
fn begins_with_digit(bytes: &[u8]) -> bool
    ensures { result ≡ begins_with is_digit bytes.now }
{
    match bytes {
        [byte, ..] => is_digit(*byte),
        [] => false,
    }
}

/// Whether the byte in front is outside 0x20 to 0x7E and no part of the end of a line.
fn is_bad(bytes: &[u8]) -> bool
    ensures { result ≡ is_bad bytes.now }
{
    match bytes {
        [b'\n', ..] | [b'\r', b'\n', ..] | [] => false,
        [byte, ..] => *byte < b' ' || *byte > b'~',
    }
}

/// The line of the byte behind this one.
fn line_behind(byte: u8, line: u32) -> u32
    requires { line + 1 < 2 ^ 32 }
    ensures value { result ≡ line_behind byte line }
    ensures bound { result ≤ line + 1 }
{
    if byte == b'\n' { line + 1 } else { line }
}

/// Whether a byte may stand anywhere in a line, or ends one: 0x20 to 0x7E, and LF.
fn is_plain(byte: u8) -> bool
    ensures { result ≡ (byte == 10 || (nat_le 32 byte && nat_le byte 126)) }
{
    byte == b'\n' || (byte >= b' ' && byte <= b'~')
}

/// Whether each byte may stand anywhere in a line, or ends one. Then none is bad.
fn are_plain(text: &[u8]) -> bool
    ensures { result ≡ true → (line : ℕ) → bad_bytes line text.now ≡ [] }
{
    let mut plain = true;
    let mut rest = text;
    while let Some((byte, behind)) = rest.split_first() {
        plain = plain & is_plain(*byte);
        rest = behind;
    }
    plain
}

/// The first fault of the bytes that may not stand in their lines.
pub fn first_bad_byte(text: &[u8], first_line: u32) -> Option<Fault>
    requires { first_line + length text.now < 2 ^ 32 }
    ensures { result ≡ least None (bad_bytes first_line text.now) }
{
    if are_plain(text) {
        return None;
    }
    let mut known = None;
    let mut line = first_line;
    let mut rest = text;
    while let Some((byte, behind)) = rest.split_first() {
        let bad_character = Fault {
            line,
            code: FaultCode::BadCharacter,
        };
        known = noted(known, is_bad(rest), bad_character);
        line = line_behind(*byte, line);
        rest = behind;
    }
    known
}
