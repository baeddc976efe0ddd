ghost use Rattle.std.specs.Prelude.{◌≡◌, ◌+◌, ◌<◌, ◌≤◌, ◌^◌, Some, length, IfSome};
ghost use Rattle.std.specs.Char.{is_ascii_digit};
ghost use Rattle.std.specs.List.{list_all};
ghost use Rattle.pw_code.specs.Fields.{is_text};
ghost use Rattle.pw_terminal.specs.Entries.{behind_sign, decimals_in, digits_in, has_room, is_number_for, is_value_for};

use pw_code::field::FieldKind;
use pw_picture::picture::Picture;
use pw_picture::symbols::{begins_with, digits_in_front};

/// What is behind a sign in front, where there is one.
fn behind_sign(value: &[u8]) -> &[u8]
    ensures { result.now ≡ behind_sign value.now }
{
    match value {
        [b'+' | b'-', rest @ ..] => rest,
        _ => value,
    }
}

/// Whether all characters are digits.
fn are_digits(text: &[u8]) -> bool
    ensures { result ≡ list_all is_ascii_digit text.now }
{
    text.iter().all(|byte| byte.is_ascii_digit())
}

/// How many decimals a number has behind its whole digits.
fn decimals_in(behind: &[u8]) -> Option<usize>
    ensures decimals { result ≡ decimals_in behind.now }
    ensures bound { IfSome result (λ decimals. decimals ≤ length behind.now) }
{
    match behind {
        [] => Some(0),
        [b'.', digits @ ..] if are_digits(digits) => Some(digits.len()),
        _ => None,
    }
}

/// How many digits a number has before and behind its point.
fn digits_in(value: &[u8]) -> Option<(usize, usize)>
    ensures digits { result ≡ digits_in value.now }
    ensures bound { IfSome result (λ digits. digits.0 + digits.1 < 2 ^ 64) }
{
    let body = behind_sign(value);
    let (whole, behind) = body.split_at(digits_in_front(body));
    let decimals = decimals_in(behind)?;
    Some((whole.len(), decimals))
}

/// Whether so many digits are some, and no more than the picture has before and behind its point.
fn has_room(picture: &Picture, whole: usize, decimals: usize) -> bool
    requires { whole + decimals < 2 ^ 64 }
    ensures { result ≡ has_room picture.now (Some (whole, decimals)) }
{
    whole + decimals >= 1 && whole <= picture.whole_digits() && decimals <= picture.decimals()
}

/// Whether a value is a number for a field of this picture.
fn is_number_for(picture: &Picture, value: &[u8]) -> bool
    ensures { result ≡ is_number_for picture.now value.now }
{
    let Some((whole, decimals)) = digits_in(value) else {
        return false;
    };
    has_room(picture, whole, decimals) && (picture.has_sign() || !begins_with(b'-', value))
}

/// Whether a picture is a Text.
fn is_text(picture: &Picture) -> bool
    ensures { result ≡ is_text picture.now }
{
    matches!(picture, Picture::Text { .. })
}

/// Whether a field that shows this may be given a value.
pub fn is_value_for(shown: &FieldKind, value: &[u8]) -> bool
    ensures { result ≡ is_value_for shown.now value.now }
{
    match shown {
        FieldKind::Literal(_) => false,
        FieldKind::Item { picture, .. } => {
            value.len() <= picture.length()
                && (is_text(picture) || value.is_empty() || is_number_for(picture, value))
        }
    }
}
