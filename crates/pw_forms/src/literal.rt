ghost use Rattle.std.specs.Prelude.{◌≡◌, ◌≤◌};
ghost use Rattle.std.specs.List.{list_all};
ghost use Rattle.std.specs.Char.{is_ascii_digit};
ghost use Rattle.pw_forms.specs.Operands.{value_of, is_code};

/// The largest number of a code.
const MAX_CODE: u16 = 9_999;

/// The value of digits, where a value above 9,999 counts as 10,000.
pub fn value_of(digits: &[u8]) -> u16
    ensures value { result ≡ value_of digits.now }
    ensures bound { result ≤ 10000 }
{
    let mut value: u32 = 0;
    for digit in digits {
        value = (10 * value + digit.saturating_sub(b'0') as u32).min(MAX_CODE as u32 + 1);
    }
    value as u16
}

/// Whether all bytes are digits.
fn are_digits(bytes: &[u8]) -> bool
    ensures { result ≡ list_all is_ascii_digit bytes.now }
{
    bytes.iter().all(|byte| byte.is_ascii_digit())
}

/// Whether bytes are digits without a sign or a point, of a value of at most 9,999.
pub fn is_code(bytes: &[u8]) -> bool
    ensures { result ≡ is_code bytes.now }
{
    are_digits(bytes) && value_of(bytes) <= MAX_CODE
}
