//! Words and numbers, straight behind a text. An `Err` of any call may leave a part of what it prints there.

ghost use Rattle.std.specs.Prelude.{◌≡◌, ◌+◌, ◌/◌, ◌%◌, ◌++◌, ◌∷◌, [], OnOk};
ghost use Rattle.std.specs.Fmt.{decimal};
ghost use Rattle.pw_event.specs.Line.{refresh_number};

use pw_base::bytes::Bytes;
use pw_base::memory::Memory;

/// Puts a word and the space after it behind the text.
pub fn print_word(text: &mut Bytes, word: &[u8]) -> Result<(), Memory>
    ensures { OnOk result (text.new ≡ text.old ++ (word.now ++ 32 ∷ [])) }
{
    text.extend(word)?;
    text.push(b' ')
}

/// Puts the digits of a number behind the text.
pub fn print_digits(text: &mut Bytes, number: u64) -> Result<(), Memory>
    ensures { OnOk result (text.new ≡ text.old ++ decimal number) }
{
    if number < 10 {
        return text.push(last_digit(number));
    }
    if number < 100 {
        return text.extend(&last_two(number));
    }
    if number < 10_000 {
        print_digits(text, number / 100)?;
        return text.extend(&last_two(number));
    }
    print_digits(text, number / 10_000)?;
    text.extend(&last_four(number))
}

/// The last digit of a number.
fn last_digit(number: u64) -> u8
    ensures { result ≡ 48 + number % 10 }
{
    b'0' + (number % 10) as u8
}

/// The last two digits of a number, with a zero in front where it is less than ten.
fn last_two(number: u64) -> [u8; 2]
    ensures { result ≡ (48 + number / 10 % 10) ∷ (48 + number % 10) ∷ [] }
{
    [last_digit(number / 10), last_digit(number)]
}

/// The last four digits of a number, with zeros in front where it is less than a thousand.
fn last_four(number: u64) -> [u8; 4]
    ensures { result
        ≡ (48 + number / 1000 % 10) ∷ (48 + number / 100 % 10) ∷ (48 + number / 10 % 10) ∷ (48 + number % 10) ∷ [] }
{
    [
        last_digit(number / 1000),
        last_digit(number / 100),
        last_digit(number / 10),
        last_digit(number),
    ]
}

/// Puts a number and the space after it behind the text.
pub fn print_number(text: &mut Bytes, number: u64) -> Result<(), Memory>
    ensures { OnOk result (text.new ≡ text.old ++ (decimal number ++ 32 ∷ [])) }
{
    print_digits(text, number)?;
    text.push(b' ')
}

/// Puts a refresh number, `phase.attempt.k`, behind the text.
pub fn print_refresh_number(
    text: &mut Bytes,
    phase: u32,
    attempt: u32,
    k: u32,
) -> Result<(), Memory>
    ensures { OnOk result (text.new ≡ text.old ++ refresh_number phase attempt k) }
{
    print_digits(text, phase.into())?;
    text.push(b'.')?;
    print_digits(text, attempt.into())?;
    text.push(b'.')?;
    print_digits(text, k.into())
}
