ghost use Rattle.std.specs.Prelude.{◌≡◌, ◌==◌, ◌<◌, ◌≤◌, ◌^◌, Bool, false, not, ◌&&◌, length, drop, take_while, IsTrue};
ghost use Rattle.pw_picture.specs.Grammar.{IsPicture, size_of, is_either, digit_symbols};
ghost use Rattle.pw_picture.specs.Stored.{is_negative};
ghost use Rattle.pw_picture.specs.Edited.{is_edited_picture, shown_decimals, digit_at, is_blank, shown, shown_from, shown_size, edited};

use crate::picture::Picture;
use crate::store::low_digits;
use pw_number::power::power_of_ten;
use pw_number::scaled::Scaled;

/// Whether a symbol is a digit.
fn is_digit(symbol: u8) -> bool
    ensures { result ≡ is_either 57 90 symbol }
{
    symbol == b'9' || symbol == b'Z'
}

/// How many of the symbols are digits.
pub fn digit_symbols(symbols: &[u8]) -> usize
    ensures { result ≡ digit_symbols symbols.now }
{
    symbols.iter().filter(|symbol| is_digit(**symbol)).count()
}

/// How many symbols are in front of the point.
fn before_point(symbols: &[u8]) -> usize
    ensures count { result ≡ length (take_while (λ symbol. not (symbol == 46)) symbols.now) }
    ensures bound { result ≤ length symbols.now }
{
    symbols
        .iter()
        .take_while(|symbol| !(**symbol == b'.'))
        .count()
}

/// How many decimals a picture shows.
pub fn places_of(symbols: &[u8]) -> usize
    ensures places { result ≡ shown_decimals symbols.now }
    ensures bound { result ≤ digit_symbols symbols.now }
{
    digit_symbols(&symbols[before_point(symbols)..])
}

/// What a symbol shows that has so many digits behind it.
fn shown(nine: bool, negative: bool, size: u64, weight: u8, symbol: u8) -> u8
    requires { weight ≤ 18 }
    ensures { result ≡ shown nine negative size weight symbol }
{
    let front = size / power_of_ten(weight) as u64;
    let digit = b'0' + (front % 10) as u8;
    match symbol {
        b'9' => digit,
        b'Z' => if front == 0 { b' ' } else { digit },
        b',' => if !nine && front == 0 { b' ' } else { b',' },
        b'-' => if negative { b'-' } else { b' ' },
        _ => symbol,
    }
}

/// Writes what the symbols show, one after the other. The digits that are left are counted down.
fn write_shown(negative: bool, size: u64, digits: u8, symbols: &[u8], into: &mut [u8])
    requires size { length into.old ≡ length symbols.now }
    requires digits { digits ≡ digit_symbols symbols.now }
    requires few { digits ≤ 18 }
    ensures { into.new ≡ shown_from false negative size symbols.now }
{
    let mut nine = false;
    let mut behind = digits;
    for at in 0..symbols.len() {
        let symbol = symbols[at];
        behind -= is_digit(symbol) as u8;
        into[at] = shown(nine, negative, size, behind, symbol);
        nine = nine || symbol == b'9';
    }
}

/// Whether a number that shows these digits is shown as negative.
fn shows_minus(value: Scaled, size: u64) -> bool
    ensures { result ≡ is_negative value && not (size == 0) }
{
    value.units() < 0 && size != 0
}

impl Picture {
    /// Writes a number as it is edited for a screen: its digits stand at the point, high digits are
    /// dropped and decimals beyond the picture's are cut. The picture is an `Edited`, and `into` is as
    /// long as it. It takes one pass over the symbols (docs/reference/LANGUAGE.md).
    pub fn edit(&self, value: Scaled, into: &mut [u8])
        requires picture { IsPicture self.now }
        requires edited { IsTrue (is_edited_picture self.now) }
        requires size { length into.old ≡ size_of self.now }
        ensures { into.new ≡ edited self.now value }
    {
        if let Picture::Edited { symbols } = self {
            let symbols = symbols.as_slice();
            let places = places_of(symbols) as u8;
            let digits = digit_symbols(symbols) as u8;
            let size = low_digits(value, places, digits);
            write_shown(shows_minus(value, size), size, digits, symbols, into);
        }
    }
}
