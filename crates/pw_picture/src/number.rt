ghost use Rattle.std.specs.Prelude.{◌≡◌, ◌==◌, ◌+◌, ◌^◌, ◌<◌, ◌≤◌, false, length, take_while, IfSome};
ghost use Rattle.std.specs.List.{list_all};
ghost use Rattle.pw_picture.specs.Symbols.{may_repeat, longest};
ghost use Rattle.pw_picture.specs.Grammar.{is_run_of, after_symbol, decimals, number_with, number_picture_of};
ghost use Rattle.pw_picture.specs.Runs.{spread};

use crate::picture::Picture;
use crate::run::SymbolRun;
use crate::runs::{are_none, begin_with, length_of, strip};

/// The most digits of a number.
const MAX_DIGITS: usize = 18;

/// Whether all symbols are this one.
fn are_all(symbol: u8, runs: &[SymbolRun]) -> bool
    ensures { result ≡ list_all (λ run. run.symbol == symbol) runs.now }
{
    runs.iter().all(|run| run.symbol == symbol)
}

/// Whether there are one or more symbols, and all are this one.
pub fn are_run_of(symbol: u8, runs: &[SymbolRun]) -> bool
    ensures { result ≡ is_run_of symbol (spread runs.now) }
{
    !are_none(runs) && are_all(symbol, runs)
}

/// What is behind a symbol in front, where it is there. The symbol may not have a count.
pub fn after(symbol: u8, runs: &[SymbolRun]) -> &[SymbolRun]
    requires { may_repeat symbol ≡ false }
    ensures { spread result.now ≡ after_symbol symbol (spread runs.now) }
{
    strip(symbol, runs).unwrap_or(runs)
}

/// How many runs of nines are in front.
fn nines_in_front(runs: &[SymbolRun]) -> usize
    ensures nines { result ≡ length (take_while (λ run. run.symbol == 57) runs.now) }
    ensures bound { result ≤ length runs.now }
{
    runs.iter().take_while(|run| run.symbol == b'9').count()
}

/// The decimals behind a number's nines.
fn decimals(runs: &[SymbolRun]) -> Option<usize>
    requires { length (spread runs.now) ≤ longest }
    ensures decimals { result ≡ decimals (spread runs.now) }
    ensures few { IfSome result (λ places. places ≤ longest) }
{
    match strip(b'V', runs) {
        Some(rest) if are_run_of(b'9', rest) => Some(length_of(rest)),
        None if are_none(runs) => Some(0),
        _ => None,
    }
}

/// The number of so many digits before and behind the V.
fn number_with(signed: bool, whole: usize, places: usize) -> Option<Picture>
    requires { whole + places < 2 ^ 64 }
    ensures { result ≡ number_with signed whole places }
{
    let digits = whole + places;
    if digits >= 1 && digits <= MAX_DIGITS {
        Some(Picture::Number {
            digits: digits as u8,
            places: places as u8,
            signed,
        })
    } else {
        None
    }
}

/// The number that the symbols are.
pub fn number_of(runs: &[SymbolRun]) -> Option<Picture>
    requires { length (spread runs.now) ≤ longest }
    ensures { result ≡ number_picture_of (spread runs.now) }
{
    let body = after(b'S', runs);
    let (whole, behind) = body.split_at(nines_in_front(body));
    let places = decimals(behind)?;
    number_with(begin_with(b'S', runs), length_of(whole), places)
}
