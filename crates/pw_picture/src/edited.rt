ghost use Rattle.std.specs.Prelude.{◌≡◌, ◌≤◌, ◌∷◌, [], length, take_while};
ghost use Rattle.pw_picture.specs.Symbols.{longest};
ghost use Rattle.pw_picture.specs.Grammar.{is_either, past, is_edited_end, is_tail, is_body, digit_symbols, is_edited};
ghost use Rattle.pw_picture.specs.Runs.{spread};

use crate::number::{after, are_run_of};
use crate::run::SymbolRun;
use crate::runs::{are_none, begin_with, strip};

/// How many of the runs in front are of one of the two symbols.
fn in_front(first: u8, second: u8, runs: &[SymbolRun]) -> usize
    ensures count { result ≡ length (take_while (λ run. is_either first second run.symbol) runs.now) }
    ensures bound { result ≤ length runs.now }
{
    runs.iter()
        .take_while(|run| run.symbol == first || run.symbol == second)
        .count()
}

/// What is behind those in front that are one of the two symbols.
fn past(first: u8, second: u8, runs: &[SymbolRun]) -> &[SymbolRun]
    ensures { spread result.now ≡ past first second (spread runs.now) }
{
    let (_, behind) = runs.split_at(in_front(first, second, runs));
    behind
}

/// Whether the symbols end an edited picture: nothing, or a `-` where there is no leading one.
fn is_end(leading: bool, runs: &[SymbolRun]) -> bool
    ensures { result ≡ is_edited_end leading (spread runs.now) }
{
    match strip(b'-', runs) {
        Some(rest) => !leading && are_none(rest),
        None => are_none(runs),
    }
}

/// Whether the symbols are an optional point with decimals, and an end.
fn is_tail(leading: bool, runs: &[SymbolRun]) -> bool
    ensures { result ≡ is_tail leading (spread runs.now) }
{
    match strip(b'.', runs) {
        Some(rest) => begin_with(b'9', rest) && is_end(leading, past(b'9', b'9', rest)),
        None => is_end(leading, runs),
    }
}

/// Whether the symbols behind a leading `-` are digits in order, and a tail.
fn is_body(leading: bool, runs: &[SymbolRun]) -> bool
    ensures { result ≡ is_body leading (spread runs.now) }
{
    if leading && begin_with(b',', runs) {
        return false;
    }
    is_tail(leading, past(b'9', b',', past(b'Z', b',', runs)))
}

/// How many of the symbols of a run are digits.
fn digits_in(run: SymbolRun) -> u32
    ensures { result ≡ digit_symbols (spread (run ∷ [])) }
{
    if run.symbol == b'9' || run.symbol == b'Z' {
        run.count
    } else {
        0
    }
}

/// How many of the symbols are digits.
fn digit_symbols(runs: &[SymbolRun]) -> usize
    requires { length (spread runs.now) ≤ longest }
    ensures { result ≡ digit_symbols (spread runs.now) }
{
    let mut digits: usize = 0;
    for run in runs {
        digits += digits_in(*run) as usize;
    }
    digits
}

/// Whether the symbols are an edited picture.
pub fn is_edited(runs: &[SymbolRun]) -> bool
    requires { length (spread runs.now) ≤ longest }
    ensures { result ≡ is_edited (spread runs.now) }
{
    let digits = digit_symbols(runs);
    is_body(begin_with(b'-', runs), after(b'-', runs))
        && digits >= 1
        && digits <= 18
        && !are_run_of(b'9', runs)
}
