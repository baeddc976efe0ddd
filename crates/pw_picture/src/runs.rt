ghost use Rattle.std.specs.Prelude.{◌≡◌, ◌==◌, ◌+◌, ◌<◌, ◌≤◌, ◌∷◌, ◌++◌, Some, None, Err, false, length, replicate, IfOk, IfSome, IfNone, OnOk};
ghost use Rattle.pw_picture.specs.Symbols.{may_repeat, begins_with, longest, with_front, symbols_behind, symbols_of};
ghost use Rattle.pw_picture.specs.Runs.{spread};

use crate::fault::PictureFault;
use crate::run::SymbolRun;
use crate::symbols::{LONGEST, count_behind};
use pw_base::bytes::Bytes;
use pw_base::list::List;
use pw_base::memory::Memory;
use std::alloc::Global;

/// The run of symbols in front of a text, and what is behind it. A run that is longer than every
/// picture is one longer than the longest.
fn next_run(text: &[u8]) -> Option<(SymbolRun, &[u8])>
    requires { 0 < length text.now }
    ensures none { IfNone result (symbols_behind 0 text.now ≡ None) }
    ensures run { IfSome result (λ found. found.0.count ≤ longest → symbols_behind 0 text.now
        ≡ with_front (replicate found.0.count found.0.symbol) (symbols_behind 0 found.1.now)) }
    ensures long { IfSome result (λ found. longest < found.0.count → symbols_of text.now ≡ None) }
    ensures shorter { IfSome result (λ found. length found.1.now < length text.now) }
{
    let (symbol, behind) = text.split_first()?;
    let symbol = *symbol;
    let (count, size) = count_behind(symbol, behind)?;
    let (_, rest) = behind.split_at(size);
    Some((SymbolRun { symbol, count }, rest))
}

/// The symbols that a text stands for. It is `Bad` exactly where a count is out of place, or the
/// symbols are too many.
pub fn runs_of(alloc: Global, text: &[u8]) -> Result<List<SymbolRun>, PictureFault>
    ensures symbols { IfOk result (λ runs. symbols_of text.now ≡ Some (spread runs)) }
    ensures bound { IfOk result (λ runs. length (spread runs) ≤ longest) }
    ensures bad { result ≡ Err PictureFault.Bad → symbols_of text.now ≡ None }
{
    let mut runs = List::new(alloc);
    let mut room = LONGEST;
    let mut rest = text;
    while !rest.is_empty() {
        let (run, behind) = next_run(rest).ok_or(PictureFault::Bad)?;
        room = room
            .checked_sub(run.count as usize)
            .ok_or(PictureFault::Bad)?;
        runs.push(run)?;
        rest = behind;
    }
    Ok(runs)
}

/// Whether the first symbol is this one.
pub fn begin_with(wanted: u8, runs: &[SymbolRun]) -> bool
    ensures { result ≡ begins_with wanted (spread runs.now) }
{
    match runs.split_first() {
        Some((first, _)) => first.symbol == wanted,
        None => false,
    }
}

/// What is behind a symbol, where it is the first. It is none that may have a count.
pub fn strip(symbol: u8, runs: &[SymbolRun]) -> Option<&[SymbolRun]>
    requires { may_repeat symbol ≡ false }
    ensures some { IfSome result (λ rest. spread runs.now ≡ symbol ∷ spread rest.now) }
    ensures none { IfNone result (begins_with symbol (spread runs.now) ≡ false) }
{
    let (first, rest) = runs.split_first()?;
    if first.symbol == symbol {
        Some(rest)
    } else {
        None
    }
}

/// Whether there are no symbols.
pub fn are_none(runs: &[SymbolRun]) -> bool
    ensures { result ≡ (length (spread runs.now) == 0) }
{
    runs.is_empty()
}

/// How many symbols there are.
pub fn length_of(runs: &[SymbolRun]) -> usize
    requires { length (spread runs.now) ≤ longest }
    ensures { result ≡ length (spread runs.now) }
{
    let mut count: usize = 0;
    for run in runs {
        count += run.count as usize;
    }
    count
}

/// Puts the symbols of a run behind the others.
fn push_run(symbols: &mut Bytes, run: SymbolRun) -> Result<(), Memory>
    ensures { OnOk result (symbols.new ≡ symbols.old ++ replicate run.count run.symbol) }
{
    for _ in 0..run.count {
        symbols.push(run.symbol)?;
    }
    Ok(())
}

/// The symbols, written out.
pub fn written_out(alloc: Global, runs: &[SymbolRun]) -> Result<Bytes, Memory>
    ensures { IfOk result (λ symbols. symbols ≡ spread runs.now) }
{
    let mut symbols = Bytes::new(alloc);
    for run in runs {
        push_run(&mut symbols, *run)?;
    }
    Ok(symbols)
}
