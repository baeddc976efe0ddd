ghost use Rattle.std.specs.Prelude.{◌≡◌, ◌≤◌, length};
ghost use Rattle.std.specs.List.{list_any};
ghost use Rattle.pw_disc.specs.Lines.{acting, acts_first, is_held_at_front, is_due, is_held, begins_with_primary, is_primary, lose_pair, may_lose};

use crate::script::DiscLine;

/// Whether a line is due behind so many calls.
fn is_due(done: u64, line: DiscLine) -> bool
    ensures { result ≡ is_due done line }
{
    let (DiscLine::Primary(after) | DiscLine::Held(after) | DiscLine::Backup(after)) = line;
    u64::from(after) <= done
}

/// Whether a line acts at the end of a call.
fn is_held(line: DiscLine) -> bool
    ensures { result ≡ is_held line }
{
    matches!(line, DiscLine::Held(_))
}

/// Whether a line is one of a primary at the start of a call.
fn is_primary(line: DiscLine) -> bool
    ensures { result ≡ is_primary line }
{
    matches!(line, DiscLine::Primary(_))
}

/// Whether a line acts at the start of a call behind so many.
fn acts_first(done: u64, line: DiscLine) -> bool
    ensures { result ≡ acts_first done line }
{
    !is_held(line) && is_due(done, line)
}

/// How many lines act at the start of a call behind so many.
pub fn count_acting(done: u64, lines: &[DiscLine]) -> usize
    ensures count { result ≡ length (acting done lines.now) }
    ensures bound { result ≤ length lines.now }
{
    lines
        .iter()
        .take_while(|line| acts_first(done, **line))
        .count()
}

/// Whether one of the lines is of a primary at the start of a call.
fn any_primary(lines: &[DiscLine]) -> bool
    ensures { result ≡ list_any is_primary lines.now }
{
    lines.iter().any(|line| is_primary(*line))
}

/// Whether lines that act one after the other lose the pair: behind the first one a primary fails.
pub fn lose_pair(lines: &[DiscLine]) -> bool
    ensures { result ≡ lose_pair lines.now }
{
    match lines {
        [_first, others @ ..] => any_primary(others),
        [] => false,
    }
}

/// Whether the first line acts at the end of a call behind so many.
pub fn holds(done: u64, lines: &[DiscLine]) -> bool
    ensures { result ≡ is_held_at_front done lines.now }
{
    match lines {
        [first, ..] => is_held(*first) && is_due(done, *first),
        [] => false,
    }
}

/// Whether the first line is one of a primary at the start of a call.
fn begins_with_primary(lines: &[DiscLine]) -> bool
    ensures { result ≡ begins_with_primary lines.now }
{
    match lines {
        [first, ..] => is_primary(*first),
        [] => false,
    }
}

/// Whether one of these lines is a PRIMARY AFTER line directly behind a PRIMARY AFTER or BACKUP AFTER line.
#[tactic(auto, unfolding(crate::specs::Lines::may_lose))]
pub fn may_lose(lines: &[DiscLine]) -> bool
    ensures { result ≡ may_lose lines.now }
{
    match lines {
        [line, rest @ ..] => {
            if !is_held(*line) && begins_with_primary(rest) {
                true
            } else {
                may_lose(rest)
            }
        }
        [] => false,
    }
}
