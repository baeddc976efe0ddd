ghost use Rattle.std.specs.Prelude.{◌≡◌, ◌==◌, ◌<◌, ◌≤◌, List, ℕ, Some, IfSome, IsTrue, find, length, map, slice_get};
ghost use Rattle.std.specs.Char.{to_ascii_lowercase};
ghost use Rattle.std.specs.Str.{str_to_ascii_lowercase};
ghost use Rattle.pw_words.specs.Words.{all_apart, word_place, same_word};
ghost use Rattle.pw_words.specs.Index.{letter_number, first_letter, word_index_places, is_row, finds_all};

use std::marker::Model;

/// N texts, no two of them the same word. A word may stand in either case: where words are compared,
/// the case of a letter does not count.
#[derive(Drop)]
pub struct Table<const N: usize> {
    pub(crate) rows: &'static [&'static [u8]],
    /// The places of the rows that begin with no letter, with A, with B, and so on.
    pub(crate) index: &'static [&'static [u8]],
}

impl<const N: usize> Model for Table<N> {
    ghost Value = { List (List ℕ) };

    ghost view = { λ table. map (λ row. row.now) table.rows.now };

    ghost invariant = { λ table. (length table.rows.now ≡ N)
        × IsTrue (all_apart (map (λ row. row.now) table.rows.now))
        × IsTrue (finds_all (map (λ places. places.now) table.index.now) (map (λ row. row.now) table.rows.now)) };
}

impl<const N: usize> Table<N> {
    /// The place of a word in either case, from 0 to N - 1; `None` exactly where it is not there. It
    /// looks at the few rows that begin with its letter.
    pub fn find(&self, word: &[u8]) -> Option<usize>
        ensures place { result ≡ word_place self.now word.now }
        ensures bound { IfSome result (λ place. place < N) }
    {
        place_among(self.rows, places_of(self.index, word), word)
    }

    /// The text at a place.
    pub fn row(&self, place: usize) -> &'static [u8]
        requires { place < N }
        ensures { slice_get self.now place ≡ Some result.now }
    {
        let rows = self.rows;
        rows[place]
    }
}

/// The number of a letter in lower case, from 1 on, and 0 for every other byte.
fn letter_number(byte: u8) -> usize
    ensures { result ≡ letter_number byte }
{
    if byte.is_ascii_lowercase() {
        (byte - 96) as usize
    } else {
        0
    }
}

/// The number of the letter with which a word begins, in either case.
fn first_letter(word: &[u8]) -> usize
    ensures { result ≡ first_letter (str_to_ascii_lowercase word.now) }
{
    match word {
        [first, ..] => letter_number(first.to_ascii_lowercase()),
        [] => 0,
    }
}

/// The places that an index has for a word.
fn places_of<'a>(index: &[&'a [u8]], word: &[u8]) -> &'a [u8]
    ensures { result.now ≡ word_index_places (map (λ places. places.now) index.now) (str_to_ascii_lowercase word.now) }
{
    match index.get(first_letter(word)) {
        Some(places) => *places,
        None => &[],
    }
}

/// Whether a word stands at a place.
fn stands_at(rows: &[&[u8]], place: u8, word: &[u8]) -> bool
    ensures { result ≡ is_row (slice_get (map (λ row. row.now) rows.now) place) (str_to_ascii_lowercase word.now) }
{
    match rows.get(place as usize) {
        Some(row) => is_same_word(*row, word),
        None => false,
    }
}

/// The first of some places at which a word stands.
fn place_among(rows: &[&[u8]], places: &[u8], word: &[u8]) -> Option<usize>
    ensures { result ≡ find (λ place. is_row (slice_get (map (λ row. row.now) rows.now) place)
        (str_to_ascii_lowercase word.now)) places.now }
{
    let mut rest = places;
    while let Some((place, behind)) = rest.split_first() {
        if stands_at(rows, *place, word) {
            return Some(*place as usize);
        }
        rest = behind;
    }
    None
}

/// Whether two bytes are the same, where the case of a letter does not count.
fn is_same_letter(a: u8, b: u8) -> bool
    ensures { result ≡ (to_ascii_lowercase a == to_ascii_lowercase b) }
{
    a == b || a.to_ascii_lowercase() == b.to_ascii_lowercase()
}

/// Whether the two are one word, in either case.
pub fn is_same_word(a: &[u8], b: &[u8]) -> bool
    ensures { result ≡ same_word a.now b.now }
{
    if a.len() != b.len() {
        return false;
    }
    for i in 0..a.len() {
        if !is_same_letter(a[i], b[i]) {
            return false;
        }
    }
    true
}
