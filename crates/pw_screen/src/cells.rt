ghost use Rattle.std.specs.Prelude.{◌≡◌, ◌+◌, ◌≤◌, ◌||◌, ℕ, IfOk, false, length};
ghost use Rattle.std.specs.List.{list_any};
ghost use Rattle.pw_screen.specs.Cells.{places_from, is_place_within, is_marked};

use pw_base::memory::Memory;
use std::alloc::Global;
use std::marker::Model;

/// How many cells rows 1 to 23 have.
const CELLS: usize = 1_840;

/// A map of the cells of rows 1 to 23 of a screen, row by row: which of them its fields have. Contracts
/// see the marks.
#[derive(Drop)]
pub struct Cells {
    marks: Vec<bool>,
}

impl Model for Cells {
    ghost use Rattle.std.specs.Prelude.{◌≡◌, List, Bool, length};

    ghost Value = { List Bool };

    ghost view = { λ cells. cells.marks.items };

    ghost invariant = { λ cells. length cells.marks.items ≡ 1840 };
}

impl Cells {
    /// No cell is marked.
    pub fn new(alloc: Global) -> Result<Cells, Memory>
        ensures { IfOk result (λ cells. (place : ℕ) → is_marked cells place ≡ false) }
    {
        Ok(Cells {
            marks: Vec::from_elem(alloc, false, CELLS)?,
        })
    }

    /// Whether one of so many cells from a place on is marked.
    pub fn has_mark(&self, from: usize, count: usize) -> bool
        requires { from + count ≤ 1840 }
        ensures { result ≡ list_any (is_marked self.now) (places_from from count) }
    {
        has_mark(&self.marks, from, count)
    }

    /// Marks so many cells from a place on.
    pub fn mark(&mut self, from: usize, count: usize)
        requires { from + count ≤ 1840 }
        ensures { (place : ℕ) → is_marked self.new place
            ≡ (is_place_within from count place || is_marked self.old place) }
    {
        mark(&mut self.marks, from, count);
    }
}

/// Whether one of so many marks from a place on is set.
fn has_mark(marks: &[bool], from: usize, count: usize) -> bool
    requires { from + count ≤ length marks.now }
    ensures { result ≡ list_any (is_marked marks.now) (places_from from count) }
{
    let mut place = from;
    let mut left = count;
    while left > 0 {
        if marks[place] {
            return true;
        }
        place += 1;
        left -= 1;
    }
    false
}

/// Sets so many marks from a place on.
fn mark(marks: &mut [bool], from: usize, count: usize)
    requires { from + count ≤ length marks.old }
    ensures { (place : ℕ) → is_marked marks.new place
        ≡ (is_place_within from count place || is_marked marks.old place) }
{
    let mut done = 0;
    while done < count {
        marks[from + done] = true;
        done += 1;
    }
}
