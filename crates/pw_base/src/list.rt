ghost use Rattle.std.specs.Prelude.{◌≡◌, ◌↔◌, ◌++◌, ◌∷◌, [], length, slice_get, IsTrue, OnOk, OnErr};
ghost use Rattle.std.specs.Option.{option_copied};

use crate::memory::Memory;
use std::alloc::Global;
use std::marker::Model;

/// A list of values. Contracts see the values in order, also where the list stands in a type that
/// holds itself.
#[derive(Debug, Drop)]
pub struct List<T> {
    items: Vec<T>,
}

impl<T> Model for List<T> {
    ghost use Rattle.std.specs.Prelude.{List as ListOf};
    ghost use Rattle.std.specs.Coded.{coded_list};

    ghost Value = { ListOf T };

    ghost coded = { coded_list T.code };

    ghost view = { λ list. list.items.items };
}

impl<T> List<T> {
    /// The empty list. It takes no memory.
    pub fn new(alloc: Global) -> List<T>
        ensures { result ≡ [] }
    {
        List {
            items: Vec::new(alloc),
        }
    }

    /// The list of a `Vec`. It takes no memory.
    pub fn from_vec(items: Vec<T>) -> List<T>
        ensures { result ≡ items.items }
    {
        List { items }
    }

    /// The `Vec` of the list. It takes no memory.
    pub fn into_vec(self) -> Vec<T>
        ensures { result.items ≡ self }
    {
        let List { items } = self;
        items
    }

    /// The items in order. It takes no memory.
    pub fn as_slice(&self) -> &[T]
        ensures { result.now ≡ self.now }
    {
        self.items.as_slice()
    }

    /// How many items there are.
    pub fn len(&self) -> usize
        ensures { result ≡ length self.now }
    {
        self.items.len()
    }

    /// Whether there are no items.
    pub fn is_empty(&self) -> bool
        ensures { IsTrue result ↔ (self.now ≡ []) }
    {
        self.items.is_empty()
    }

    /// The item at a place from 0, None exactly past the end.
    pub fn get(&self, place: usize) -> Option<&T>
        ensures { option_copied result ≡ slice_get self.now place }
    {
        self.items.get(place)
    }
}

impl<T: Drop> List<T> {
    /// Puts an item behind the others. An `Err` leaves the list as it was.
    pub fn push(&mut self, item: T) -> Result<(), Memory>
        ensures ok { OnOk result (self.new ≡ self.old ++ item ∷ []) }
        ensures err { OnErr result (self.new ≡ self.old) }
    {
        make_room(&mut self.items)?;
        self.items.push(item)?;
        Ok(())
    }
}

/// Makes room for one item in a `Vec` that has room for none: most lists have few items.
fn make_room<T>(items: &mut Vec<T>) -> Result<(), Memory>
    ensures { items.new.items ≡ items.old.items }
{
    if items.capacity() == 0 {
        items.reserve_exact(1)?;
    }
    Ok(())
}
