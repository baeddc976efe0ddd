ghost use Rattle.std.specs.Prelude.{◌≡◌, ◌∷◌, ℕ, List, Some, None, IfOk, OnOk, if◌then◌else◌, bytes_eq};
ghost use Rattle.std.specs.Option.{option_or};
ghost use Rattle.pw_operands.specs.Index.{indexed_number, IsIndexOf};

use pw_base::bytes::Bytes;
use pw_base::memory::Memory;
use pw_code::field::ScreenTable;
use pw_code::file::FileInfo;
use pw_forms::statement::Paragraph;
use std::alloc::Global;
use std::collections::BTreeMap;

/// The number of the first thing of each name, from 0, by the name.
pub type Index = BTreeMap<Vec<u8>, usize>;

/// What has a name.
pub trait IndexedByName {
    ghost use Rattle.std.specs.Prelude.{List, ℕ};

    ghost name_of: { Self → List ℕ };

    /// Its name.
    fn name(&self) -> &[u8]
        ensures { result.now ≡ name_of self.now };
}

/// A program or a class is its name.
impl IndexedByName for Bytes {
    ghost name_of = { λ name. name };

    fn name(&self) -> &[u8] {
        self.as_slice()
    }
}

impl IndexedByName for FileInfo {
    ghost name_of = { λ file. file.name };

    fn name(&self) -> &[u8] {
        self.name.as_slice()
    }
}

impl IndexedByName for ScreenTable {
    ghost name_of = { λ screen. screen.name };

    fn name(&self) -> &[u8] {
        self.name.as_slice()
    }
}

impl IndexedByName for Paragraph {
    ghost name_of = { λ paragraph. paragraph.name };

    fn name(&self) -> &[u8] {
        self.name.as_slice()
    }
}

/// Puts the number of a name, unless the name is there.
fn put_number(alloc: Global, name: &[u8], number: usize, index: &mut Index) -> Result<(), Memory>
    ensures { OnOk result ((word : List ℕ) → indexed_number index.new word ≡ option_or
        (indexed_number index.old word) (if bytes_eq name.now word then Some number else None)) }
{
    let key = Vec::from_slice(alloc, name)?;
    if !index.contains_key(key.as_slice()) {
        index.insert(key, number)?;
    }
    Ok(())
}

/// The index of things by their names.
pub fn index_of<T: IndexedByName>(alloc: Global, things: &[T]) -> Result<Index, Memory>
    ensures { IfOk result (λ index. IsIndexOf index T.name_of things.now) }
{
    let mut index = BTreeMap::new(alloc);
    let mut number = 0;
    for thing in things {
        put_number(alloc, thing.name(), number, &mut index)?;
        number += 1;
    }
    Ok(index)
}

/// What the index has for a name. It takes no memory.
pub fn number_of(index: &Index, name: &[u8]) -> Option<usize>
    ensures { result ≡ indexed_number index.now name.now }
{
    index.get(name).copied()
}
