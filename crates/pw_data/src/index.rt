ghost use Rattle.std.specs.Prelude.{◌≡◌, ◌≤◌, ℕ, List, None, Some, IfOk, OnOk, if◌then◌else◌, length, take};
ghost use Rattle.pw_base.specs.Limits.{longest_word};
ghost use Rattle.std.specs.Option.{option_or};
ghost use Rattle.std.specs.Str.{str_to_ascii_lowercase};
ghost use Rattle.pw_words.specs.Words.{same_word};
ghost use Rattle.pw_data.specs.Index.{indexed_item_number, IsItemIndexOf, Indexes};

use crate::item::Item;
use crate::names::in_lower_case;
use indexmap::IndexMap;
use pw_base::memory::Memory;
use pw_text::token::MAX_WORD;
use std::alloc::Global;

/// The number of the first item of each name, from 0, by the name in lower case.
pub type ItemIndex = IndexMap<Vec<u8>, usize>;

/// Puts the number of a name, unless the name is there.
fn put_number(
    alloc: Global,
    name: &[u8],
    number: usize,
    index: &mut ItemIndex,
) -> Result<(), Memory>
    ensures { OnOk result ((word : List ℕ) → indexed_item_number index.new word
        ≡ option_or (indexed_item_number index.old word) (if same_word name.now word then Some number else None)) }
{
    let key = in_lower_case(alloc, name)?;
    if !index.contains_key(key.as_slice()) {
        index.insert(key, number)?;
    }
    Ok(())
}

/// Puts the number of an item under its name, where it has one that is not there.
fn put_item(alloc: Global, item: &Item, number: usize, index: &mut ItemIndex) -> Result<(), Memory>
    ensures { OnOk result (Indexes item.now.name number index.old index.new) }
{
    match &item.name {
        Some(name) => put_number(alloc, name.as_slice(), number, index),
        None => Ok(()),
    }
}

/// The index of items.
pub fn index_of(alloc: Global, items: &[Item]) -> Result<ItemIndex, Memory>
    ensures { IfOk result (λ index. IsItemIndexOf index items.now) }
{
    let mut index = IndexMap::new(alloc);
    let mut number = 0;
    for item in items {
        put_item(alloc, item, number, &mut index)?;
        number += 1;
    }
    Ok(index)
}

/// A name of at most 30 characters in lower case, in front of others.
fn folded(name: &[u8]) -> [u8; MAX_WORD]
    requires { length name.now ≤ longest_word }
    ensures { take (length name.now) result ≡ str_to_ascii_lowercase name.now }
{
    let mut folded = [0; MAX_WORD];
    let mut at = 0;
    while at < name.len() {
        folded[at] = name[at].to_ascii_lowercase();
        at += 1;
    }
    folded
}

/// What the index has for a name of at most 30 characters. It takes no memory.
pub fn number_of(index: &ItemIndex, name: &[u8]) -> Option<usize>
    requires { length name.now ≤ longest_word }
    ensures { result ≡ indexed_item_number index.now name.now }
{
    let folded = folded(name);
    index.get(&folded[..name.len()]).copied()
}
