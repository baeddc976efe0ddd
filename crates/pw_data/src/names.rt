ghost use Rattle.std.specs.Prelude.{◌≡◌, ◌||◌, ◌++◌, ◌∷◌, [], ℕ, List, IfOk, OnOk, option_copied};
ghost use Rattle.std.specs.Str.{str_to_ascii_lowercase};
ghost use Rattle.pw_base.specs.First.{least};
ghost use Rattle.pw_words.specs.Words.{same_word};
ghost use Rattle.pw_data.specs.declared.entry.Entry.{Entry};
ghost use Rattle.pw_data.specs.Names.{name_of, is_taken, has_name, HasNamesOf, clashes};

use crate::entry::Entry;
use pw_base::fault::{Fault, noted};
use pw_base::fault_code::FaultCode;
use pw_base::memory::Memory;
use pw_words::names::Names;
use std::alloc::Global;

/// The name of an entry.
pub fn name_of<'a>(text: &'a [u8], entry: Entry) -> Option<&'a [u8]>
    ensures { option_copied result ≡ name_of text.entry.now entry }
{
    let token = entry.name?;
    Some(token.spelling(text))
}

/// A name in lower case.
pub fn in_lower_case(alloc: Global, name: &[u8]) -> Result<Vec<u8>, Memory>
    ensures { IfOk result (λ folded. folded.items ≡ str_to_ascii_lowercase name.now) }
{
    Ok(name.to_ascii_lowercase(alloc)?)
}

/// Puts a name into a set of names in lower case. It gives whether the name was there.
fn put_name(alloc: Global, name: &[u8], names: &mut Names) -> Result<bool, Memory>
    ensures taken { IfOk result (λ taken. taken ≡ has_name names.old name.now) }
    ensures names { OnOk result ((word : List ℕ)
        → has_name names.new word ≡ (same_word name.now word || has_name names.old word)) }
{
    let key = in_lower_case(alloc, name)?;
    names.put(key)
}

/// Puts the name of an entry, where it has one, into a set of names in lower case. It gives whether the
/// name was there.
fn put_name_of(alloc: Global, text: &[u8], entry: Entry, names: &mut Names) -> Result<bool, Memory>
    ensures taken { (entries : List Entry) → HasNamesOf text.now entries names.old
        → IfOk result (λ taken. taken ≡ is_taken text.now entries (name_of text.now entry)) }
    ensures names { OnOk result ((entries : List Entry) → HasNamesOf text.now entries names.old
        → HasNamesOf text.now (entries ++ entry ∷ []) names.new) }
{
    match name_of(text, entry) {
        Some(name) => put_name(alloc, name, names),
        None => Ok(false),
    }
}

/// The first of the fault that is known and of the entries with a name that an earlier one has, 122
/// each.
pub fn clashes(
    alloc: Global,
    text: &[u8],
    entries: &[Entry],
    known: Option<Fault>,
) -> Result<Option<Fault>, Memory>
    ensures { IfOk result (λ first. first ≡ least known (clashes text.now [] entries.now)) }
{
    let mut names = Names::new(alloc);
    let mut known = known;
    for entry in entries {
        let taken = put_name_of(alloc, text, *entry, &mut names)?;
        known = noted(known, taken, entry.fault(FaultCode::NameTwice));
    }
    Ok(known)
}
