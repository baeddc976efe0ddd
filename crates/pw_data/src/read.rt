ghost use Rattle.std.specs.Prelude.{◌≡◌, length, All, IfOk, None};
ghost use Rattle.pw_base.specs.First.{Gives};
ghost use Rattle.pw_data.specs.Entries.{KeepsPicture};
ghost use Rattle.pw_data.specs.Tree.{forest};
ghost use Rattle.pw_data.specs.Laid.{too_large, size_in, items_in, chars_in};
ghost use Rattle.pw_data.specs.Layouts.{FitsPicture, no_table, first_among, laid, layout_of};

use crate::entries::read_entries;
use crate::entry::Entry;
use crate::item::ItemTable;
use crate::lay::lay;
use crate::layout::Layout;
use crate::names::clashes;
use crate::storage::chars_of;
use crate::tree::{Within, too_large, tree_faults};
use pw_base::fault::{Fault, Refusal};
use pw_base::memory::Memory;
use pw_text::token::Token;
use std::alloc::Global;

/// The first of the fault that is known and of those that show among the entries. Their size counts
/// only where there is no other.
fn first_fault(
    alloc: Global,
    text: &[u8],
    entries: &[Entry],
    known: Option<Fault>,
) -> Result<Option<Fault>, Memory>
    ensures { IfOk result (λ first. first ≡ first_among text.now known entries.now) }
{
    let known = tree_faults(Within::Nothing, entries, known);
    let known = clashes(alloc, text, entries, known)?;
    match known {
        Some(fault) => Ok(Some(fault)),
        None => Ok(too_large(entries)),
    }
}

/// The layout of entries without a fault.
fn laid(alloc: Global, text: &[u8], entries: &[Entry]) -> Result<Layout, Memory>
    requires small { too_large 0 (forest entries.now) ≡ None }
    requires size { length (chars_in text.now (forest entries.now)) ≡ size_in (forest entries.now) }
    requires kept { All (KeepsPicture text.now) entries.now }
    requires pictures { All FitsPicture (items_in text.now 0 no_table (forest entries.now)) }
    ensures { IfOk result (λ layout. layout ≡ laid text.now entries.now) }
{
    let mut items = Vec::new(alloc);
    let outside = ItemTable { occurs: 0, step: 0 };
    lay(alloc, text, 0, outside, entries, &mut items)?;
    let storage = chars_of(alloc, text, entries)?;
    Layout::new(alloc, items, storage)
}

/// The layout of the data of a program. The tokens are those of WORKING-STORAGE SECTION and LINKAGE
/// SECTION of the text, with the headings of the two.
///
/// It refuses exactly with the first fault, by line and on one line by code, where a fault stands at
/// the line of its entry's first token: 111 for a picture that is none; 121 for an entry of another
/// form, for a first entry that is not 01 or 77, for a group with a picture or a VALUE, for an entry
/// without both picture and members, for an OCCURS at level 01 or 77, inside another or with a number
/// outside 1 to 1,000, for an Edited picture, for a VALUE under OCCURS or in LINKAGE, and for one that
/// the picture cannot hold unchanged; 122 for a name that an earlier item has and for a table word as a
/// name; and, where there is no other fault, 124 at the first 01 or 77 with whose item the storage has
/// more than 32,000 characters.
pub fn layout(alloc: Global, text: &[u8], tokens: &[Token], server: bool) -> Result<Layout, Refusal>
    ensures { Gives (λ layout. layout) result (layout_of text.now tokens.now server) }
{
    let (entries, known) = read_entries(alloc, server, text, tokens)?;
    match first_fault(alloc, text, &entries, known)? {
        Some(fault) => Err(fault.into()),
        None => Ok(laid(alloc, text, &entries)?),
    }
}
