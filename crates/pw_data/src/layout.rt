ghost use Rattle.std.specs.Prelude.{◌≡◌, ◌≤◌, length, find, All, IfOk, IfSome, option_copied};
ghost use Rattle.pw_base.specs.Limits.{most_storage};
ghost use Rattle.pw_data.specs.Names.{is_this_name};
ghost use Rattle.pw_data.specs.Layouts.{IsSoundStorage, EndsBy, PlaceEndsBy, FitsPicture, PlaceFitsPicture, place_at, place_of};

use crate::index::{ItemIndex, index_of, number_of};
use crate::item::{Item, Place};
use pw_base::bytes::Bytes;
use pw_base::list::List;
use pw_base::memory::Memory;
use pw_text::token::MAX_WORD;
use pw_words::table::is_same_word;
use std::alloc::Global;
use std::marker::Model;

/// The items of a program's data in the order of their entries, and the characters with which they
/// begin, at most 32,000. Every occurrence of every item lies in them, and an item with a picture is as
/// long as it says. Contracts see both.
#[derive(Debug, Drop)]
pub struct Layout {
    items: List<Item>,
    storage: Bytes,
    /// The items by their names.
    index: ItemIndex,
}

impl Model for Layout {
    ghost use Rattle.pw_data.specs.Index.{IsItemIndexOf};
    ghost use Rattle.pw_data.specs.Layouts.{Laid, IsSoundStorage};

    ghost Value = { Laid };

    ghost view = { λ layout. record { items = layout.items; storage = layout.storage } };

    ghost invariant = { λ layout. IsSoundStorage layout.items layout.storage × IsItemIndexOf layout.index layout.items };
}

impl Layout {
    /// The layout of these items and characters.
    pub(crate) fn new(alloc: Global, items: Vec<Item>, storage: Bytes) -> Result<Layout, Memory>
        requires { IsSoundStorage items.items storage }
        ensures items { IfOk result (λ layout. layout.items ≡ items.items) }
        ensures storage { IfOk result (λ layout. layout.storage ≡ storage) }
    {
        let index = index_of(alloc, items.as_slice())?;
        Ok(Layout {
            items: List::from_vec(items),
            storage,
            index,
        })
    }

    /// The first item of a name, in either case. A name of more than 30 characters is no word of a text,
    /// and is looked for from item to item.
    fn item(&self, name: &[u8]) -> Option<&Item>
        ensures item { option_copied result ≡ find (λ item. is_this_name item.name name.now) self.now.items }
        ensures within { IfSome result (λ item. EndsBy (length self.now.storage) item.now) }
        ensures fits { IfSome result (λ item. FitsPicture item.now) }
    {
        if name.len() > MAX_WORD {
            return self
                .items
                .as_slice()
                .iter()
                .find(|item| is_called(item, name));
        }
        self.items.get(number_of(&self.index, name)?)
    }

    /// Where the item of a name lies, in either case. It is None exactly where no item has the name. It
    /// takes no memory, and looks at few of the names, however many there are.
    #[inline(always)]
    pub fn place(&self, name: &[u8]) -> Option<Place>
        ensures place { result ≡ place_of self.now name.now }
        ensures within { IfSome result (λ place. PlaceEndsBy (length self.now.storage) place) }
        ensures picture { IfSome result PlaceFitsPicture }
    {
        Some(place_at(self.item(name)?))
    }

    /// The characters with which the storage begins: those of all items, one behind the other. It takes
    /// no memory.
    pub fn storage(&self) -> &[u8]
        ensures storage { result.now ≡ self.now.storage }
        ensures bound { length result.now ≤ most_storage }
    {
        self.storage.as_slice()
    }

    /// The items in the order of their entries. It takes no memory.
    pub fn items(&self) -> &[Item]
        ensures items { result.now ≡ self.now.items }
        ensures within { All (EndsBy (length self.now.storage)) result.now }
        ensures pictures { All FitsPicture result.now }
    {
        self.items.as_slice()
    }
}

/// Whether an item has this name, in either case.
fn is_called(item: &Item, name: &[u8]) -> bool
    ensures { result ≡ is_this_name item.now.name name.now }
{
    match &item.name {
        Some(own) => is_same_word(own.as_slice(), name),
        None => false,
    }
}

/// Where an item lies.
fn place_at(item: &Item) -> Place
    ensures { result ≡ place_at item.now }
{
    Place {
        at: item.at,
        size: item.size,
        picture: match item.kind {
            Some(kind) => Some(kind.picture()),
            None => None,
        },
        occurs: item.occurs,
        step: item.step,
    }
}
