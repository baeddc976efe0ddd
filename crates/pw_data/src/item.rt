ghost use Rattle.std.specs.Prelude.{◌≡◌, option_and_then};
ghost use Rattle.pw_data.specs.Entries.{kind_of, picture_of_kind};

use pw_base::bytes::Bytes;
use pw_picture::picture::Picture;

/// What an item that is no group holds: so many characters, or a number of `digits` digits of which the
/// last `places` are decimals, behind a sign where it is `signed`. It is the item's picture, which is a
/// Text or a Number.
#[derive(Clone, Copy, Debug, PartialEq, Eq)]
pub enum ItemKind {
    Text {
        size: u16,
    },
    Number {
        digits: u8,
        places: u8,
        signed: bool,
    },
}

impl ItemKind {
    /// The picture that says this.
    pub fn picture(self) -> Picture
        ensures { result ≡ picture_of_kind self }
    {
        match self {
            ItemKind::Text { size } => Picture::Text { size },
            ItemKind::Number {
                digits,
                places,
                signed,
            } => Picture::Number {
                digits,
                places,
                signed,
            },
        }
    }
}

/// The kind of an item with a picture. It is None for an Edited one.
fn kind_of(picture: &Picture) -> Option<ItemKind>
    ensures { result ≡ kind_of picture.now }
{
    match picture {
        Picture::Text { size } => Some(ItemKind::Text { size: *size }),
        Picture::Number {
            digits,
            places,
            signed,
        } => Some(ItemKind::Number {
            digits: *digits,
            places: *places,
            signed: *signed,
        }),
        Picture::Edited { .. } => None,
    }
}

/// The kind of an item with a picture, and none without one.
pub fn kind_at(picture: &Option<Picture>) -> Option<ItemKind>
    ensures { result ≡ option_and_then kind_of picture.now }
{
    let picture = picture.as_ref()?;
    kind_of(picture)
}

/// The table in which an item stands: how often it occurs, and how many characters lie from one
/// occurrence to the next. Both are 0 outside each OCCURS.
#[derive(Clone, Copy, Debug, PartialEq, Eq)]
pub struct ItemTable {
    pub occurs: u16,
    pub step: u32,
}

/// An item: an entry with what was laid out for it.
#[derive(Debug, Drop)]
pub struct Item {
    /// The name as it stands in the source, in either case. None for FILLER.
    pub name: Option<Bytes>,
    /// 1 to 49, or 77.
    pub level: u8,
    /// Whether it stands in LINKAGE.
    pub linked: bool,
    /// None for a group.
    pub kind: Option<ItemKind>,
    /// Where its first occurrence begins in the storage.
    pub at: u32,
    /// How many characters one occurrence has. A group is as long as its members with their
    /// repetitions.
    pub size: u32,
    /// The number of the OCCURS that it has or in which it stands, 0 without one.
    pub occurs: u16,
    /// How many characters lie from one occurrence to the next, 0 outside each OCCURS.
    pub step: u32,
}

/// Where an item lies in the storage: `at` is where its first occurrence begins, and `size` is how many
/// characters one has. A group has no picture; an item's picture is a Text or a Number. Within an OCCURS
/// there are `occurs` of them, 1 to 1,000, each `step` characters behind the one before; outside, both
/// are 0.
#[derive(Debug, Drop)]
pub struct Place {
    pub at: u32,
    pub size: u32,
    pub picture: Option<Picture>,
    pub occurs: u16,
    pub step: u32,
}
