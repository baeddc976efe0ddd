ghost use Rattle.std.specs.Prelude.{◌≡◌, ℕ, length, IfOk, IfSome, option_map, IsTrue, ◌||◌};
ghost use Rattle.pw_picture.specs.Grammar.{IsPicture, size_of};
ghost use Rattle.pw_data.specs.Entries.{picture_at};
ghost use Rattle.pw_data.specs.Layouts.{PlaceEndsBy, PlaceFitsPicture};
ghost use Rattle.pw_code.specs.Fields.{is_source_of};
ghost use Rattle.pw_screen.specs.Shown.{names_item, only_one, only_item, literal_of, item_at, item_shown, literal_shown, shown_of, size_by, length_by, extent_of, is_inside, is_outside, IsShown};

use crate::body::At;
use crate::clauses::Clauses;
use pw_base::bytes::Bytes;
use pw_base::memory::Memory;
use pw_code::field::FieldKind;
use pw_data::item::Place;
use pw_data::layout::Layout;
use pw_data::literal::unquoted;
use pw_picture::picture::Picture;
use pw_text::token::Token;
use std::alloc::Global;

/// What a field shows, and whether it takes entries.
#[derive(Drop)]
pub struct Shown {
    pub kind: FieldKind,
    pub takes: bool,
}

/// The item of a clause, whether the clause shows it, and whether it takes entries for it.
#[derive(Clone, Copy)]
pub struct ItemClause {
    pub item: Token,
    pub show: bool,
    pub takes: bool,
}

/// The characters of a VALUE, where there is one.
pub fn literal_at(alloc: Global, text: &[u8], value: Option<Token>) -> Result<Option<Bytes>, Memory>
    ensures { IfOk result (λ literal. literal ≡ option_map (literal_of text.now) value) }
{
    match value {
        Some(token) => Ok(Some(unquoted(alloc, token.spelling(text))?)),
        None => Ok(None),
    }
}

impl Clauses {
    /// Whether a clause names an item.
    fn names_item(self) -> bool
        ensures { result ≡ names_item self }
    {
        self.from.is_some() || (self.to.is_some() || self.using.is_some())
    }

    /// The item of the only one of FROM, TO and USING. It is None where there is none, or more than one.
    fn only_one(self) -> Option<ItemClause>
        ensures one { result ≡ only_one self.from self.to self.using }
        ensures serves { IfSome result (λ one. IsTrue (one.show || one.takes)) }
    {
        match (self.from, self.to, self.using) {
            (Some(item), None, None) => Some(ItemClause {
                item,
                show: true,
                takes: false,
            }),
            (None, Some(item), None) => Some(ItemClause {
                item,
                show: false,
                takes: true,
            }),
            (None, None, Some(item)) => Some(ItemClause {
                item,
                show: true,
                takes: true,
            }),
            _ => None,
        }
    }

    /// That item, where no clause is repeated and it has no subscript.
    fn only_item(self) -> Option<ItemClause>
        ensures one { result ≡ only_item self }
        ensures serves { IfSome result (λ one. IsTrue (one.show || one.takes)) }
    {
        if self.repeated || self.subscripted {
            None
        } else {
            self.only_one()
        }
    }
}

/// Whether a field of a picture may be of an item of another one: a Text field of a Text item, a Number
/// or an Edited field of a Number item.
fn is_source_of(picture: &Picture, source: &Picture) -> bool
    ensures { result ≡ is_source_of picture.now source.now }
{
    match picture {
        Picture::Text { .. } => matches!(source, Picture::Text { .. }),
        _ => matches!(source, Picture::Number { .. }),
    }
}

/// The item at a place, as a field of a picture has it. It is None for a group, for an item within an
/// OCCURS, and for one of another kind than the picture.
fn item_at(picture: Picture, one: ItemClause, place: Option<Place>) -> Option<Shown>
    requires picture { IsPicture picture }
    requires serves { IsTrue (one.show || one.takes) }
    requires source { IfSome place PlaceFitsPicture }
    ensures shown { result ≡ item_at picture one place }
    ensures sound { (storage : ℕ) → IfSome place (PlaceEndsBy storage)
        → IfSome result (IsShown storage (size_of picture)) }
{
    let Place {
        at,
        picture: source,
        occurs,
        ..
    } = place?;
    let source = source?;
    if occurs == 0 && is_source_of(&picture, &source) {
        Some(Shown {
            kind: FieldKind::Item {
                picture,
                at,
                source,
                show: one.show,
            },
            takes: one.takes,
        })
    } else {
        None
    }
}

/// What a field shows by a picture and the item of its only clause for one, where there is such a clause.
fn item_shown(
    layout: &Layout,
    text: &[u8],
    one: Option<ItemClause>,
    picture: Option<Picture>,
) -> Option<Shown>
    requires serves { IfSome one (λ o. IsTrue (o.show || o.takes)) }
    requires picture { IfSome picture (λ p. IsPicture p) }
    ensures shown { result ≡ item_shown text.now layout.now one picture }
    ensures sound { IfSome result (IsShown (length layout.now.storage) (size_by picture)) }
{
    let one = one?;
    item_at(picture?, one, layout.place(one.item.spelling(text)))
}

/// What a field shows that has a VALUE, and no more.
fn literal_shown(more: bool, literal: Option<Bytes>) -> Option<Shown>
    ensures shown { result ≡ literal_shown more literal }
    ensures sound { (storage : ℕ) → IfSome result (IsShown storage (length_by literal)) }
{
    if more {
        return None;
    }
    Some(Shown {
        kind: FieldKind::Literal(literal?),
        takes: false,
    })
}

/// What a field shows, where its clauses go together: VALUE alone, or a picture and one of FROM, TO and
/// USING with an item of its kind.
pub fn shown_of(
    layout: &Layout,
    text: &[u8],
    clauses: Clauses,
    picture: Option<Picture>,
    literal: Option<Bytes>,
) -> Option<Shown>
    requires picture { picture ≡ picture_at text.now clauses.picture }
    requires literal { literal ≡ option_map (literal_of text.now) clauses.value }
    requires valid { IfSome picture (λ p. IsPicture p) }
    ensures shown { result ≡ shown_of text.now layout.now clauses }
    ensures sound { IfSome result
        (IsShown (length layout.now.storage) (extent_of text.now clauses)) }
{
    match (clauses.picture, clauses.value) {
        (None, Some(_)) => literal_shown(clauses.repeated || clauses.names_item(), literal),
        (Some(_), None) => item_shown(layout, text, clauses.only_item(), picture),
        _ => None,
    }
}

/// The size of a picture, 0 without one.
fn size_by(picture: &Option<Picture>) -> usize
    requires { IfSome picture.now (λ p. IsPicture p) }
    ensures { result ≡ size_by picture.now }
{
    match picture {
        Some(picture) => picture.size() as usize,
        None => 0,
    }
}

/// The length of a text, 0 without one.
fn length_by(literal: &Option<Bytes>) -> usize
    ensures { result ≡ length_by literal.now }
{
    match literal {
        Some(chars) => chars.len(),
        None => 0,
    }
}

/// How many cells a field has by its clauses: those of the first picture, and without one those of the
/// first VALUE.
pub fn extent_of(
    clauses: Clauses,
    text: &[u8],
    picture: &Option<Picture>,
    literal: &Option<Bytes>,
) -> usize
    requires picture { picture.now ≡ picture_at text.now clauses.picture }
    requires literal { literal.now ≡ option_map (literal_of text.now) clauses.value }
    requires valid { IfSome picture.now (λ p. IsPicture p) }
    ensures { result ≡ extent_of text.now clauses }
{
    if clauses.picture.is_some() {
        size_by(picture)
    } else {
        length_by(literal)
    }
}

impl At {
    /// Whether so many cells from here on lie in rows 1 to 23 and columns 1 to 80.
    fn is_inside(self, cells: usize) -> bool
        ensures { result ≡ is_inside self cells }
    {
        (1 <= self.row && self.row <= 23)
            && (1 <= self.column && (self.column as usize).saturating_add(cells) <= 81)
    }

    /// Whether one of so many cells from here on lies outside rows 1 to 23 or columns 1 to 80.
    pub fn is_outside(self, cells: usize) -> bool
        ensures { result ≡ is_outside self cells }
    {
        cells > 0 && !self.is_inside(cells)
    }
}
