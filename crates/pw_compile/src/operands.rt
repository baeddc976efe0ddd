ghost use Rattle.std.specs.Prelude.{◌≡◌, map, IfOk};
ghost use Rattle.pw_compile.specs.Operands.{register_named, code_kind_of, index_at, subscript_of, table_of};
ghost use Rattle.pw_compile.specs.Operands.{placed, no_place, place_in, operand_by, operand_of};
ghost use Rattle.pw_data.specs.Layouts.{place_of};

use crate::numbers::{number_in, value_of};
use pw_base::list::List;
use pw_base::memory::Memory;
use pw_code::operand::InstructionOperand as Coded;
use pw_code::place::{Kind, PlaceSubscript as Index, PlaceTable, Register, StoragePlace};
use pw_data::item::Place as Item;
use pw_data::layout::Layout;
use pw_forms::operand::{Operand, Subscript};
use pw_picture::picture::Picture;
use std::alloc::Global;

/// The register of a name that no item has.
fn register_named(name: &[u8]) -> Register
    ensures { result ≡ register_named name.now }
{
    if name == b"TERMINATION-STATUS".as_slice() {
        Register::Termination
    } else if name == b"RESTART-COUNTER".as_slice() {
        Register::Restarts
    } else {
        Register::FileStatus
    }
}

/// What the characters of an item of a picture are; a group has none.
fn kind_of(picture: &Option<Picture>) -> Kind
    ensures { result ≡ code_kind_of picture.now }
{
    match picture {
        Some(Picture::Text { .. }) => Kind::Text,
        Some(
            Picture::Number {
                digits,
                places,
                signed,
            },
        ) => Kind::Number {
            digits: *digits,
            places: *places,
            signed: *signed,
        },
        Some(Picture::Edited { .. }) => Kind::Group,
        None => Kind::Group,
    }
}

/// A subscript by the place of an item, of which only a Number is one.
fn index_at(at: u32, picture: &Option<Picture>) -> Index
    ensures { result ≡ index_at at picture.now }
{
    match picture {
        Some(Picture::Number { digits, places, .. }) => Index::Item {
            at,
            digits: *digits,
            places: *places,
        },
        Some(Picture::Text { .. }) => Index::Item {
            at,
            digits: 0,
            places: 0,
        },
        Some(Picture::Edited { .. }) => Index::Item {
            at,
            digits: 0,
            places: 0,
        },
        None => Index::Item {
            at,
            digits: 0,
            places: 0,
        },
    }
}

/// A subscript of an item that occurs so often.
fn subscript_of(layout: &Layout, occurs: u16, one: &Subscript) -> Index
    ensures { result ≡ subscript_of layout.now occurs one.now }
{
    match one {
        Subscript::Number(spelling) => {
            Index::Number(number_in(spelling.as_slice(), occurs as u32 + 1))
        }
        Subscript::Item(name) => match layout.place(name.as_slice()) {
            Some(place) => index_at(place.at, &place.picture),
            None => Index::Register(register_named(name.as_slice())),
        },
    }
}

/// The table in which an item stands.
fn table_of(layout: &Layout, place: &Item, one: &Subscript) -> PlaceTable
    ensures { result ≡ table_of layout.now place.now one.now }
{
    PlaceTable {
        subscript: subscript_of(layout, place.occurs, one),
        occurs: place.occurs,
        step: place.step,
    }
}

/// An item with its subscript, if it has one.
fn placed(layout: &Layout, place: &Item, one: &Option<Subscript>) -> StoragePlace
    ensures { result ≡ placed layout.now place.now one.now }
{
    let table = match one {
        Some(one) => Some(table_of(layout, place, one)),
        None => None,
    };
    StoragePlace {
        at: place.at,
        size: place.size,
        kind: kind_of(&place.picture),
        table,
    }
}

/// What is no item lies nowhere.
fn no_place() -> StoragePlace
    ensures { result ≡ no_place }
{
    StoragePlace {
        at: 0,
        size: 0,
        kind: Kind::Group,
        table: None,
    }
}

/// The item that an operand is. It takes no memory.
pub fn place_in(layout: &Layout, operand: &Operand) -> StoragePlace
    ensures { result ≡ place_in layout.now operand.now }
{
    match operand {
        Operand::Item { name, subscript } => match layout.place(name.as_slice()) {
            Some(place) => placed(layout, &place, subscript),
            None => no_place(),
        },
        Operand::Number(_) | Operand::Text(_) | Operand::Spaces | Operand::Zeros => no_place(),
    }
}

/// What an item or a register becomes. It takes no memory.
fn named(layout: &Layout, name: &[u8], subscript: &Option<Subscript>) -> Coded
    ensures { result ≡ operand_by layout.now (place_of layout.now name.now) name.now subscript.now }
{
    match layout.place(name) {
        Some(place) => Coded::Item(placed(layout, &place, subscript)),
        None => Coded::Register(register_named(name)),
    }
}

/// What an operand becomes.
pub fn operand_of(alloc: Global, layout: &Layout, operand: &Operand) -> Result<Coded, Memory>
    ensures { IfOk result (λ found. found ≡ operand_of layout.now operand.now) }
{
    match operand {
        Operand::Item { name, subscript } => Ok(named(layout, name.as_slice(), subscript)),
        Operand::Number(spelling) => {
            let value = value_of(spelling.as_slice());
            let spelling = spelling.copy(alloc)?;
            Ok(Coded::Number { spelling, value })
        }
        Operand::Text(chars) => Ok(Coded::Text(chars.copy(alloc)?)),
        Operand::Spaces => Ok(Coded::Spaces),
        Operand::Zeros => Ok(Coded::Zeros),
    }
}

/// The items of arguments and of receivers.
pub fn places_of(
    alloc: Global,
    layout: &Layout,
    operands: &[Operand],
) -> Result<List<StoragePlace>, Memory>
    ensures { IfOk result (λ places. places ≡ map (place_in layout.now) operands.now) }
{
    let mut places = List::new(alloc);
    for operand in operands {
        places.push(place_in(layout, operand))?;
    }
    Ok(places)
}
