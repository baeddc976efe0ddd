ghost use Rattle.std.specs.Prelude.{◌≡◌};
ghost use Rattle.pw_operands.specs.Variables.{of_place, of_register, variable_of};

use crate::register::{SpecialRegister, register_of};
use pw_data::item::Place;
use pw_data::layout::Layout;
use pw_picture::picture::Picture;

/// An item or a register as a statement sees it.
#[derive(Debug, Drop)]
pub struct Variable {
    /// How many characters one occurrence has.
    pub size: u32,
    /// A Text or a Number. A group has none.
    pub picture: Option<Picture>,
    /// How often it occurs, 0 outside each OCCURS.
    pub occurs: u16,
    /// Whether it is a register.
    pub register: bool,
}

/// A register as a statement sees it.
fn of_register(register: SpecialRegister) -> Variable
    ensures { result ≡ of_register register }
{
    let digits = register.digits();
    Variable {
        size: digits as u32,
        picture: Some(Picture::Number {
            digits,
            places: 0,
            signed: false,
        }),
        occurs: 0,
        register: true,
    }
}

/// What lies at a place as a statement sees it.
fn of_place(place: Place) -> Variable
    ensures { result ≡ of_place place }
{
    Variable {
        size: place.size,
        picture: place.picture,
        occurs: place.occurs,
        register: false,
    }
}

/// The register or the item of a name, in either case, in a server or in a requester. It is None
/// exactly where there is neither. It takes no memory.
#[inline(always)]
pub fn variable_of(server: bool, layout: &Layout, name: &[u8]) -> Option<Variable>
    ensures { result ≡ variable_of server layout.now name.now }
{
    match register_of(server, name) {
        Some(register) => Some(of_register(register)),
        None => Some(of_place(layout.place(name)?)),
    }
}
