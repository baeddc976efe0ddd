ghost use Rattle.std.specs.Prelude.{◌≡◌};
ghost use Rattle.pw_operands.specs.Variables.{has_digits, has_no_sign, is_number_variable, is_index};
ghost use Rattle.pw_names.specs.Wants.{test_of, length_test_of};

use pw_code::file::FileInfo;
use pw_operands::variable::Variable;
use pw_picture::picture::Picture;

/// The most characters of a record.
const MAX_RECORD: u32 = 4_000;

/// What the item or register that an operand names has to be.
#[derive(Clone, Copy, Debug, PartialEq, Eq)]
pub enum Wanted {
    /// Whatever it is.
    Any,
    /// An item: a register receives nothing.
    Item,
    /// A Number.
    Number,
    /// An item that is a Number.
    Sum,
}

impl Wanted {
    /// Whether an item or register is what is wanted.
    pub fn takes(self, variable: &Variable) -> bool
        ensures { result ≡ test_of self variable.now }
    {
        match self {
            Wanted::Any => true,
            Wanted::Item => !variable.register,
            Wanted::Number => is_number(variable),
            Wanted::Sum => !variable.register && is_number(variable),
        }
    }
}

/// What part of a file's record an item or register holds.
#[derive(Clone, Copy, Debug, PartialEq, Eq)]
pub enum Extent {
    /// The key.
    Key,
    /// The whole record.
    Record,
}

impl Extent {
    /// Whether an item or register has a length that the file takes.
    pub fn takes(self, file: &FileInfo, variable: &Variable) -> bool
        ensures { result ≡ length_test_of self file.now variable.now }
    {
        let key = file.key as u32;
        match self {
            Extent::Key => variable.size == key,
            Extent::Record => key <= variable.size && variable.size <= MAX_RECORD,
        }
    }
}

/// Whether a picture is a Number.
fn has_digits(picture: &Option<Picture>) -> bool
    ensures { result ≡ has_digits picture.now }
{
    match picture {
        Some(Picture::Number { .. }) => true,
        Some(Picture::Text { .. }) | Some(Picture::Edited { .. }) | None => false,
    }
}

/// Whether a picture is a Number without a sign.
fn has_no_sign(picture: &Option<Picture>) -> bool
    ensures { result ≡ has_no_sign picture.now }
{
    match picture {
        Some(Picture::Number { signed, .. }) => !*signed,
        Some(Picture::Text { .. }) | Some(Picture::Edited { .. }) | None => false,
    }
}

/// Whether an item or register is a Number.
fn is_number(variable: &Variable) -> bool
    ensures { result ≡ is_number_variable variable.now }
{
    has_digits(&variable.picture)
}

/// Whether an item or register may be a subscript: a Number without a sign, outside each OCCURS.
pub fn is_index(variable: &Variable) -> bool
    ensures { result ≡ is_index variable.now }
{
    has_no_sign(&variable.picture) && variable.occurs == 0
}
