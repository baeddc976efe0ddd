use pw_base::bytes::Bytes;

/// The subscript of an item: a number as it is written, or the name of an item.
#[derive(Debug, Drop)]
pub enum Subscript {
    Number(Bytes),
    Item(Bytes),
}

/// What a statement works on. Names are in upper case, and a register is an item too.
#[derive(Debug, Drop)]
pub enum Operand {
    Item {
        name: Bytes,
        subscript: Option<Subscript>,
    },
    /// A number as it is written.
    Number(Bytes),
    /// The characters of a text.
    Text(Bytes),
    Spaces,
    Zeros,
}
