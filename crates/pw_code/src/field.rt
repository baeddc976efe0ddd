use crate::copies::Duplicate;
use pw_base::bytes::Bytes;
use pw_base::list::List;
use pw_base::memory::Memory;
use pw_picture::picture::Picture;
use std::alloc::Global;

/// A screen of a program: its name, and its fields in the order in which they are put. What holds of
/// the fields of a program stands in docs/reference/LANGUAGE.md (`IsTable`).
#[derive(Debug, Drop)]
pub struct ScreenTable {
    pub name: Bytes,
    pub fields: List<Field>,
}

/// A field of a screen: where its first cell is, and what it shows there.
#[derive(Debug, Drop)]
pub struct Field {
    /// The name, and no byte for FILLER.
    pub name: Bytes,
    /// The row, 1 to 23 where the field has cells.
    pub row: u8,
    /// The column of the first cell, 1 to 80 where the field has cells.
    pub column: u8,
    pub shown: FieldKind,
    /// Whether it takes entries: a field with TO or USING.
    pub takes: bool,
}

/// What a field shows.
#[derive(Debug, Drop)]
pub enum FieldKind {
    /// This text, where the screen is put with BASE.
    Literal(Bytes),
    /// An item of the program.
    Item {
        /// The field's own picture, as long as the field.
        picture: Picture,
        /// Where the item begins in the storage of its program.
        at: u32,
        /// The item's picture, a Text or a Number.
        source: Picture,
        /// Whether the item is shown: a field with FROM or USING. One with TO shows spaces.
        show: bool,
    },
}

impl Duplicate for Picture {
    fn copy(&self, alloc: Global) -> Result<Picture, Memory> {
        match self {
            Picture::Text { size } => Ok(Picture::Text { size: *size }),
            Picture::Number {
                digits,
                places,
                signed,
            } => Ok(Picture::Number {
                digits: *digits,
                places: *places,
                signed: *signed,
            }),
            Picture::Edited { symbols } => {
                let symbols = symbols.copy(alloc)?;
                Ok(Picture::Edited { symbols })
            }
        }
    }
}

impl Duplicate for FieldKind {
    fn copy(&self, alloc: Global) -> Result<FieldKind, Memory> {
        match self {
            FieldKind::Literal(text) => Ok(FieldKind::Literal(text.copy(alloc)?)),
            FieldKind::Item {
                picture,
                at,
                source,
                show,
            } => {
                let picture = picture.copy(alloc)?;
                let source = source.copy(alloc)?;
                Ok(FieldKind::Item {
                    picture,
                    at: *at,
                    source,
                    show: *show,
                })
            }
        }
    }
}

impl Duplicate for Field {
    fn copy(&self, alloc: Global) -> Result<Field, Memory> {
        let name = self.name.copy(alloc)?;
        let shown = self.shown.copy(alloc)?;
        Ok(Field {
            name,
            row: self.row,
            column: self.column,
            shown,
            takes: self.takes,
        })
    }
}

impl Duplicate for ScreenTable {
    fn copy(&self, alloc: Global) -> Result<ScreenTable, Memory> {
        Ok(ScreenTable {
            name: self.name.copy(alloc)?,
            fields: self.fields.copy(alloc)?,
        })
    }
}
