use crate::cells::Cells;
use pw_words::names::Names;

/// What the entries so far leave: whether a screen has begun, the names of the screens, those of the
/// fields of the last one, and which of its cells its fields have.
#[derive(Drop)]
pub struct ScreensTaken {
    pub begun: bool,
    pub names: Names,
    pub fields: Names,
    pub used: Option<Cells>,
}
