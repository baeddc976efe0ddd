use crate::form::Head;
use crate::statement::Statement;
use pw_base::list::List;

/// A branch that is open: what opened it, the statements before that, and its first branch once it
/// has its ELSE.
#[derive(Drop)]
pub struct Open {
    pub head: Head,
    pub before: List<Statement>,
    pub first: Option<List<Statement>>,
}

/// The statements since the last name of a paragraph: the open branches from the outermost on, and
/// the statements of the innermost so far.
#[derive(Drop)]
pub struct OpenParagraph {
    pub open: Vec<Open>,
    pub current: List<Statement>,
}
