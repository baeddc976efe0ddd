use crate::build::ParagraphBuilder;
use pw_base::fault::Fault;
use pw_words::names::Names;

/// What reading has found so far: the first fault, the names of the paragraphs, and the paragraphs.
#[derive(Drop)]
pub struct ProcedureReading {
    pub known: Option<Fault>,
    pub names: Names,
    pub build: ParagraphBuilder,
}
