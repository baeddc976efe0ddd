use crate::build::ScreenBuilder;
use crate::taken::ScreensTaken;
use pw_base::fault::Fault;

/// What reading has found so far: the first fault, what is taken, and the screens.
#[derive(Drop)]
pub struct ScreenReading {
    pub known: Option<Fault>,
    pub taken: ScreensTaken,
    pub build: ScreenBuilder,
}
