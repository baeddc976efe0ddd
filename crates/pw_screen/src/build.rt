use pw_code::field::ScreenTable;

/// The screens so far: those that are complete, and the last one, where a screen has begun.
#[derive(Drop)]
pub struct ScreenBuilder {
    pub done: Vec<ScreenTable>,
    pub current: Option<ScreenTable>,
}
