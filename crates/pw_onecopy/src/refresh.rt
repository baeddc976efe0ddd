use pw_terminal::shown::ShownScreen;

/// One showing of a terminal's screen, under its refresh number `phase.attempt.k`.
#[derive(Drop)]
pub struct Refresh {
    pub terminal: u32,
    pub phase: u32,
    pub attempt: u32,
    pub k: u32,
    pub image: ShownScreen,
}
