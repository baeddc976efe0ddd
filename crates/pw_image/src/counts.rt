/// The numbers that begin an image.
#[derive(Clone, Copy)]
pub struct Counts {
    pub termination: u16,
    pub restarts: u32,
    pub phase: u32,
    pub attempt: u32,
    pub shown: u32,
    pub entries: u32,
    pub units: u32,
}
