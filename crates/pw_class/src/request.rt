use pw_base::bytes::Bytes;

/// A message that a terminal has sent to a server class.
#[derive(Debug, Drop)]
pub struct Request {
    /// The number of the terminal, from 0.
    pub terminal: u32,
    /// The number of the unit on its terminal, from 1.
    pub unit: u32,
    pub message: Bytes,
}

/// What came of the wish to give the next request of a class to a process.
#[derive(Debug, Drop)]
pub enum Taken {
    /// The first waiting request, for the free process of smallest number. Processes count from 1.
    Got { process: u32, request: Request },
    /// No request waits.
    Empty,
    /// A request waits, and every process is busy.
    NoneFree,
}

/// Where a request is.
#[derive(Clone, Copy, Debug, PartialEq, Eq)]
pub enum RequestPlace {
    /// It waits for a process of the class.
    Waiting { class: u32 },
    /// A process of the class works on it. Processes count from 1.
    Busy { class: u32, process: u32 },
}
