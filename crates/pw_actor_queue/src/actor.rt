/// Who makes a step. Terminals, pairs and classes count from 0, processes from 1.
#[derive(Clone, Copy, Debug, PartialEq, Eq)]
pub enum Actor {
    /// A terminal at its own verb.
    Terminal(u32),
    /// A process of a class, at work on a request.
    Process { class: u32, process: u32 },
    /// A pair, which raises a backup, sends copies, takes messages in, fails and takes over.
    Pair(u32),
    /// A class, which hands requests to its processes, and whose processes fail.
    Class(u32),
}
