ghost use Rattle.std.specs.Prelude.{ℕ, ◌<◌, ◌≤◌, List, Option, length};
ghost use Rattle.pw_base.specs.Outside.{Writes, CountsWrite};

/// What a write answers: how many bytes it took, or that it failed.
#[derive(Clone, Copy, Debug, PartialEq, Eq)]
pub enum Took {
    Took(usize),
    Failed,
}

/// Where bytes go. It may tell the bytes that were written, and it counts its faults.
pub trait Sink {
    ghost written: { Self → Option (List ℕ) };

    ghost faults: { Self → ℕ };

    /// Writes the front of a piece: at `Took(n)` its first n bytes, from 1 to all.
    fn write(&mut self, piece: &[u8]) -> Took
        requires { 0 < length piece.now }
        ensures writes { Writes result piece.now (written self.old) (written self.new) }
        ensures count { faults self.old ≤ faults self.new }
        ensures cause { CountsWrite result (faults self.old) (faults self.new) };
}
