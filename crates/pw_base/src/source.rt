ghost use Rattle.std.specs.Prelude.{◌≡◌, ℕ, ◌<◌, ◌≤◌, List, Option, length};
ghost use Rattle.pw_base.specs.Outside.{Reads, CountsRead};

/// What a read answers: how many bytes it gave, that none is left, or that it failed.
#[derive(Clone, Copy, Debug, PartialEq, Eq)]
pub enum Got {
    Got(usize),
    End,
    Failed,
}

/// Where bytes come from. It may tell the bytes that it has left, it counts its faults, and it says what
/// one read may make of it.
pub trait Source {
    ghost use Rattle.pw_base.specs.declared.source.Got.{Got};

    ghost left: { Self → Option (List ℕ) };

    ghost faults: { Self → ℕ };

    ghost step: { Self → Got → Self → Type 0 };

    /// Reads some bytes into the front of a buffer: at `Got(n)` n bytes, from 1 to the buffer's length.
    fn read(&mut self, into: &mut [u8]) -> Got
        requires { 0 < length into.old }
        ensures reads { Reads result into.new (left self.old) (left self.new) }
        ensures count { faults self.old ≤ faults self.new }
        ensures cause { CountsRead result (faults self.old) (faults self.new) }
        ensures step { step self.old result self.new };
}
