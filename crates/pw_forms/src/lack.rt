use pw_base::memory::Memory;

/// Why a piece was not read: no form has what stands there, or memory ran out.
#[derive(Clone, Copy, Debug, PartialEq, Eq)]
pub enum Lack {
    NoForm,
    Memory,
}

impl From<Memory> for Lack {
    ghost use Rattle.std.specs.Prelude.{◌≡◌};
    ghost use Rattle.pw_forms.specs.declared.lack.Lack.TheVariants.{Memory as OutOfMemory};

    ghost from_gives = { λ _ lack. lack ≡ OutOfMemory };

    fn from(_memory: Memory) -> Lack {
        Lack::Memory
    }
}
