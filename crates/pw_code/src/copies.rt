ghost use Rattle.std.specs.Prelude.{◌≡◌, IfOk};

use pw_base::bytes::Bytes;
use pw_base::list::List;
use pw_base::memory::Memory;
use std::alloc::Global;

/// What can be copied into memory of its own.
pub trait Duplicate {
    /// An equal value.
    fn copy(&self, alloc: Global) -> Result<Self, Memory>
        ensures { IfOk result (λ copy. copy ≡ self.now) };
}

impl Duplicate for Bytes {
    fn copy(&self, alloc: Global) -> Result<Bytes, Memory> {
        Bytes::from_slice(alloc, self.as_slice())
    }
}

impl Duplicate for (Bytes, Bytes) {
    fn copy(&self, alloc: Global) -> Result<(Bytes, Bytes), Memory> {
        Ok((self.0.copy(alloc)?, self.1.copy(alloc)?))
    }
}

impl<T: Duplicate + Drop> Duplicate for List<T> {
    fn copy(&self, alloc: Global) -> Result<List<T>, Memory> {
        let mut copies = List::new(alloc);
        for item in self.as_slice() {
            copies.push(item.copy(alloc)?)?;
        }
        Ok(copies)
    }
}
