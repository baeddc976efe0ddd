use crate::copies::Duplicate;
use crate::instr::Instr;
use pw_base::bytes::Bytes;
use pw_base::list::List;
use pw_base::memory::Memory;
use std::alloc::Global;

/// A compiled program.
#[derive(Debug, Drop)]
pub struct Code {
    pub name: Bytes,
    pub instrs: List<Instr>,
    /// The characters with which its items begin, at most 32,000.
    pub storage: Bytes,
    /// Where in the storage each of the items lies into which arguments are copied, and its size.
    pub linkage: List<(u32, u32)>,
}

impl Duplicate for (u32, u32) {
    fn copy(&self, _alloc: Global) -> Result<(u32, u32), Memory> {
        Ok(*self)
    }
}

impl Duplicate for Code {
    fn copy(&self, alloc: Global) -> Result<Code, Memory> {
        Ok(Code {
            name: self.name.copy(alloc)?,
            instrs: self.instrs.copy(alloc)?,
            storage: self.storage.copy(alloc)?,
            linkage: self.linkage.copy(alloc)?,
        })
    }
}
