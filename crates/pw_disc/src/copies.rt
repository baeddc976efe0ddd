ghost use Rattle.std.specs.Prelude.{◌≡◌, IfOk};

use pw_base::memory::Memory;
use pw_code::file::FileCall;
use std::alloc::Global;

/// An equal value.
pub fn copy_file_call(alloc: Global, call: &FileCall) -> Result<FileCall, Memory>
    ensures { IfOk result (λ copy. copy ≡ call.now) }
{
    Ok(FileCall {
        file: call.file,
        op: call.op,
        key: call.key.copy(alloc)?,
        content: call.content.copy(alloc)?,
    })
}
