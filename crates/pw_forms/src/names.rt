ghost use Rattle.std.specs.Prelude.{◌≡◌, ◌||◌, IfOk, OnOk, bytes_eq};
ghost use Rattle.pw_words.specs.Names.{has_name};
ghost use Rattle.pw_words.specs.Words.{Word};

use pw_base::memory::Memory;
use pw_words::names::Names;
use std::alloc::Global;

/// Puts a name behind the others, unless it is there. It gives whether it was there.
pub fn put_name(alloc: Global, name: &[u8], names: &mut Names) -> Result<bool, Memory>
    ensures taken { IfOk result (λ taken. taken ≡ has_name names.old name.now) }
    ensures names { OnOk result ((word : Word)
        → has_name names.new word ≡ (bytes_eq name.now word || has_name names.old word)) }
{
    names.put(Vec::from_slice(alloc, name)?)
}
