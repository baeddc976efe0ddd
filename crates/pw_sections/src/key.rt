ghost use Rattle.std.specs.Prelude.{◌≡◌, map, not, IfOk, OnOk};
ghost use Rattle.pw_sections.specs.Keys.{is_seen, with_key};

use indexmap::IndexSet;
use pw_base::memory::Memory;

/// A key is seen. It says whether it is new.
pub fn add_key<'a>(keys: &mut IndexSet<&'a [u8]>, key: &'a [u8]) -> Result<bool, Memory>
    ensures new { IfOk result (λ is_new. is_new ≡ not (is_seen (map (λ key. key.now) keys.old.keys) key.now)) }
    ensures keys { OnOk result (map (λ key. key.now) keys.new.keys ≡ with_key (map (λ key. key.now) keys.old.keys) key.now) }
{
    let is_new = keys.insert(key)?;
    Ok(is_new)
}
