ghost use Rattle.std.specs.Prelude.{◌≡◌, ◌<◌, ◌≤◌, ◌^◌, length, map, position, IfSome, IfOk};
ghost use Rattle.std.specs.List.{IsDistinct};
ghost use Rattle.std.specs.Str.{bytes_eq};
ghost use Rattle.pw_event.specs.Parsing.{among};

use crate::fault::EventFault;
use indexmap::IndexSet;
use pw_base::bytes::Bytes;
use pw_base::memory::Memory;
use pw_code::file::FileInfo;
use pw_code::system::{ClassInfo, TermInfo};
use std::alloc::Global;

/// What has a name.
pub trait Named {
    ghost use Rattle.std.specs.Prelude.{List, ℕ};

    ghost name_of: { Self → List ℕ };

    /// Its name.
    fn name(&self) -> &[u8]
        ensures { result.now ≡ name_of self.now };
}

/// A pair is its name.
impl Named for Bytes {
    ghost name_of = { λ name. name };

    fn name(&self) -> &[u8] {
        self.as_slice()
    }
}

impl Named for TermInfo {
    ghost name_of = { λ terminal. terminal.name };

    fn name(&self) -> &[u8] {
        self.name.as_slice()
    }
}

impl Named for ClassInfo {
    ghost name_of = { λ class. class.name };

    fn name(&self) -> &[u8] {
        self.name.as_slice()
    }
}

impl Named for FileInfo {
    ghost name_of = { λ file. file.name };

    fn name(&self) -> &[u8] {
        self.name.as_slice()
    }
}

/// The names of things, in their order.
pub fn names_of<T: Named>(alloc: Global, things: &[T]) -> Result<IndexSet<&[u8]>, Memory>
    requires { IsDistinct bytes_eq (map T.name_of things.now) }
    ensures { IfOk result (λ names. map (λ name. name.now) names.keys ≡ map T.name_of things.now) }
{
    let mut names = IndexSet::new(alloc);
    for thing in things {
        names.insert(thing.name())?;
    }
    Ok(names)
}

/// The place of a name among names.
fn place_of(names: &IndexSet<&[u8]>, name: &[u8]) -> Option<usize>
    ensures place { result ≡ position (λ other. bytes_eq other name.now) (map (λ name. name.now) names.now.keys) }
    ensures bound { IfSome result (λ place. place < length names.now.keys) }
{
    names.get_index_of(name)
}

/// The number of a name among names. It answers `Unknown` exactly where it is none of them.
#[tactic(auto, unfolding(crate::specs::Parsing::among))]
pub fn number_among(names: &IndexSet<&[u8]>, name: &[u8]) -> Result<u32, EventFault>
    requires { length names.now.keys ≤ 2 ^ 32 }
    ensures value { result ≡ among (map (λ name. name.now) names.now.keys) name.now }
    ensures bound { IfOk result (λ number. number < length names.now.keys) }
{
    match place_of(names, name) {
        Some(place) => Ok(place as u32),
        None => Err(EventFault::Unknown),
    }
}
