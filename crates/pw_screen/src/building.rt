ghost use Rattle.std.specs.Prelude.{◌≡◌, ◌++◌, [], None, ℕ, All, IfOk, IfSome, OnOk, option_to_list};
ghost use Rattle.pw_code.specs.Fields.{IsField, IsTable};
ghost use Rattle.pw_screen.specs.declared.entry.ScreenEntry.TheVariants as Entry;
ghost use Rattle.pw_screen.specs.Entries.{IsSoundEntry};
ghost use Rattle.pw_screen.specs.Screens.{ScreensBehind, with_entry, nothing};
ghost use Rattle.pw_screen.specs.Built.{built, AreSound};

use crate::build::ScreenBuilder;
use crate::entry::ScreenEntry;
use pw_base::bytes::Bytes;
use pw_base::list::List;
use pw_base::memory::Memory;
use pw_code::field::{Field, ScreenTable};
use std::alloc::Global;
use std::mem;

/// Puts a screen behind the others, where there is one.
fn push_screen(screens: &mut Vec<ScreenTable>, screen: Option<ScreenTable>) -> Result<(), Memory>
    ensures screens { OnOk result (screens.new.items ≡ screens.old.items ++ option_to_list screen) }
    ensures sound { OnOk result ((storage : ℕ) → All (IsTable storage) screens.old.items
        → IfSome screen (IsTable storage) → All (IsTable storage) screens.new.items) }
{
    if let Some(screen) = screen {
        screens.push(screen)?;
    }
    Ok(())
}

impl ScreenBuilder {
    /// No screen.
    pub fn new(alloc: Global) -> ScreenBuilder
        ensures done { result.done.items ≡ [] }
        ensures current { result.current ≡ None }
    {
        ScreenBuilder {
            done: Vec::new(alloc),
            current: None,
        }
    }

    /// Begins a screen.
    fn begin(&mut self, alloc: Global, name: Bytes) -> Result<(), Memory>
        ensures built { OnOk result ((rest : ScreensBehind)
            → built self.new rest ≡ built self.old (with_entry (ScreenEntry.Screen name) rest)) }
        ensures sound { OnOk result ((storage : ℕ)
            → AreSound storage self.old → AreSound storage self.new) }
    {
        let begun = ScreenTable {
            name,
            fields: List::new(alloc),
        };
        let before = mem::replace(&mut self.current, Some(begun));
        push_screen(&mut self.done, before)?;
        Ok(())
    }

    /// Puts a field behind those of the screen that has begun, where one has.
    fn push_field(&mut self, field: Field) -> Result<(), Memory>
        ensures built { OnOk result ((rest : ScreensBehind)
            → built self.new rest ≡ built self.old (with_entry (ScreenEntry.Field field) rest)) }
        ensures sound { OnOk result ((storage : ℕ) → IsField storage field
            → AreSound storage self.old → AreSound storage self.new) }
    {
        if let Some(screen) = &mut self.current {
            screen.fields.push(field)?;
        }
        Ok(())
    }

    /// Puts an entry behind the others.
    pub fn put(&mut self, alloc: Global, entry: ScreenEntry) -> Result<(), Memory>
        ensures built { OnOk result ((rest : ScreensBehind)
            → built self.new rest ≡ built self.old (with_entry entry rest)) }
        ensures sound { OnOk result ((storage : ℕ) → IsSoundEntry storage entry
            → AreSound storage self.old → AreSound storage self.new) }
    {
        match entry {
            ScreenEntry::Screen(name) => self.begin(alloc, name),
            ScreenEntry::Field(field) => self.push_field(field),
            ScreenEntry::Refused(_) => Ok(()),
        }
    }

    /// The screens.
    pub fn finish(self) -> Result<Vec<ScreenTable>, Memory>
        ensures built { IfOk result (λ tables. tables.items ≡ built self nothing) }
        ensures sound { IfOk result (λ tables. (storage : ℕ)
            → AreSound storage self → All (IsTable storage) tables.items) }
    {
        let ScreenBuilder { mut done, current } = self;
        push_screen(&mut done, current)?;
        Ok(done)
    }
}
