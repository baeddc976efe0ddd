ghost use Rattle.std.specs.Prelude.{◌≡◌, ◌<◌, length, slice_index_or, IfOk};
ghost use Rattle.pw_code.specs.Valid.{HasNames, HasFew};
ghost use Rattle.pw_event.specs.Line.{no_class};
ghost use Rattle.pw_event.specs.Parsing.{terminal, pair, class, file, process, among, class_names};

use crate::fault::EventFault;
use crate::fields::{counted, named};
use crate::named::{names_of, number_among};
use indexmap::IndexSet;
use pw_base::memory::Memory;
use pw_code::lock::LockRule;
use pw_code::system::System;
use std::alloc::Global;
use std::marker::Model;

/// The names of a system, made once for all the lines that are read. Contracts see the system.
#[derive(Drop)]
pub struct SystemNames<'a> {
    pub(crate) system: &'a System,
    terminals: IndexSet<&'a [u8]>,
    pairs: IndexSet<&'a [u8]>,
    classes: IndexSet<&'a [u8]>,
    files: IndexSet<&'a [u8]>,
}

impl<'a> Model for SystemNames<'a> {
    ghost use Rattle.std.specs.Prelude.{map};
    ghost use Rattle.pw_code.specs.declared.system.System.{System};
    ghost use Rattle.pw_event.specs.Reading.{AreNamesOf};

    ghost Value = { System };

    ghost view = { λ names. names.system.now };

    ghost invariant = { λ names. AreNamesOf names.system.now (map (λ name. name.now) names.terminals.keys) (map (λ name. name.now) names.pairs.keys)
        (map (λ name. name.now) names.classes.keys) (map (λ name. name.now) names.files.keys) };
}

impl<'a> SystemNames<'a> {
    /// The names of a system.
    pub fn new(alloc: Global, system: &'a System) -> Result<SystemNames<'a>, Memory>
        requires names { HasNames system.now }
        requires few { HasFew system.now }
        ensures { IfOk result (λ names. names ≡ system.now) }
    {
        let terminals = names_of(alloc, system.terminals.as_slice())?;
        let pairs = names_of(alloc, system.tcps.as_slice())?;
        let classes = names_of(alloc, system.classes.as_slice())?;
        let files = names_of(alloc, system.files.as_slice())?;
        Ok(SystemNames {
            system,
            terminals,
            pairs,
            classes,
            files,
        })
    }

    /// The system's rule of locking.
    pub(crate) fn rule(&self) -> LockRule
        ensures { result ≡ self.now.rule }
    {
        self.system.rule
    }

    /// The number of a terminal, by its name.
    #[tactic(auto, unfolding(crate::specs::Parsing::terminal))]
    pub(crate) fn terminal(&self, name: &[u8]) -> Result<u32, EventFault>
        ensures { result ≡ terminal self.now name.now }
    {
        named(name)?;
        number_among(&self.terminals, name)
    }

    /// The number of a pair, by its name as the system has it.
    pub(crate) fn pair_among(&self, name: &[u8]) -> Result<u32, EventFault>
        ensures { result ≡ among self.now.tcps name.now }
    {
        number_among(&self.pairs, name)
    }

    /// The number of a pair, by its name.
    #[tactic(auto, unfolding(crate::specs::Parsing::pair))]
    pub(crate) fn pair(&self, name: &[u8]) -> Result<u32, EventFault>
        ensures { result ≡ pair self.now name.now }
    {
        named(name)?;
        self.pair_among(name)
    }

    /// The number of a class, by its name as the system has it.
    pub(crate) fn class_among(&self, name: &[u8]) -> Result<u32, EventFault>
        ensures value { result ≡ among (class_names self.now) name.now }
        ensures there { IfOk result (λ class. class < length self.now.classes) }
    {
        number_among(&self.classes, name)
    }

    /// The number of a class, by its name.
    #[tactic(auto, unfolding(crate::specs::Parsing::class))]
    pub(crate) fn class(&self, name: &[u8]) -> Result<u32, EventFault>
        ensures value { result ≡ class self.now name.now }
        ensures there { IfOk result (λ class. class < length self.now.classes) }
    {
        named(name)?;
        self.class_among(name)
    }

    /// The number of a file, by its name.
    #[tactic(auto, unfolding(crate::specs::Parsing::file))]
    pub(crate) fn file(&self, name: &[u8]) -> Result<u32, EventFault>
        ensures { result ≡ file self.now name.now }
    {
        named(name)?;
        number_among(&self.files, name)
    }

    /// How many processes a class has.
    pub(crate) fn processes(&self, class: u32) -> u32
        requires { class < length self.now.classes }
        ensures { result ≡ (slice_index_or self.now.classes class no_class).processes }
    {
        self.system.classes.as_slice()[class as usize].processes
    }

    /// The number of a class and of one of its processes, by the name of the class and the number.
    #[tactic(auto, unfolding(crate::specs::Parsing::process))]
    pub(crate) fn process(&self, name: &[u8], number: &[u8]) -> Result<(u32, u32), EventFault>
        ensures { result ≡ process self.now name.now number.now }
    {
        named(name)?;
        let process = counted(number)?;
        let class = self.class(name)?;
        if process <= self.processes(class) {
            Ok((class, process))
        } else {
            Err(EventFault::Unknown)
        }
    }
}
