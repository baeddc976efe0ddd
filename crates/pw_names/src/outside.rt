ghost use Rattle.std.specs.Prelude.{◌≡◌, Option, option_and_then, option_map, slice_get, IfOk};
ghost use Rattle.std.specs.Option.{option_copied};
ghost use Rattle.pw_operands.specs.Scope.{first_named_number};

use pw_base::list::List;
use pw_base::memory::Memory;
use pw_code::file::FileInfo;
use pw_code::links::Links;
use pw_operands::index::{Index, index_of, number_of};
use std::alloc::Global;
use std::marker::Model;

/// How long the USING items of a program are. A name that is no item has no length.
pub type Lengths = List<Option<u32>>;

/// What the programs of a deck may name besides what is theirs, by names. Contracts see the links
/// and how long the USING items of each program are, by its number.
#[derive(Drop)]
pub struct Outside<'a> {
    links: &'a Links,
    usings: List<Lengths>,
    programs: Index,
    classes: Index,
    files: Index,
}

impl<'a> Model for Outside<'a> {
    ghost use Rattle.pw_operands.specs.Index.{IsIndexOf};
    ghost use Rattle.pw_names.specs.Outer.{Outer};

    ghost Value = { Outer };

    ghost view = { λ outside. record { links = outside.links.now; usings = outside.usings } };

    ghost invariant = { λ outside.
        IsIndexOf outside.programs (λ program. program) outside.links.now.programs
        × IsIndexOf outside.classes (λ class. class) outside.links.now.classes
        × IsIndexOf outside.files (λ file. file.name) outside.links.now.files };
}

impl<'a> Outside<'a> {
    /// What the links name, for programs with USING items of these lengths.
    pub fn new(
        alloc: Global,
        links: &'a Links,
        usings: List<Lengths>,
    ) -> Result<Outside<'a>, Memory>
        ensures links { IfOk result (λ outside. outside.links ≡ links.now) }
        ensures usings { IfOk result (λ outside. outside.usings ≡ usings) }
    {
        Ok(Outside {
            links,
            usings,
            programs: index_of(alloc, links.programs.as_slice())?,
            classes: index_of(alloc, links.classes.as_slice())?,
            files: index_of(alloc, links.files.as_slice())?,
        })
    }

    /// The number of a program.
    pub fn program(&self, name: &[u8]) -> Option<usize>
        ensures { result ≡ first_named_number (λ program. program) self.now.links.programs name.now }
    {
        number_of(&self.programs, name)
    }

    /// The number of a class.
    pub fn class(&self, name: &[u8]) -> Option<usize>
        ensures { result ≡ first_named_number (λ class. class) self.now.links.classes name.now }
    {
        number_of(&self.classes, name)
    }

    /// A file.
    pub fn file(&self, name: &[u8]) -> Option<&FileInfo>
        ensures { option_copied result ≡ option_and_then (slice_get self.now.links.files)
            (first_named_number (λ file. file.name) self.now.links.files name.now) }
    {
        self.links.files.get(number_of(&self.files, name)?)
    }

    /// How long the USING items of the program of a number are.
    pub fn lengths(&self, number: usize) -> Option<&Lengths>
        ensures { option_copied result ≡ slice_get self.now.usings number }
    {
        self.usings.get(number)
    }
}
