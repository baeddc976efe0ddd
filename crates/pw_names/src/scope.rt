ghost use Rattle.std.specs.Prelude.{◌≡◌, is_some, slice_get, IfOk};
ghost use Rattle.std.specs.Option.{option_copied};
ghost use Rattle.pw_operands.specs.Scope.{variable_in, paragraph_of, screen_of, class_of, program_of, file_of};

use crate::outside::{Lengths, Outside};
use pw_base::memory::Memory;
use pw_code::field::ScreenTable;
use pw_code::file::FileInfo;
use pw_data::layout::Layout;
use pw_forms::statement::Paragraph;
use pw_operands::index::{Index, index_of, number_of};
use pw_operands::variable::{Variable, variable_of};
use std::alloc::Global;
use std::marker::Model;

/// A program with all that its names may stand for. Contracts see its scope, and how long the USING
/// items of each program are.
#[derive(Drop)]
pub struct NameScope<'a> {
    server: bool,
    layout: &'a Layout,
    screens: &'a [ScreenTable],
    paragraphs: &'a [Paragraph],
    outside: &'a Outside<'a>,
    screen_index: Index,
    paragraph_index: Index,
}

impl<'a> Model for NameScope<'a> {
    ghost use Rattle.pw_operands.specs.Index.{IsIndexOf};
    ghost use Rattle.pw_names.specs.Calls.{CallScope};
    ghost use Rattle.pw_forms.specs.contracts.statement.Statement as statement;
    ghost use Rattle.std.specs.Coded.{codes};

    ghost Value = { CallScope };

    ghost coded = { Prim.hlevel (codes, statement.the_row.coded) };

    ghost view = { λ found. record {
      scope = record {
        server = found.server;
        layout = found.layout.now;
        screens = found.screens.now;
        paragraphs = found.paragraphs.now;
        links = found.outside.now.links;
      };
      usings = found.outside.now.usings;
    } };

    ghost invariant = { λ found.
        IsIndexOf found.screen_index (λ screen. screen.name) found.screens.now
        × IsIndexOf found.paragraph_index (λ paragraph. paragraph.name) found.paragraphs.now };
}

impl<'a> NameScope<'a> {
    /// The scope of a program of these parts. A server has no screens.
    pub fn new(
        alloc: Global,
        server: bool,
        layout: &'a Layout,
        screens: &'a [ScreenTable],
        paragraphs: &'a [Paragraph],
        outside: &'a Outside<'a>,
    ) -> Result<NameScope<'a>, Memory>
        ensures server { IfOk result (λ found. found.scope.server ≡ server) }
        ensures layout { IfOk result (λ found. found.scope.layout ≡ layout.now) }
        ensures screens { IfOk result (λ found. found.scope.screens ≡ screens.now) }
        ensures paragraphs { IfOk result (λ found. found.scope.paragraphs ≡ paragraphs.now) }
        ensures links { IfOk result (λ found. found.scope.links ≡ outside.now.links) }
        ensures usings { IfOk result (λ found. found.usings ≡ outside.now.usings) }
    {
        Ok(NameScope {
            server,
            layout,
            screens,
            paragraphs,
            outside,
            screen_index: index_of(alloc, screens)?,
            paragraph_index: index_of(alloc, paragraphs)?,
        })
    }

    /// The paragraphs of the program.
    pub fn paragraphs(&self) -> &'a [Paragraph]
        ensures { result.now ≡ self.now.scope.paragraphs }
    {
        self.paragraphs
    }

    /// The item or register of a name.
    #[inline(always)]
    pub fn variable(&self, name: &[u8]) -> Option<Variable>
        ensures { result ≡ variable_in self.now.scope name.now }
    {
        variable_of(self.server, self.layout, name)
    }

    /// Whether there is a paragraph of the name.
    pub fn has_paragraph(&self, name: &[u8]) -> bool
        ensures { result ≡ is_some (paragraph_of self.now.scope name.now) }
    {
        number_of(&self.paragraph_index, name).is_some()
    }

    /// Whether there is a screen of the name.
    pub fn has_screen(&self, name: &[u8]) -> bool
        ensures { result ≡ is_some (screen_of self.now.scope name.now) }
    {
        number_of(&self.screen_index, name).is_some()
    }

    /// Whether there is a class of the name.
    pub fn has_class(&self, name: &[u8]) -> bool
        ensures { result ≡ is_some (class_of self.now.scope name.now) }
    {
        self.outside.class(name).is_some()
    }

    /// The number of the program of a name.
    pub fn program(&self, name: &[u8]) -> Option<usize>
        ensures { result ≡ program_of self.now.scope name.now }
    {
        self.outside.program(name)
    }

    /// The file of a name.
    pub fn file(&self, name: &[u8]) -> Option<&FileInfo>
        ensures { option_copied result ≡ file_of self.now.scope name.now }
    {
        self.outside.file(name)
    }

    /// How long the USING items of the program of a number are.
    pub fn lengths(&self, number: usize) -> Option<&Lengths>
        ensures { option_copied result ≡ slice_get self.now.usings number }
    {
        self.outside.lengths(number)
    }
}
