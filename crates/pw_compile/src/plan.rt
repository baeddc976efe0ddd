ghost use Rattle.std.specs.Prelude.{◌≡◌, bytes_eq, position, IfOk};
ghost use Rattle.pw_compile.specs.Plan.{turn_of, planned_screen, planned_program, planned_class, file_of};
ghost use Rattle.pw_compile.specs.Emitted.{has_screen};

use crate::numbers::{add, as_number};
use pw_base::bytes::Bytes;
use pw_base::memory::Memory;
use pw_code::field::ScreenTable;
use pw_code::file::FileInfo;
use pw_code::instr::Turn;
use pw_code::links::Links;
use pw_data::layout::Layout;
use pw_forms::statement::Paragraph;
use pw_operands::index::{Index, index_of, number_of};
use std::alloc::Global;
use std::marker::Model;

/// What the code of a program goes by: its data, screens and paragraphs, where its paragraphs
/// begin and end, the number of its first screen, and what it may name besides what is its own.
/// Paragraphs and screens are looked up by their names in few steps, however many there are.
#[derive(Drop)]
pub struct Plan<'a> {
    pub layout: &'a Layout,
    screens: &'a [ScreenTable],
    pub paragraphs: &'a [Paragraph],
    turns: &'a [Turn],
    first: u32,
    links: &'a Links,
    screen_index: Index,
    paragraph_index: Index,
}

impl<'a> Model for Plan<'a> {
    ghost use Rattle.pw_compile.specs.Plan.{Plan};
    ghost use Rattle.pw_operands.specs.Index.{IsIndexOf};
    ghost use Rattle.pw_forms.specs.contracts.statement.Statement as statement;
    ghost use Rattle.std.specs.Coded.{codes};

    ghost Value = { Plan };

    ghost coded = { Prim.hlevel (codes, statement.the_row.coded) };

    ghost view = { λ plan. record {
      layout = plan.layout.now;
      screens = plan.screens.now;
      paragraphs = plan.paragraphs.now;
      turns = plan.turns.now;
      first = plan.first;
      links = plan.links.now;
    } };

    ghost invariant = { λ plan.
        IsIndexOf plan.screen_index (λ screen. screen.name) plan.screens.now
        × IsIndexOf plan.paragraph_index (λ paragraph. paragraph.name) plan.paragraphs.now };
}

/// Whether a file has this name.
fn is_file(file: &FileInfo, name: &[u8]) -> bool
    ensures { result ≡ bytes_eq file.now.name name.now }
{
    file.name.as_slice() == name
}

/// Whether a name is this one.
fn is_name(one: &Bytes, name: &[u8]) -> bool
    ensures { result ≡ bytes_eq one.now name.now }
{
    one.as_slice() == name
}

/// The place of the file of a name.
fn place_of_file(files: &[FileInfo], name: &[u8]) -> Option<usize>
    ensures { result ≡ position (λ one. bytes_eq one.name name.now) files.now }
{
    files.iter().position(|one| is_file(one, name))
}

/// The place of a name.
fn place_of_name(names: &[Bytes], name: &[u8]) -> Option<usize>
    ensures { result ≡ position (λ one. bytes_eq one name.now) names.now }
{
    names.iter().position(|one| is_name(one, name))
}

impl<'a> Plan<'a> {
    /// What the code of a program with these parts goes by.
    pub fn new(
        alloc: Global,
        layout: &'a Layout,
        screens: &'a [ScreenTable],
        paragraphs: &'a [Paragraph],
        turns: &'a [Turn],
        first: u32,
        links: &'a Links,
    ) -> Result<Plan<'a>, Memory>
        ensures { IfOk result (λ plan. plan ≡ record {
          layout = layout.now;
          screens = screens.now;
          paragraphs = paragraphs.now;
          turns = turns.now;
          first = first;
          links = links.now;
        }) }
    {
        Ok(Plan {
            layout,
            screens,
            paragraphs,
            turns,
            first,
            links,
            screen_index: index_of(alloc, screens)?,
            paragraph_index: index_of(alloc, paragraphs)?,
        })
    }

    /// The place of the paragraph of a name.
    fn place_of_paragraph(&self, name: &[u8]) -> Option<usize>
        ensures { result ≡ position (λ one. bytes_eq one.name name.now) self.now.paragraphs }
    {
        number_of(&self.paragraph_index, name)
    }

    /// The place of the screen of a name.
    fn place_of_screen(&self, name: &[u8]) -> Option<usize>
        ensures { result ≡ position (λ one. bytes_eq one.name name.now) self.now.screens }
    {
        number_of(&self.screen_index, name)
    }

    /// Where the paragraph of a name begins and ends.
    pub fn turn(&self, name: &[u8]) -> Turn
        ensures { result ≡ turn_of self.now name.now }
    {
        let number = self.place_of_paragraph(name).unwrap_or(0);
        self.turns
            .get(number)
            .copied()
            .unwrap_or(Turn { start: 0, end: 0 })
    }

    /// Whether the program has a screen of a name.
    pub fn has_screen(&self, name: &[u8]) -> bool
        ensures { result ≡ has_screen self.now.screens name.now }
    {
        self.place_of_screen(name).is_some()
    }

    /// The number of the screen of a name, through all programs.
    pub fn screen(&self, name: &[u8]) -> Result<u32, Memory>
        ensures { IfOk result (λ number. number ≡ planned_screen self.now name.now) }
    {
        let own = self.place_of_screen(name).unwrap_or(0);
        add(self.first, as_number(own)?)
    }

    /// The number of the program of a name.
    pub fn program(&self, name: &[u8]) -> Result<u32, Memory>
        ensures { IfOk result (λ number. number ≡ planned_program self.now name.now) }
    {
        as_number(place_of_name(self.links.programs.as_slice(), name).unwrap_or(0))
    }

    /// The number of the class of a name.
    pub fn class(&self, name: &[u8]) -> Result<u32, Memory>
        ensures { IfOk result (λ number. number ≡ planned_class self.now name.now) }
    {
        as_number(place_of_name(self.links.classes.as_slice(), name).unwrap_or(0))
    }

    /// The number of the file of a name.
    pub fn file(&self, name: &[u8]) -> Result<u32, Memory>
        ensures { IfOk result (λ number. number ≡ file_of self.now name.now) }
    {
        as_number(place_of_file(self.links.files.as_slice(), name).unwrap_or(0))
    }
}
