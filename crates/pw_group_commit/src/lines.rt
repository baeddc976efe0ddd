//! A follower that writes a line for each unit.

ghost use Rattle.std.specs.Prelude.{◌≡◌, ◌++◌, ◌⊎◌, [], IfOk, IsErrOf, List, None, Ok, OnOk, Some, get_or};
ghost use Rattle.pw_base.specs.Outside.{Rose};
ghost use Rattle.pw_group_commit.specs.Lines.{WritesLines, line_of, lines_of};
ghost use Rattle.pw_group_commit.specs.declared.follower.UnitName.{UnitName};

use crate::follower::{Follower, UnitName};
use pw_base::bytes::Bytes;
use pw_base::memory::Memory;
use pw_base::sink::Sink;
use pw_base::write_all::write_all_of;
use std::alloc::Global;
use std::marker::{Brand, Model, PhantomData};

/// With how many units that wait a group is told.
const TOLD_TOGETHER: u32 = 8;

/// Which follower it is: each run picks it.
pub trait LineNaming {
    ghost use Rattle.std.specs.Prelude.{List, Option, ℕ};

    /// What its sink had got before the first line, where it tells that.
    ghost start: { Option (List ℕ) };
}

impl LineNaming for Brand {
    ghost use Rattle.std.specs.Prelude.{None};

    ghost start = { None };
}

/// Why no more lines are written.
#[derive(Clone, Copy, Debug, PartialEq, Eq)]
pub enum LineFault {
    /// The sink failed.
    Failed,
    /// Memory ran out.
    Memory,
}

/// Writes a line for each unit that it is told of to a sink, as the log has it: `COMMIT`, the name of the terminal, and the
/// unit's number. Where the sink fails, or memory runs out, it writes no more: what it has written is a beginning of the lines.
/// Contracts see what `LineState` has.
#[derive(Drop)]
pub struct LineFollower<K: Sink + Drop, N: LineNaming> {
    alloc: Global,
    sink: K,
    /// The names of the terminals.
    names: Vec<Bytes>,
    /// Why it writes no more.
    fault: Option<LineFault>,
    of: PhantomData<N>,
}

impl<K: Sink + Drop, N: LineNaming> Model for LineFollower<K, N> {
    ghost use Rattle.pw_group_commit.specs.Lines.{LineState};

    ghost Value = { LineState K };

    ghost view = { λ own. record { sink = own.sink; names = own.names.items; fault = own.fault } };
}

impl<K: Sink + Drop, N: LineNaming> LineFollower<K, N> {
    /// A follower that has written nothing.
    pub fn new(alloc: Global, sink: K, names: Vec<Bytes>) -> LineFollower<K, N>
        requires start { N.start ≡ K.written sink }
        ensures is { result ≡ record { sink = sink; names = names.items; fault = None } }
        ensures none { WritesLines (result.fault ≡ None) (lines_of result.names []) N.start (K.written result.sink) }
    {
        LineFollower {
            alloc,
            sink,
            names,
            fault: None,
            of: PhantomData,
        }
    }

    /// Why it writes no more.
    pub fn fault(&self) -> Option<LineFault>
        ensures { result ≡ self.now.fault }
    {
        self.fault
    }
}

impl<K: Sink + Drop, N: LineNaming> Follower for LineFollower<K, N> {
    ghost use Rattle.std.specs.Prelude.{◌≡◌, None};
    ghost use Rattle.pw_group_commit.specs.Lines.{WritesLines, lines_of};

    ghost was_told = { λ own told. WritesLines (own.fault ≡ None) (lines_of own.names told) N.start (K.written own.sink) };

    fn group_size(&self) -> u32 {
        TOLD_TOGETHER
    }

    fn tell(&mut self, units: &[UnitName])
        ensures told { (told : List UnitName)
            → WritesLines (self.old.fault ≡ None) (lines_of self.old.names told) N.start (K.written self.old.sink)
            → WritesLines (self.new.fault ≡ None) (lines_of self.new.names (told ++ units.now)) N.start
            (K.written self.new.sink) }
        ensures names { self.new.names ≡ self.old.names }
        ensures cause { self.new.fault ≡ Some LineFault.Failed
            → (self.old.fault ≡ Some LineFault.Failed) ⊎ Rose (K.faults self.old.sink) (K.faults self.new.sink) }
    {
        if self.fault.is_none() {
            if let Err(fault) = write_lines(
                self.alloc,
                &mut self.sink,
                self.names.as_slice(),
                units,
            ) {
                self.fault = Some(fault);
            }
        }
    }
}

/// Writes the lines of units to a sink, with the names of the terminals.
fn write_lines<K: Sink>(
    alloc: Global,
    sink: &mut K,
    names: &[Bytes],
    units: &[UnitName],
) -> Result<(), LineFault>
    ensures writes { WritesLines (result ≡ Ok tt) (lines_of names.now units.now) (K.written sink.old) (K.written sink.new) }
    ensures cause { IsErrOf result LineFault.Failed → Rose (K.faults sink.old) (K.faults sink.new) }
{
    let Ok(text) = lines_of(alloc, names, units) else {
        return Err(LineFault::Memory);
    };
    match write_all_of(sink, text.as_slice()) {
        Ok(()) => Ok(()),
        Err(_) => Err(LineFault::Failed),
    }
}

/// The lines of units, with the names of the terminals.
fn lines_of(alloc: Global, names: &[Bytes], units: &[UnitName]) -> Result<Bytes, Memory>
    ensures { IfOk result (λ text. text ≡ lines_of names.now units.now) }
{
    let mut text = Bytes::new(alloc);
    for unit in units {
        put_line(alloc, &mut text, names, unit)?;
    }
    Ok(text)
}

/// Puts the line of a unit behind a text.
fn put_line(alloc: Global, text: &mut Bytes, names: &[Bytes], unit: &UnitName) -> Result<(), Memory>
    ensures { OnOk result (text.new ≡ text.old ++ line_of names.now unit.now) }
{
    let number = format!(in alloc; " {}\n", unit.number)?;
    text.extend(b"COMMIT ")?;
    text.extend(name_at(names, unit.terminal))?;
    text.extend(number.as_bytes())
}

/// The name at a place, or nothing where there is none.
fn name_at(names: &[Bytes], place: u32) -> &[u8]
    ensures { result.now ≡ get_or names.now place [] }
{
    match names.get(place as usize) {
        Some(name) => name.as_slice(),
        None => &[],
    }
}
