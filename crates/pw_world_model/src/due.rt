ghost use Rattle.std.specs.Prelude.{◌≡◌, ◌<◌, ◌^◌, ◌+◌, ◌-◌, IfOk, find, length, slice_index_or, slice_set};
ghost use Rattle.pw_world_model.specs.Dues.{IsOwner, count_of, due_entry_counted, due_in, first_book, if_due, is_line_of, without_fail};

use pw_base::memory::Memory;
use pw_event::due::{after_of, is_fail_of};
use pw_event::event::Event;
use pw_event::script::{FailLine, Owner, Script};
use std::alloc::Global;
use std::marker::Model;

/// A failure line that has no FAIL entry in the log yet, with its number, from 1 over the whole
/// script.
#[derive(Clone, Copy, Debug, PartialEq, Eq)]
pub struct OpenLine {
    pub number: u32,
    pub line: FailLine,
}

/// The failure lines without a FAIL entry, and how many entries belong to each pair and class, so
/// that the due line of one is found without a walk over the log. Contracts see the lines and the
/// counts.
#[derive(Debug, Drop)]
pub struct DueLines {
    waiting: Vec<OpenLine>,
    tcps: Vec<u64>,
    classes: Vec<u64>,
}

impl Model for DueLines {
    ghost use Rattle.pw_world_model.specs.Dues.{DueBook};

    ghost Value = { DueBook };

    ghost view = { λ book. record { waiting = book.waiting.items; tcps = book.tcps.items; classes = book.classes.items } };

    ghost invariant = { λ book. Unit {0} };
}

impl DueLines {
    /// The book of a log without entries, for so many pairs and classes.
    pub fn new(
        alloc: Global,
        tcps: usize,
        classes: usize,
        script: &Script,
    ) -> Result<DueLines, Memory>
        requires { length script.now.lines < 2 ^ 32 - 1 }
        ensures { IfOk result (λ book. book ≡ first_book tcps classes script.now.lines) }
    {
        let mut waiting = Vec::new(alloc);
        let mut number = 1;
        for line in script.lines.as_slice() {
            waiting.push(OpenLine {
                number,
                line: *line,
            })?;
            number += 1;
        }
        Ok(DueLines {
            waiting,
            tcps: vec![in alloc; 0u64; tcps]?,
            classes: vec![in alloc; 0u64; classes]?,
        })
    }

    /// The number of the failure line of an owner that is due.
    pub fn due(&self, owner: Owner) -> Option<u32>
        requires { IsOwner (length self.now.tcps) (length self.now.classes) owner }
        ensures { result ≡ due_in self.now owner }
    {
        if_due(self.count(owner), self.first(owner))
    }

    /// The first line of an owner without a FAIL entry.
    fn first(&self, owner: Owner) -> Option<OpenLine>
        ensures { result ≡ find (is_line_of owner) self.now.waiting }
    {
        self.waiting
            .iter()
            .copied()
            .find(|one| is_line_of(owner, one))
    }

    /// How many entries belong to an owner.
    fn count(&self, owner: Owner) -> u64
        requires { IsOwner (length self.now.tcps) (length self.now.classes) owner }
        ensures { result ≡ count_of self.now owner }
    {
        match owner {
            Owner::Tcp(tcp) => self.tcps[tcp as usize],
            Owner::Class(class) => self.classes[class as usize],
        }
    }

    /// Takes one more entry in, which belongs to this owner.
    pub fn push(&mut self, owner: Owner, event: &Event)
        requires owner { IsOwner (length self.old.tcps) (length self.old.classes) owner }
        requires room { count_of self.old owner < 2 ^ 64 - 1 }
        ensures { self.new ≡ due_entry_counted owner
            (record self.old { waiting = without_fail event.now self.old.waiting }) }
    {
        self.drop_line(event);
        match owner {
            Owner::Tcp(tcp) => add_one(&mut self.tcps, tcp),
            Owner::Class(class) => add_one(&mut self.classes, class),
        }
    }

    /// Drops the line of which this is the FAIL entry, if it is one.
    fn drop_line(&mut self, event: &Event)
        ensures { self.new ≡ record self.old { waiting = without_fail event.now self.old.waiting } }
    {
        self.waiting.retain(|one| !is_fail_of(one.number, event));
    }
}

/// One more at a place.
fn add_one(counts: &mut Vec<u64>, place: u32)
    requires place { place < length counts.old.items }
    requires room { slice_index_or counts.old.items place 0 < 2 ^ 64 - 1 }
    ensures { counts.new.items ≡ slice_set counts.old.items place
        (slice_index_or counts.old.items place 0 + 1) }
{
    counts[place as usize] += 1;
}

/// The number of a line, where there are at least as many entries as it says.
fn if_due(entries: u64, first: Option<OpenLine>) -> Option<u32>
    ensures { result ≡ if_due entries first }
{
    match first {
        Some(one) => {
            if u64::from(after_of(one.line)) <= entries {
                Some(one.number)
            } else {
                None
            }
        }
        None => None,
    }
}

/// Whether a failure line is of an owner.
fn is_line_of(owner: Owner, one: &OpenLine) -> bool
    ensures { result ≡ is_line_of owner one.now }
{
    match (one.line, owner) {
        (FailLine::Tcp { tcp, .. }, Owner::Tcp(own)) => tcp == own,
        (FailLine::Server { class, .. }, Owner::Class(own)) => class == own,
        _ => false,
    }
}
