ghost use Rattle.std.specs.Prelude.{◌≡◌, ◌≢◌, ℕ, true, [], OnOk};

use crate::chains::Chains;
use crate::index::FiledNumbers;
use crate::span::Span;
use pw_base::bytes::Bytes;
use pw_base::memory::Memory;
use std::alloc::Global;
use std::collections::BTreeMap;

/// The numbers of the locks on one file: those of points by their key, and those of spans in chains.
#[derive(Debug, Drop)]
pub struct FilePlaces {
    pub points: FiledNumbers<Bytes>,
    pub spans: Chains,
}

impl FilePlaces {
    ghost use Rattle.pw_locks.specs.Places.{is_placed};
    ghost use Rattle.pw_locks.specs.declared.span.Span.{Span as SeenSpan};

    /// No numbers. It takes no memory.
    fn new(alloc: Global) -> FilePlaces {
        FilePlaces {
            points: FiledNumbers::new(alloc),
            spans: Chains::new(alloc),
        }
    }

    /// Files the number of a lock on a span. What was filed stays, also after an `Err`.
    fn put(&mut self, alloc: Global, span: &Span, number: u64) -> Result<(), Memory>
        ensures ok { OnOk result (is_placed self.new span.now number ≡ true) }
        ensures stays { (other : SeenSpan) (n : ℕ) → is_placed self.old other n ≡ true → is_placed self.new other n ≡ true }
    {
        match span {
            Span::Point(key) => self.points.put(alloc, key.copy(alloc)?, number),
            Span::After { low, high } => self.spans.put(alloc, low, high, number),
        }
    }

    /// Takes out the number of a lock on a span. All other numbers stay. It takes no memory.
    fn take_out(&mut self, span: &Span, number: u64)
        ensures { (other : SeenSpan) (n : ℕ) → n ≢ number → is_placed self.old other n ≡ true
            → is_placed self.new other n ≡ true }
    {
        match span {
            Span::Point(key) => self.points.take_out(key, number),
            Span::After { low, .. } => self.spans.take_out(low, number),
        }
    }
}

/// The numbers of the locks on each file.
#[derive(Debug, Drop)]
pub struct Places {
    pub files: BTreeMap<u32, FilePlaces>,
}

impl Places {
    ghost use Rattle.pw_locks.specs.Places.{is_in_file};
    ghost use Rattle.pw_locks.specs.declared.span.Span.{Span as SeenSpan};

    /// No numbers. It takes no memory.
    pub fn new(alloc: Global) -> Places {
        Places {
            files: BTreeMap::new(alloc),
        }
    }

    /// Files the number of a lock on a span of a file. What was filed stays, also after an `Err`.
    pub fn put(&mut self, alloc: Global, file: u32, span: &Span, number: u64) -> Result<(), Memory>
        ensures ok { OnOk result (is_in_file self.new.files file span.now number ≡ true) }
        ensures stays { (other : ℕ) (s : SeenSpan) (n : ℕ) → is_in_file self.old.files other s n ≡ true
            → is_in_file self.new.files other s n ≡ true }
    {
        if let Some(places) = self.files.get_mut(&file) {
            return places.put(alloc, span, number);
        }
        let mut places = FilePlaces::new(alloc);
        places.put(alloc, span, number)?;
        self.files.insert(file, places)?;
        Ok(())
    }

    /// Takes out the number of a lock on a span of a file. All other numbers stay. It takes no memory.
    pub fn take_out(&mut self, file: u32, span: &Span, number: u64)
        ensures { (other : ℕ) (s : SeenSpan) (n : ℕ) → n ≢ number → is_in_file self.old.files other s n ≡ true
            → is_in_file self.new.files other s n ≡ true }
    {
        if let Some(places) = self.files.get_mut(&file) {
            places.take_out(span, number);
        }
    }
}
