ghost use Rattle.std.specs.Prelude.{◌≡◌, length, IfOk};
ghost use Rattle.std.specs.List.{AllByRecursion};
ghost use Rattle.pw_event.specs.Line.{IsNamed};
ghost use Rattle.pw_report_text.specs.Blocks.{IsBlockOf};
ghost use Rattle.pw_report_text.specs.Listing.{refreshes_counted_once, files_part, records_in, report_of};

use crate::lines::{header, last_line};
use crate::parts::{print_blocks, print_files, print_log, print_screens};
use pw_base::bytes::Bytes;
use pw_base::list::List;
use pw_base::memory::Memory;
use pw_code::system::System;
use pw_event::event::Event;
use pw_onecopy::refresh::Refresh;
use pw_serial_order::block::Block;
use std::alloc::Global;

/// What a report is written of.
#[derive(Clone, Copy)]
pub struct ReportParts<'a> {
    /// The blocks of the serial order.
    pub order: &'a [Block],
    pub refreshes: &'a [Refresh],
    /// The records of each file.
    pub files: &'a [List<Bytes>],
    pub log: &'a [Event],
    /// Whether the log is finished.
    pub finished: bool,
}

/// The text of a report (docs/reference/DECK.md): of a serial order, of refreshes, each number of a terminal
/// counted once, of the records of each file, and of a log that is finished or not.
pub fn report(alloc: Global, system: &System, parts: ReportParts<'_>) -> Result<Bytes, Memory>
    requires blocks { AllByRecursion (IsBlockOf system.now) parts.order.now }
    requires files { length parts.files.now ≡ length system.now.files }
    requires named { AllByRecursion (IsNamed system.now) parts.log.now }
    ensures { IfOk result (λ text. text ≡ report_of system.now parts.entry.order.now
        (refreshes_counted_once parts.entry.refreshes.now) (records_in parts.entry.files.now) parts.entry.log.now
        parts.entry.finished) }
{
    let mut text = Bytes::new(alloc);
    text.extend(b"SERIAL\n")?;
    print_blocks(&mut text, system, parts.order)?;
    text.extend(b"SCREENS\n")?;
    print_screens(&mut text, system, parts.refreshes)?;
    text.extend(b"FILES\n")?;
    print_files(&mut text, system, parts.files)?;
    text.extend(b"LOG\n")?;
    text.extend(header(system.rule))?;
    print_log(&mut text, system, parts.log)?;
    text.extend(last_line(parts.finished))?;
    Ok(text)
}

/// The FILES part of a report: the records of each file.
pub fn files_part(alloc: Global, system: &System, files: &[List<Bytes>]) -> Result<Bytes, Memory>
    requires { length files.now ≡ length system.now.files }
    ensures { IfOk result (λ text. text ≡ files_part system.now (records_in files.now)) }
{
    let mut text = Bytes::new(alloc);
    text.extend(b"FILES\n")?;
    print_files(&mut text, system, files)?;
    Ok(text)
}
