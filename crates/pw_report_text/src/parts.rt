ghost use Rattle.std.specs.Prelude.{◌≡◌, ◌<◌, ◌+◌, ◌++◌, length, OnOk};
ghost use Rattle.std.specs.List.{AllByRecursion};
ghost use Rattle.pw_event.specs.Line.{IsNamed, file_name};
ghost use Rattle.pw_report_text.specs.Blocks.{IsBlockOf};
ghost use Rattle.pw_report_text.specs.Lines.{block_lines, entry_lines, file_part, record_lines, refresh_parts};
ghost use Rattle.std.specs.BTreeSet.{contains};
ghost use Rattle.pw_report_text.specs.Numbers.{first_part, is_seen, number_cmp, number_of_refresh};
ghost use Rattle.pw_onecopy.specs.declared.refresh.Refresh.{Refresh as SeenRefresh};
ghost use Rattle.pw_report_text.specs.Listing.{refreshes_counted_once, files_to, records_in, screens_to};

use crate::lines::{print_block, print_entry, print_file_name, print_record, print_refresh};
use crate::numbers::{ListedRefreshNumber, number_of};
use pw_base::bytes::Bytes;
use pw_base::list::List;
use pw_base::memory::Memory;
use pw_code::system::System;
use pw_event::event::Event;
use pw_event::names::file_name;
use pw_onecopy::refresh::Refresh;
use pw_serial_order::block::Block;
use std::collections::BTreeSet;

/// Puts the lines of blocks behind the text. An `Err` of this and of the other calls may leave a part
/// of them there.
pub fn print_blocks(text: &mut Bytes, system: &System, order: &[Block]) -> Result<(), Memory>
    requires { AllByRecursion (IsBlockOf system.now) order.now }
    ensures { OnOk result (text.new ≡ text.old ++ block_lines system.now order.now) }
{
    for block in order {
        print_block(text, system, block)?;
    }
    Ok(())
}

/// Puts the screens of every terminal behind the text, terminal after terminal.
pub fn print_screens(text: &mut Bytes, system: &System, refreshes: &[Refresh]) -> Result<(), Memory>
    ensures { OnOk result (text.new ≡ text.old
        ++ screens_to system.now (refreshes_counted_once refreshes.now) (length system.now.terminals)) }
{
    let count = u32::try_from(system.terminals.len()).map_err(|_| Memory)?;
    for terminal in 0..count {
        print_screens_of(text, system, refreshes, terminal)?;
    }
    Ok(())
}

/// Puts the screens of one terminal behind the text, from the refreshes of all: each refresh number
/// at its first refresh.
fn print_screens_of(
    text: &mut Bytes,
    system: &System,
    refreshes: &[Refresh],
    terminal: u32,
) -> Result<(), Memory>
    requires { terminal < length system.now.terminals }
    ensures { OnOk result (text.new ≡ text.old
        ++ refresh_parts system.now (refreshes_counted_once refreshes.now terminal)) }
{
    let mut seen: BTreeSet<ListedRefreshNumber> = BTreeSet::new(text.allocator());
    for refresh in refreshes {
        print_screen(text, system, refresh, terminal, &mut seen)?;
    }
    Ok(())
}

/// Puts a screen of the terminal behind the text where its number was not seen before.
fn print_screen(
    text: &mut Bytes,
    system: &System,
    refresh: &Refresh,
    terminal: u32,
    seen: &mut BTreeSet<ListedRefreshNumber>,
) -> Result<(), Memory>
    requires { terminal < length system.now.terminals }
    ensures text { OnOk result (text.new
        ≡ text.old ++ first_part system.now terminal seen.old refresh.now) }
    ensures seen { OnOk result ((r : SeenRefresh) → contains number_cmp seen.new (number_of_refresh r)
        ≡ is_seen terminal refresh.now seen.old r) }
{
    if refresh.terminal != terminal {
        return Ok(());
    }
    if seen.insert(number_of(refresh))? {
        print_refresh(text, system, refresh)?;
    }
    Ok(())
}

/// Puts the files behind the text, each with its records.
pub fn print_files(text: &mut Bytes, system: &System, files: &[List<Bytes>]) -> Result<(), Memory>
    requires { length files.now ≡ length system.now.files }
    ensures { OnOk result (text.new ≡ text.old
        ++ files_to system.now (records_in files.now) (length system.now.files)) }
{
    let count = u32::try_from(files.len()).map_err(|_| Memory)?;
    for file in 0..count {
        print_file_name(text, file_name(system, file))?;
        print_records(text, files[file as usize].as_slice())?;
    }
    Ok(())
}

/// Puts the lines of records behind the text.
fn print_records(text: &mut Bytes, records: &[Bytes]) -> Result<(), Memory>
    ensures { OnOk result (text.new ≡ text.old ++ record_lines records.now) }
{
    for content in records {
        print_record(text, content.as_slice())?;
    }
    Ok(())
}

/// Puts the log's lines behind the text, numbered from 1.
pub fn print_log(text: &mut Bytes, system: &System, log: &[Event]) -> Result<(), Memory>
    requires { AllByRecursion (IsNamed system.now) log.now }
    ensures { OnOk result (text.new ≡ text.old ++ entry_lines system.now 1 log.now) }
{
    for (place, entry) in log.iter().enumerate() {
        print_entry(text, system, place + 1, entry)?;
    }
    Ok(())
}
