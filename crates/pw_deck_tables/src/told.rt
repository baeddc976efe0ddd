ghost use Rattle.std.specs.Prelude.{◌≡◌, ◌≤◌, ◌^◌, List, length, OnOk};
ghost use Rattle.pw_base.specs.First.{Gives};
ghost use Rattle.pw_code.specs.Valid.{HasNames, HasFew};
ghost use Rattle.pw_code.specs.declared.file.FileInfo.{FileInfo};
ghost use Rattle.pw_code.specs.declared.lock.LockRule.{LockRule};
ghost use Rattle.pw_code.specs.declared.lock.LockRule.TheVariants.{ReadersShare};
ghost use Rattle.pw_deck_tables.specs.Tables.{tables};
ghost use Rattle.pw_deck_tables.specs.Unknown.{tables_of, told_of, told_with};

use crate::objects::Objects;
use crate::tables::{enter, tables};
use crate::unknown::{events_in, failures_in, first_of_all, first_start, log_version};
use pw_base::bytes::Bytes;
use pw_base::fault::Refusal;
use pw_base::list::List;
use pw_code::lock::LockRule;
use pw_code::system::System;
use pw_event::event::Event;
use pw_event::script::{FailLine, Script};
use pw_log_lines::log::rule_of;
use pw_pathcom::objects::{first_unknown, unless};
use std::alloc::Global;
use std::mem::replace;

/// What a deck says besides its programs.
#[derive(Debug, Drop)]
pub struct DeckTables {
    /// The tables, under ReadersShare. Its lists of compiled programs and of screens are empty.
    pub system: System,
    pub script: Script,
    /// The log, read by the rule of its version.
    pub log: List<Event>,
    /// The version of the log, 1 or 2: 2 where there is none.
    pub version: u8,
}

/// The failure lines and the log of a deck.
#[derive(Drop)]
struct Lines {
    fails: List<FailLine>,
    log: List<Event>,
}

/// The failure lines and the log of a deck whose files stand in its tables. It refuses as [`tell`], and
/// leaves the tables as they are where it does not.
fn lines_in(
    alloc: Global,
    objects: &Objects,
    system: &mut System,
    programs: &[Bytes],
    servers: &[Bytes],
) -> Result<Lines, Refusal>
    requires names { (rule : LockRule) → HasNames (record system.old { rule = rule }) }
    requires counts { (rule : LockRule) → HasFew (record system.old { rule = rule }) }
    ensures told { (files : List FileInfo)
        → system.old ≡ tables objects.now.commands programs.now servers.now files ReadersShare
        → Gives (λ lines. told_with (record objects.now { files = files }) programs.now servers.now lines.fails lines.log)
        result (told_of (record objects.now { files = files }) programs.now servers.now) }
    ensures same { OnOk result (system.new ≡ system.old) }
{
    let rule = system.rule;
    let fails = failures_in(alloc, system, &objects.fail)?;
    system.rule = rule_of(log_version(&objects.log));
    let events = events_in(alloc, system, &objects.log)?;
    system.rule = rule;
    let adds = first_unknown(&objects.commands, programs, servers);
    unless(first_of_all(adds, system, objects.entries.as_slice(), &fails, &events))?;
    unless(first_start(alloc, &objects.commands, &objects.pathcom)?)?;
    Ok(Lines {
        fails: fails?,
        log: events?,
    })
}

/// What the sections of a deck say that are no source, with the names of the deck's programs of
/// terminals and of servers.
///
/// It refuses exactly with the first fault: 183 by line, for an ADD whose TCP was not added before it or
/// whose program is not there or was not set, for an ENTRIES line of a terminal that is not started, and
/// for a name or a process number of a failure line or a log line that is not there; else 185 by line,
/// for a START that may not be.
pub fn tell(
    alloc: Global,
    objects: Objects,
    programs: &[Bytes],
    servers: &[Bytes],
) -> Result<DeckTables, Refusal>
    requires few { (length programs.now ≤ 2 ^ 32) × (length servers.now ≤ 2 ^ 32) }
    requires names { (rule : LockRule) → HasNames (tables_of objects programs.now servers.now rule) }
    requires counts { (rule : LockRule) → HasFew (tables_of objects programs.now servers.now rule) }
    ensures { Gives (λ told. told) result (told_of objects.entry programs.now servers.now) }
{
    let mut objects = objects;
    let files = replace(&mut objects.files, List::new(alloc));
    let mut system = tables(
        alloc,
        &objects.commands,
        programs,
        servers,
        files,
        LockRule::ReadersShare,
    )?;
    let lines = lines_in(alloc, &objects, &mut system, programs, servers)?;
    let version = log_version(&objects.log);
    Ok(DeckTables {
        system: enter(alloc, system, objects.entries),
        script: Script { lines: lines.fails },
        log: lines.log,
        version,
    })
}
