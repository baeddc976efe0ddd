ghost use Rattle.std.specs.Prelude.{◌≡◌, Err, IfOk, None, false, true, map, string_bytes};
ghost use Rattle.clap.specs.Words.{app_of, found_of, matches_of, one_of, rows_of, rule_of, takes};
ghost use Rattle.pw_command_line.specs.CommandLine.{AreOptionsInRange, IsNumberIn, ReadsCommandLine, command_in, command_named, command_rule, number_of_option, option_rule, pathway_app};

use crate::words::{Command, Words, WordsFault};
use clap::builder::ValueParser;
use clap::error::ErrorKind;
use clap::{Arg, ArgAction, ArgMatches};
use std::alloc::{AllocError, Global};

/// The most entries of a run.
const MAX_EVENTS: u64 = 500_000;

/// Reads the words behind the program's name: what they say, or `Refused` exactly where they are not
/// the command's.
///
/// The words are `COMMAND [--workers N] [--events N] [--seed N] [--terms N] [--at N]`, where options
/// may stand before the command too (docs/guide/COMMANDS.md). An option that they lack has its default.
/// The clause `taken` is what `clap` says of words that it takes: they are refused where COMMAND is
/// no command alone.
pub fn read_words(alloc: Global, words: &[String]) -> Result<Words, WordsFault>
    ensures reads { ReadsCommandLine (map string_bytes words.now) result }
    ensures ranges { IfOk result AreOptionsInRange }
    ensures taken { takes pathway_app (map string_bytes words.now) ≡ true → result ≡ Err WordsFault.Refused
        → command_in (matches_of pathway_app (map string_bytes words.now)) ≡ None }
{
    let matches = match simple_command(alloc)?.try_get_matches_from(words) {
        Ok(matches) => matches,
        Err(error) => {
            return Err(if error.kind() == ErrorKind::OutOfMemory {
                WordsFault::Memory
            } else {
                WordsFault::Refused
            });
        }
    };
    let Some(command) = command_in(&matches) else {
        return Err(WordsFault::Refused);
    };
    Ok(Words {
        command,
        workers: number(&matches, "workers") as u8,
        events: number(&matches, "events"),
        seed: number(&matches, "seed"),
        terms: number(&matches, "terms"),
        at: number(&matches, "at"),
    })
}

/// The command as `clap` knows it: a word that has to be there, and five options.
fn simple_command<'a>(alloc: Global) -> Result<clap::Command<'a>, AllocError>
    ensures { IfOk result (λ command. app_of command ≡ pathway_app) }
{
    let pathway = clap::Command::new(alloc, "pathway")
        .no_binary_name(true)
        .disable_help_flag(true)
        .arg(command_word(alloc))?
        .arg(option(alloc, "workers", 1, 16, "2"))?
        .arg(option(alloc, "events", 1, MAX_EVENTS, "100000"))?
        .arg(option(alloc, "seed", 0, 4_294_967_295, "1"))?
        .arg(option(alloc, "terms", 1, 64, "8"))?
        .arg(option(alloc, "at", 0, MAX_EVENTS, "0"))?;
    Ok(pathway)
}

/// The word COMMAND.
fn command_word<'a>(alloc: Global) -> Arg<'a>
    ensures rule { rule_of result ≡ command_rule }
    ensures local { result.global ≡ false }
{
    Arg::new(alloc, "command")
        .required(true)
        .action(ArgAction::Set)
}

/// The option `--name N`, where N is a number from `low` to `high`.
fn option<'a>(alloc: Global, name: &'a str, low: u64, high: u64, usual: &'a str) -> Arg<'a>
    ensures rule { rule_of result ≡ option_rule name.entry.now low high usual.entry.now }
    ensures local { result.global ≡ false }
{
    Arg::new(alloc, name)
        .long(name)
        .action(ArgAction::Set)
        .value_parser(ValueParser::Unsigned(low, high))
        .default_value(usual)
}

/// The command that the matches name.
fn command_in(matches: &ArgMatches) -> Option<Command>
    ensures { result ≡ command_in (rows_of (found_of matches.now)) }
{
    match matches.get_str("command") {
        Some(text) => command_named(text),
        None => None,
    }
}

/// The command of this name, written exactly.
fn command_named(text: &str) -> Option<Command>
    ensures { result ≡ command_named text.now }
{
    match text {
        "run" => Some(Command::Run),
        "trial" => Some(Command::Trial),
        "check" => Some(Command::Check),
        "verify" => Some(Command::Verify),
        "gen" => Some(Command::Gen),
        "disc" => Some(Command::Disc),
        "trail" => Some(Command::Trail),
        "status" => Some(Command::Status),
        "expand" => Some(Command::Expand),
        _ => None,
    }
}

/// The number of an option, whose text `clap` has let through.
fn number(matches: &ArgMatches, name: &str) -> u32
    requires { IsNumberIn 0 4294967295 (one_of name.now (rows_of (found_of matches.now))) }
    ensures { result ≡ number_of_option (one_of name.now (rows_of (found_of matches.now))) }
{
    let Some(number) = matches.get_one::<u32>(name) else {
        unreachable!()
    };
    number
}
