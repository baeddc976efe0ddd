//! The words of the command line: FOLDER [--workers N] [--events N] [--follow].

use pw_base::memory::Memory;
use pw_command_line::read::read_words;
use pw_command_line::words::{Words, WordsFault};
use pw_input_output::status::Status;
use pw_workers::bounds::RunBounds;
use std::alloc::Global;
use std::env::Args;
use std::io;
use std::io::ErrorKind;

/// What the words say.
#[derive(Drop)]
pub struct StoreWords {
    /// The folder of the store, which is there.
    pub folder: String,
    /// With how many workers the run goes, and how many entries its log may have.
    pub bounds: RunBounds,
    /// Whether each unit is told once it is settled.
    pub follow: bool,
}

/// The words behind the folder.
#[derive(Drop)]
struct Options {
    /// Those of the command `run`.
    words: Vec<String>,
    /// Whether `--follow` was among them.
    follow: bool,
}

/// What the arguments of the process say: behind the program's name the folder, and then the options of `run`. An Err is
/// `Usage` where they do not, or `Memory`.
pub fn store_words(alloc: Global, arguments: io::Result<Args>) -> Result<StoreWords, Status> {
    match arguments {
        Ok(arguments) => words_of(alloc, arguments),
        Err(error) if error.kind() == ErrorKind::OutOfMemory => Err(Status::Memory),
        Err(_) => Err(Status::Usage),
    }
}

/// What the words behind the first argument say.
fn words_of(alloc: Global, mut arguments: Args) -> Result<StoreWords, Status> {
    let _name = arguments.next();
    let Some(folder) = arguments.next() else {
        return Err(Status::Usage);
    };
    let Ok(Options { words, follow }) = options_of(alloc, arguments) else {
        return Err(Status::Memory);
    };
    match read_words(alloc, words.as_slice()) {
        Ok(
            Words {
                workers,
                events,
                ..
            },
        ) => Ok(StoreWords {
            folder,
            bounds: RunBounds { workers, events },
            follow,
        }),
        Err(WordsFault::Refused) => Err(Status::Usage),
        Err(WordsFault::Memory) => Err(Status::Memory),
    }
}

/// The options behind the folder: `--follow`, and all others as those of the command `run`. Where the number of an option is
/// awaited `--follow` stays among these, which are refused so.
fn options_of(alloc: Global, mut arguments: Args) -> Result<Options, Memory> {
    let mut words = Vec::new(alloc);
    let mut follow = false;
    let mut is_awaited = false;
    words.push(format!(in alloc; "run")?)?;
    while let Some(word) = arguments.next() {
        if !follow && !is_awaited && word.as_str() == "--follow" {
            follow = true;
        } else {
            is_awaited = awaits_number(word.as_str());
            words.push(word)?;
        }
    }
    Ok(Options { words, follow })
}

/// Whether the number of an option is the next word: the option is there, and no number with it.
fn awaits_number(word: &str) -> bool {
    word.starts_with("--") && !word.contains('=')
}
