//! What the words of the command line ask for.
use clap::error::ErrorKind;
use clap::{Arg, ArgAction, ArgMatches, Command, value_parser};
use crash_trials::Settings;
use std::alloc::{AllocError, Global};

/// What the lab is asked to do.
#[derive(Drop)]
pub enum Asked {
    /// Try the script of standard input.
    Input {
        settings: Settings,
    },
    /// Try the scripts of these files.
    Files {
        names: Vec<String>,
        settings: Settings,
    },
    /// Try the scripts of the rows of a file.
    Rows {
        name: String,
    },
}

/// Why nothing could be asked.
#[derive(Clone, Copy, Debug, PartialEq, Eq)]
pub enum UsageError {
    NoMemory,
    Words,
}

impl From<AllocError> for UsageError {
    fn from(_: AllocError) -> UsageError {
        UsageError::NoMemory
    }
}

impl From<clap::Error> for UsageError {
    fn from(e: clap::Error) -> UsageError {
        match e.kind() {
            ErrorKind::OutOfMemory => UsageError::NoMemory,
            _ => UsageError::Words,
        }
    }
}

/// The pages of each space, and the bytes of the log, where the words say nothing else.
const DEFAULT: Settings = Settings {
    pages: 4,
    log_bytes: 16_384,
};

/// The most bytes of a log: with more, each run would take long.
const MOST_LOG: i64 = 1_048_576;

const MOST_PAGES: i64 = 1_024;

/// The file of rows, which goes with no other words.
fn rows<'a>(alloc: Global) -> Arg<'a> {
    Arg::new(alloc, "rows").long("rows").exclusive(true)
}

fn files<'a>(alloc: Global) -> Arg<'a> {
    Arg::new(alloc, "files")
        .num_args(0..)
        .action(ArgAction::Append)
}

fn program<'a>(alloc: Global) -> Result<Command<'a>, AllocError> {
    let pages = value_parser!(u32).range(1..=MOST_PAGES);
    let log = value_parser!(u32).range(64..=MOST_LOG);
    Command::new(alloc, "crash_lab")
        .arg(Arg::new(alloc, "pages").long("pages").value_parser(pages))?
        .arg(Arg::new(alloc, "log").long("log").value_parser(log))?
        .arg(rows(alloc))?
        .arg(files(alloc))
}

fn settings_of(found: &ArgMatches) -> Settings {
    let pages: Option<u32> = found.get_one("pages");
    let log_bytes: Option<u32> = found.get_one("log");
    Settings {
        pages: pages.unwrap_or(DEFAULT.pages),
        log_bytes: log_bytes.unwrap_or(DEFAULT.log_bytes),
    }
}

/// The names of the files.
fn names_of(alloc: Global, found: &ArgMatches) -> Result<Vec<String>, AllocError> {
    let mut names = Vec::new(alloc);
    if let Some(words) = found.get_strs("files") {
        for word in words {
            names.push(String::from_str(alloc, word)?)?;
        }
    }
    Ok(names)
}

/// What was found in the words. Rows have settings of their own.
fn asked_of(alloc: Global, found: &ArgMatches) -> Result<Asked, AllocError> {
    let settings = settings_of(found);
    if let Some(name) = found.get_str("rows") {
        let name = String::from_str(alloc, name)?;
        return Ok(Asked::Rows { name });
    }
    let names = names_of(alloc, found)?;
    if names.is_empty() {
        return Ok(Asked::Input { settings });
    }
    Ok(Asked::Files { names, settings })
}

/// Reads the words of the command line.
pub fn read_words(alloc: Global, words: &[String]) -> Result<Asked, UsageError> {
    let found = program(alloc)?.try_get_matches_from(words)?;
    Ok(asked_of(alloc, &found)?)
}
