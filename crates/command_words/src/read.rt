//! Reading a command from the matches of the words.
ghost use Rattle.std.specs.Prelude.{◌≡◌, Err, IfOk, None, OnOk, Some, map, string_bytes};
ghost use Rattle.clap.specs.Words.{found_of, kind_of, rows_of};
ghost use Rattle.command_words.specs.Command.{IsTaken, command, command_of, error_of, given_in, load_in, number_in, numbers_in, play_in, stop_of, threads_in};
ghost use Rattle.command_words.specs.Limits.{IsWithin};

use crate::commands::{Command, CommandError, Numbers, Stop};
use crate::grammar::program;
use clap::ArgMatches;
use clap::error::ErrorKind;
use std::alloc::{AllocError, Global};

/// How often an event is made in all while it is answered busy, unless the words say otherwise.
const TRIES: u32 = 1000;

impl From<AllocError> for CommandError {
    ghost use Rattle.command_words.specs.declared.commands.CommandError.TheVariants.{NoMemory};

    ghost from_gives = { λ e error. error ≡ NoMemory };

    fn from(_: AllocError) -> Self {
        CommandError::NoMemory
    }
}

impl From<clap::Error> for CommandError {
    ghost from_gives = { λ e error. error ≡ error_of (kind_of e) };

    fn from(e: clap::Error) -> Self {
        match e.kind() {
            ErrorKind::OutOfMemory => CommandError::NoMemory,
            _ => CommandError::Usage,
        }
    }
}

/// The number of an argument.
fn read_u32(found: &ArgMatches, id: &str) -> Option<u32>
    ensures { result ≡ number_in 32 (rows_of (found_of found.now)) id.now }
{
    found.get_one(id)
}

/// The number of an option, if it is given; nothing, if what is given is no such number.
fn given_u32(found: &ArgMatches, id: &str) -> Option<Option<u32>>
    ensures { result ≡ given_in 32 (rows_of (found_of found.now)) id.now }
{
    found.try_get_one(id).ok()
}

/// The same, for an option whose number has 64 bits.
fn given_u64(found: &ArgMatches, id: &str) -> Option<Option<u64>>
    ensures { result ≡ given_in 64 (rows_of (found_of found.now)) id.now }
{
    found.try_get_one(id).ok()
}

/// The numbers of a `format`.
fn read_numbers(format: &ArgMatches) -> Option<Numbers>
    ensures { result ≡ numbers_in (rows_of (found_of format.now)) }
{
    Some(Numbers {
        pages: read_u32(format, "pages")?,
        log_bytes: read_u32(format, "log_bytes")?,
        first: read_u32(format, "first")?,
    })
}

/// How the disk stops. If only the second stop is given, the first never comes.
fn stop_of(after: Option<u64>, again: Option<u64>) -> Option<Stop>
    ensures { result ≡ stop_of after again }
{
    match after {
        Some(after) => Some(Stop { after, again }),
        None => Some(Stop {
            after: u64::MAX,
            again: Some(again?),
        }),
    }
}

fn read_play(play: &ArgMatches) -> Option<Command>
    ensures { result ≡ play_in (rows_of (found_of play.now)) }
{
    let fresh = given_u32(play, "fresh")?;
    let stop = given_u64(play, "stop")?;
    let again = given_u64(play, "again")?;
    Some(Command::Play {
        fresh,
        stop: stop_of(stop, again),
    })
}

fn read_threads(threads: &ArgMatches) -> Option<Command>
    ensures { result ≡ threads_in (rows_of (found_of threads.now)) }
{
    Some(Command::Threads {
        fresh: given_u32(threads, "fresh")?,
        tries: given_u32(threads, "tries")?.unwrap_or(TRIES),
    })
}

fn read_load(load: &ArgMatches) -> Option<Command>
    ensures { result ≡ load_in (rows_of (found_of load.now)) }
{
    Some(Command::Load {
        seed: read_u32(load, "seed")?,
        count: read_u32(load, "count")?,
        fresh: given_u32(load, "fresh")?,
    })
}

/// The command of that name with its matches.
fn read_matches(name: &str, found: &ArgMatches) -> Option<Command>
    ensures { result ≡ command_of name.now (rows_of (found_of found.now)) }
{
    match name {
        "format" => Some(Command::Format(read_numbers(found)?)),
        "play" => read_play(found),
        "threads" => read_threads(found),
        "graph" => Some(Command::Graph),
        "load" => read_load(found),
        _ => None,
    }
}

/// The command that the words spell, of which the first is the program's name.
///
/// # Errors
///
/// `Usage` if they spell none, and `NoMemory` if memory runs out.
pub fn read_command(alloc: Global, words: &[String]) -> Result<Command, CommandError>
    ensures read { IfOk result (λ c. command (map string_bytes words.now) ≡ Some c) }
    ensures usage { result ≡ Err CommandError.Usage → command (map string_bytes words.now) ≡ None }
    // Unless memory runs out, it refuses just the words at which the parser finds a fault.
    ensures taken { OnOk result (IsTaken (map string_bytes words.now)) }
    ensures refused { result ≡ Err CommandError.Usage → ¬ IsTaken (map string_bytes words.now) }
    ensures limits { IfOk result IsWithin }
{
    let matches = program(alloc)?.try_get_matches_from(words)?;
    let (name, found) = matches.subcommand().ok_or(CommandError::Usage)?;
    read_matches(name, found).ok_or(CommandError::Usage)
}
