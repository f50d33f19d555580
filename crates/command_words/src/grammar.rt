//! The table of commands that the parser of command lines takes.
ghost use Rattle.std.specs.Prelude.{◌≡◌, IfOk, Some, false};
ghost use Rattle.clap.specs.Words.{app_of, rule_of, shape_of};
ghost use Rattle.clap.specs.declared.builder.command.Command.TheViews.{out-Command};
ghost use Rattle.command_words.specs.Table.{argument, between, format_row, load_row, option, play_row, program, threads_row};

use clap::builder::ValueParser;
use clap::{Arg, Command, value_parser};
use std::alloc::{AllocError, Global};

/// The most pages of a space.
const MOST_PAGES: i64 = 16_384;

/// A required argument, at its place among the command's arguments.
fn required_argument<'a>(alloc: Global, id: &'a str, parser: ValueParser<'a>) -> Arg<'a>
    ensures rule { rule_of result ≡ argument id.entry.now parser.entry }
    ensures local { result.global ≡ false }
{
    Arg::new(alloc, id).required(true).value_parser(parser)
}

/// An optional option of that name.
fn option<'a>(alloc: Global, name: &'a str, parser: ValueParser<'a>) -> Arg<'a>
    ensures rule { rule_of result ≡ option name.entry.now parser.entry }
    ensures local { result.global ≡ false }
{
    Arg::new(alloc, name).long(name).value_parser(parser)
}

/// Numbers of pages.
fn pages<'a>() -> ValueParser<'a>
    ensures { result ≡ between 1 16384 }
{
    value_parser!(u32).range(1..=MOST_PAGES)
}

fn format_command<'a>(alloc: Global) -> Result<Command<'a>, AllocError>
    ensures row { IfOk result (λ c. shape_of c ≡ format_row) }
    ensures local { IfOk result (λ c. (out-Command c).has_globals ≡ false) }
{
    let log_bytes = value_parser!(u32).range(64..=1_073_741_824);
    let first = value_parser!(u32).range(1..);
    Command::new(alloc, "format")
        .arg(required_argument(alloc, "pages", pages()))?
        .arg(required_argument(alloc, "log_bytes", log_bytes))?
        .arg(required_argument(alloc, "first", first))
}

fn play_command<'a>(alloc: Global) -> Result<Command<'a>, AllocError>
    ensures row { IfOk result (λ c. shape_of c ≡ play_row) }
    ensures local { IfOk result (λ c. (out-Command c).has_globals ≡ false) }
{
    Command::new(alloc, "play")
        .arg(option(alloc, "fresh", pages()))?
        .arg(option(alloc, "stop", value_parser!(u64)))?
        .arg(option(alloc, "again", value_parser!(u64)))
}

fn threads_command<'a>(alloc: Global) -> Result<Command<'a>, AllocError>
    ensures row { IfOk result (λ c. shape_of c ≡ threads_row) }
    ensures local { IfOk result (λ c. (out-Command c).has_globals ≡ false) }
{
    let tries = value_parser!(u32).range(1..=1_000_000);
    Command::new(alloc, "threads")
        .arg(option(alloc, "fresh", pages()))?
        .arg(option(alloc, "tries", tries))
}

fn load_command<'a>(alloc: Global) -> Result<Command<'a>, AllocError>
    ensures row { IfOk result (λ c. shape_of c ≡ load_row) }
    ensures local { IfOk result (λ c. (out-Command c).has_globals ≡ false) }
{
    let seed = value_parser!(u32).range(0..=2_147_483_647);
    let count = value_parser!(u32).range(0..=100_000);
    Command::new(alloc, "load")
        .arg(required_argument(alloc, "seed", seed))?
        .arg(required_argument(alloc, "count", count))?
        .arg(option(alloc, "fresh", pages()))
}

/// All commands of the program. One of them is required, and neither help nor a version is among them.
pub(crate) fn program<'a>(alloc: Global) -> Result<Command<'a>, AllocError>
    ensures { IfOk result (λ c. app_of c ≡ program) }
{
    Command::new(alloc, "heap")
        .disable_help_flag(true)
        .disable_help_subcommand(true)
        .disable_version_flag(true)
        .subcommand_required(true)
        .subcommand(format_command(alloc)?)?
        .subcommand(play_command(alloc)?)?
        .subcommand(threads_command(alloc)?)?
        .subcommand(Command::new(alloc, "graph"))?
        .subcommand(load_command(alloc)?)
}
