//! Two command lines and a script, read before anything is run.
ghost use Rattle.std.specs.Prelude.{◌≡◌, ◌⊎◌, Ok, IfOk, OnOk, IfErr, map, string_bytes};
ghost use Rattle.script_text.specs.Script.{script};
ghost use Rattle.black_box.specs.Asked.{AskPlay, AskGraph, IsReason};

use crate::given::GivenSource;
use command_words::{Command, CommandError, read_command};
use script_text::{Line, ScriptError, read_script};
use std::alloc::{AllocError, Global};

/// Why nothing was run.
#[derive(Clone, Copy, Debug, PartialEq, Eq)]
pub enum Unasked {
    /// Out of memory.
    NoMemory,
    /// The words are not those of a play on a new heap without a stop, and of a graph.
    Words,
    /// The script has its first fault at that line, from 1; 0 stands for a script that is too long.
    Script { line: u64 },
}

impl From<CommandError> for Unasked {
    ghost use Rattle.black_box.specs.Asked.{command_reason};

    ghost from_gives = { λ e why. why ≡ command_reason e };

    fn from(e: CommandError) -> Self {
        match e {
            CommandError::NoMemory => Unasked::NoMemory,
            CommandError::Usage => Unasked::Words,
        }
    }
}

impl From<ScriptError> for Unasked {
    ghost use Rattle.black_box.specs.Asked.{script_reason};

    ghost from_gives = { λ e why. why ≡ script_reason e };

    fn from(e: ScriptError) -> Self {
        match e {
            ScriptError::NoMemory => Unasked::NoMemory,
            ScriptError::Fault { line } => Unasked::Script { line },
        }
    }
}

impl From<AllocError> for Unasked {
    ghost use Rattle.black_box.specs.declared.asking.Unasked.TheVariants.{NoMemory};

    ghost from_gives = { λ _ why. why ≡ NoMemory };

    fn from(_: AllocError) -> Self {
        Unasked::NoMemory
    }
}

/// Accepts the words of a play on a new heap without a stop.
fn read_play(alloc: Global, words: &[String]) -> Result<(), Unasked>
    ensures asked { OnOk result (AskPlay (map string_bytes words.now)) }
    ensures refused { IfErr result (λ why. (why ≡ Unasked.NoMemory) ⊎ ((why ≡ Unasked.Words) × ¬ AskPlay (map string_bytes words.now))) }
{
    match read_command(alloc, words)? {
        Command::Play {
            fresh: Some(_),
            stop: None,
        } => Ok(()),
        _ => Err(Unasked::Words),
    }
}

/// Accepts the words of a graph.
fn read_graph(alloc: Global, words: &[String]) -> Result<(), Unasked>
    ensures asked { OnOk result (AskGraph (map string_bytes words.now)) }
    ensures refused { IfErr result (λ why. (why ≡ Unasked.NoMemory) ⊎ ((why ≡ Unasked.Words) × ¬ AskGraph (map string_bytes words.now))) }
{
    match read_command(alloc, words)? {
        Command::Graph => Ok(()),
        _ => Err(Unasked::Words),
    }
}

/// The lines of a script, and a source of its bytes, if the words are those of a play and a graph.
pub(crate) fn read_asked(
    alloc: Global,
    play: &[String],
    graph: &[String],
    bytes: &[u8],
) -> Result<(Vec<Line>, GivenSource), Unasked>
    ensures reads { IfOk result (λ read. script bytes.now ≡ Ok read.0.items) }
    ensures source { IfOk result (λ read. read.1 ≡ bytes.now) }
    ensures asked { OnOk result (AskPlay (map string_bytes play.now) × AskGraph (map string_bytes graph.now)) }
    ensures refused { IfErr result (λ why. IsReason why (map string_bytes play.now) (map string_bytes graph.now) bytes.now) }
{
    read_play(alloc, play)?;
    read_graph(alloc, graph)?;
    let lines = read_script(alloc, bytes)?;
    let source = GivenSource::of(alloc, bytes.to_vec(alloc)?);
    Ok((lines, source))
}
