//! A crash lab: tries scripts on heaps whose disks stop and fail at each of their calls, and prints what came back.
#![tactic(auto)]

mod asked;
mod rows;

use asked::{Asked, UsageError, read_words};
use crash_trials::{Expected, Report, Settings, TrialError, try_script};
use rows::{RowsError, TableRow, read_rows};
use std::alloc::{AllocError, Global};
use std::io::{self, Read};
use std::process::ExitCode;
use std::{env, fs};
use thiserror::Error;

/// Why no table was printed, or not all of them.
#[derive(Clone, Copy, Debug, PartialEq, Eq, Error)]
enum LabError {
    #[error("memory was refused")]
    NoMemory,
    #[error("usage: crash_lab [--pages PAGES] [--log BYTES] [FILE]... | crash_lab --rows FILE")]
    Usage,
    #[error("a stream can't be read or written")]
    Io,
    #[error("a file can't be read")]
    File,
    #[error("bad row {line}")]
    Rows { line: u64 },
    #[error("{0}")]
    Trial(TrialError),
}

impl LabError {
    /// The exit status.
    fn code(&self) -> u8 {
        match self {
            LabError::NoMemory | LabError::Trial(TrialError::NoMemory) => 3,
            LabError::Usage => 2,
            LabError::Io | LabError::File => 5,
            LabError::Rows { .. } | LabError::Trial(_) => 4,
        }
    }
}

impl From<AllocError> for LabError {
    fn from(_: AllocError) -> LabError {
        LabError::NoMemory
    }
}

impl From<UsageError> for LabError {
    fn from(e: UsageError) -> LabError {
        match e {
            UsageError::NoMemory => LabError::NoMemory,
            UsageError::Words => LabError::Usage,
        }
    }
}

impl From<RowsError> for LabError {
    fn from(e: RowsError) -> LabError {
        match e {
            RowsError::NoMemory => LabError::NoMemory,
            RowsError::Line { line } => LabError::Rows { line },
        }
    }
}

impl From<TrialError> for LabError {
    fn from(e: TrialError) -> LabError {
        LabError::Trial(e)
    }
}

impl From<io::Error> for LabError {
    fn from(e: io::Error) -> LabError {
        match e.kind() {
            io::ErrorKind::OutOfMemory => LabError::NoMemory,
            _ => LabError::Io,
        }
    }
}

/// The status of a run in which something differs.
const DIFFERS: u8 = 1;

/// Tries one script, prints its table, and returns whether nothing differs.
fn try_one(
    rt: &HostRuntime,
    name: &str,
    settings: Settings,
    script: &[u8],
    expected: Option<Expected>,
) -> Result<bool, LabError> {
    let report = try_script(rt.alloc(), settings, script)?;
    let table = report.table(rt.alloc(), name)?;
    print!(rt; "{table}")?;
    let Some(expected) = expected else {
        return Ok(report.differing() == 0);
    };
    print_expected(rt, &report, expected)?;
    Ok(report.is_as(expected))
}

fn print_expected(rt: &HostRuntime, report: &Report, expected: Expected) -> io::Result<()> {
    let Expected { calls, commits } = expected;
    if report.calls != calls || report.commits != commits {
        return println!(rt; "the row says: writes and syncs {calls}, commits {commits}");
    }
    Ok(())
}

/// The text of a file. Where it can't be read, its name is written on standard error.
fn text_of(rt: &HostRuntime, name: &str) -> Result<String, LabError> {
    match fs::read_to_string(rt, name) {
        Ok(text) => Ok(text),
        Err(e) if e.kind() == io::ErrorKind::OutOfMemory => Err(LabError::NoMemory),
        Err(e) => {
            // If standard error can't be written, nothing is left to report.
            let _ = eprintln!(rt; "{name}: {e}");
            Err(LabError::File)
        }
    }
}

/// Tries the script of a file.
fn try_file(
    rt: &HostRuntime,
    name: &str,
    settings: Settings,
    expected: Option<Expected>,
) -> Result<bool, LabError> {
    let script = text_of(rt, name)?;
    try_one(rt, name, settings, script.as_bytes(), expected)
}

/// Tries the script of standard input.
fn try_input(rt: &HostRuntime, settings: Settings) -> Result<bool, LabError> {
    let mut script = Vec::new(rt.alloc());
    rt.stdin().read_to_end(&mut script)?;
    try_one(rt, "-", settings, &script, None)
}

/// Tries each script, and returns whether nothing differs in any.
fn try_files(rt: &HostRuntime, names: &[String], settings: Settings) -> Result<bool, LabError> {
    let mut same = true;
    for name in names {
        same &= try_file(rt, name.as_str(), settings, None)?;
    }
    Ok(same)
}

fn try_row(rt: &HostRuntime, row: &TableRow) -> Result<bool, LabError> {
    try_file(rt, row.name.as_str(), row.settings, Some(row.expected))
}

/// Tries the rows of a file.
fn try_rows(rt: &HostRuntime, name: &str) -> Result<bool, LabError> {
    let text = text_of(rt, name)?;
    let rows = read_rows(rt.alloc(), text.as_str())?;
    let mut same = true;
    for row in &rows {
        same &= try_row(rt, row)?;
    }
    Ok(same)
}

fn try_asked(rt: &HostRuntime) -> Result<bool, LabError> {
    let words: Vec<String> = env::args(rt)?.collect(rt.alloc())?;
    match read_words(rt.alloc(), &words)? {
        Asked::Input { settings } => try_input(rt, settings),
        Asked::Files { names, settings } => try_files(rt, &names, settings),
        Asked::Rows { name } => try_rows(rt, name.as_str()),
    }
}

fn main(rt: HostRuntime) -> ExitCode {
    match try_asked(&rt) {
        Ok(true) => ExitCode::SUCCESS,
        Ok(false) => ExitCode::from(DIFFERS),
        Err(e) => {
            // If standard error can't be written, nothing is left to report.
            let _ = eprintln!(rt; "{e}");
            ExitCode::from(e.code())
        }
    }
}
