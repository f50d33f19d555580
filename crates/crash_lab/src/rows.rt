//! Rows of scripts with what each is to make: a line for each, with the file's name, the pages of each space, the bytes of the log, the writes and syncs,
//! and the commits.
use crash_trials::{Expected, Settings};
use std::alloc::{AllocError, Global};

/// A script of a file, what it is tried on, and what it is to make.
#[derive(Drop)]
pub struct TableRow {
    pub name: String,
    pub settings: Settings,
    pub expected: Expected,
}

/// Why rows were not read.
#[derive(Clone, Copy, Debug, PartialEq, Eq)]
pub enum RowsError {
    NoMemory,
    /// The number of the first bad line, from 1.
    Line { line: u64 },
}

impl From<AllocError> for RowsError {
    fn from(_: AllocError) -> RowsError {
        RowsError::NoMemory
    }
}

/// Reads the rows.
pub fn read_rows(alloc: Global, text: &str) -> Result<Vec<TableRow>, RowsError> {
    let mut rows = Vec::new(alloc);
    let mut line: u64 = 0;
    for words in text.lines() {
        line = line.saturating_add(1);
        let row = read_row(alloc, words)?.ok_or(RowsError::Line { line })?;
        push(&mut rows, row)?;
    }
    // A table without a row tries nothing, and would say that all is well.
    if rows.is_empty() {
        return Err(RowsError::Line { line: 1 });
    }
    Ok(rows)
}

fn push(rows: &mut Vec<TableRow>, row: TableRow) -> Result<(), AllocError> {
    rows.push(row)?;
    Ok(())
}

/// Reads a row, if that is one.
fn read_row(alloc: Global, text: &str) -> Result<Option<TableRow>, AllocError> {
    let mut words = text.split_whitespace();
    let Some(name) = words.next() else {
        return Ok(None);
    };
    let name = String::from_str(alloc, name)?;
    let row = match (
        number(words.next()),
        number(words.next()),
        number(words.next()),
        number(words.next()),
        words.next(),
    ) {
        (Some(pages), Some(log_bytes), Some(calls), Some(commits), None) => {
            row_of(name, pages, log_bytes, Expected { calls, commits })
        }
        _ => None,
    };
    Ok(row)
}

fn row_of(name: String, pages: u64, log_bytes: u64, expected: Expected) -> Option<TableRow> {
    let settings = Settings {
        pages: u32::try_from(pages).ok()?,
        log_bytes: u32::try_from(log_bytes).ok()?,
    };
    Some(TableRow {
        name,
        settings,
        expected,
    })
}

fn number(word: Option<&str>) -> Option<u64> {
    word?.parse::<u64>().ok()
}
