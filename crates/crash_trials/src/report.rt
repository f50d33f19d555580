//! What the trials of a script came to, and its table.
use crate::difference::Difference;
use graph_model::Event;
use std::alloc::{AllocError, Global};
use std::fmt;

/// How the disk of a run was harmed. Writes and syncs are counted together, without those that made the heap.
#[derive(Clone, Copy, Debug, PartialEq, Eq)]
pub enum Harm {
    /// It stopped after that many writes and syncs.
    StopAfter(u64),
    /// The write or sync of that number, from 1, failed.
    FailAt(u64),
    /// The read of that number, from 1, failed in the opening after the whole script.
    FailRead(u64),
}

impl fmt::Display for Harm {
    fn fmt<W: fmt::Write>(&self, f: &mut fmt::Formatter<W>) -> fmt::Result {
        match self {
            Harm::StopAfter(calls) => write!(f, "stop after {calls}"),
            Harm::FailAt(call) => write!(f, "fault in {call}"),
            Harm::FailRead(read) => write!(f, "read {read} fails"),
        }
    }
}

/// What the runs with one harm came to, by each pick of the restart and each stop of the opening.
#[derive(Clone, Copy, Debug, PartialEq, Eq)]
pub struct Row {
    pub harm: Harm,
    /// The event that was cut short; none if the script was played to its end.
    pub cut: Option<Event>,
    /// How many commits were acknowledged.
    pub acknowledged: u64,
    /// How many commits there were.
    pub commits: u64,
    /// How many openings were compared.
    pub runs: u64,
    /// The fewest commits that came back.
    pub least: u64,
    /// The most that did.
    pub most: u64,
    /// How many runs differed.
    pub differing: u64,
    /// How the first of them did.
    pub first: Option<Difference>,
}

impl Row {
    /// A row without a run.
    pub(crate) fn new(harm: Harm) -> Row {
        Row {
            harm,
            cut: None,
            acknowledged: 0,
            commits: 0,
            runs: 0,
            least: u64::MAX,
            most: 0,
            differing: 0,
            first: None,
        }
    }

    /// Counts an opening after which so many commits came back.
    pub(crate) fn count(&mut self, commits: u64) {
        self.runs = self.runs.saturating_add(1);
        self.least = self.least.min(commits);
        self.most = self.most.max(commits);
    }

    /// Counts a difference.
    pub(crate) fn differ(&mut self, difference: Difference) {
        self.differing = self.differing.saturating_add(1);
        if self.first.is_none() {
            self.first = Some(difference);
        }
    }
}

/// What a script is said to make.
#[derive(Clone, Copy, Debug, PartialEq, Eq)]
pub struct Expected {
    /// Its writes and syncs.
    pub calls: u64,
    /// Its commits.
    pub commits: u64,
}

/// What the trials of a script came to.
#[derive(Drop)]
pub struct Report {
    /// The writes and syncs that it makes where nothing stops it.
    pub calls: u64,
    /// Its commits then.
    pub commits: u64,
    /// How the heap answered otherwise than the plain heap then, if it did.
    pub difference: Option<Difference>,
    /// A row for each harm.
    pub rows: Vec<Row>,
}

impl Report {
    /// How many runs differed, that without a harm among them.
    pub fn differing(&self) -> u64 {
        let mut count = u64::from(self.difference.is_some());
        for row in &self.rows {
            count = count.saturating_add(row.differing);
        }
        count
    }

    /// Whether the script makes what it is said to make, and nothing differs.
    pub fn is_as(&self, expected: Expected) -> bool {
        let made = Expected {
            calls: self.calls,
            commits: self.commits,
        };
        made == expected && self.differing() == 0
    }

    /// The table of the script of that name, a line for each harm, and below it what differs.
    pub fn table(&self, alloc: Global, name: &str) -> Result<String, AllocError> {
        let mut text = String::new(alloc);
        writeln!(
            text,
            "{name}: writes and syncs {}, commits {}",
            self.calls, self.commits
        )?;
        writeln!(
            text,
            "{:<16} {:<18} {:>12} {:>8} {:>6} {:>10} {:>7}",
            "disk", "in event", "acknowledged", "commits", "runs", "came back", "differ"
        )?;
        for row in &self.rows {
            write_row(alloc, &mut text, row)?;
        }
        self.write_end(&mut text)?;
        Ok(text)
    }

    fn write_end(&self, text: &mut String) -> Result<(), AllocError> {
        if let Some(difference) = self.difference {
            writeln!(text, "without a harm: {difference}")?;
        }
        for row in &self.rows {
            if let Some(difference) = row.first {
                writeln!(text, "{}: {difference}", row.harm)?;
            }
        }
        match self.differing() {
            0 => writeln!(text, "nothing differs")?,
            count => writeln!(text, "{count} differ")?,
        }
        Ok(())
    }
}

fn write_row(alloc: Global, text: &mut String, row: &Row) -> Result<(), AllocError> {
    let harm = format!(in alloc; "{}", row.harm)?;
    let cut = match row.cut {
        Some(event) => format!(in alloc; "{event}")?,
        None => String::from_str(alloc, "-")?,
    };
    let back = if row.runs == 0 {
        String::from_str(alloc, "-")?
    } else {
        format!(in alloc; "{} to {}", row.least, row.most)?
    };
    writeln!(
        text,
        "{:<16} {:<18} {:>12} {:>8} {:>6} {:>10} {:>7}",
        harm, cut, row.acknowledged, row.commits, row.runs, back, row.differing
    )?;
    Ok(())
}
