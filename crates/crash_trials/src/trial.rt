//! The trials of a script: each stop and each fault, by each pick, with each stop of the opening after it.
use crate::base::{Base, Plain, Settings, TrialError};
use crate::difference::Difference;
use crate::reopening::{Opened, open_again};
use crate::report::{Harm, Report, Row};
use crate::running::{Run, play};
use disk_model::Pick;
use graph_model::Entry;
use slow_heap::SlowHeap;
use std::alloc::{AllocError, Global};

/// What a restart may leave of what was not synced.
const PICKS: [Pick; 4] = [Pick::Synced, Pick::Newest, Pick::AllOnes, Pick::AllOpen];

/// More writes and syncs than an opening makes.
const MOST_OPENING_CALLS: u64 = 1_000;

/// More reads than an opening makes of the images that are tried here.
const MOST_READS: u64 = 100_000;

/// Tries the script on new heaps of these settings: once with no harm, then stopped after each of its writes and syncs, then with each of these failing,
/// and then with each read failing of the opening that follows it.
pub fn try_script(alloc: Global, settings: Settings, script: &[u8]) -> Result<Report, TrialError> {
    let base = Base::of(alloc, settings, script)?;
    let mut beside = Some(Plain::new(alloc)?);
    let whole = play(alloc, &base, None, Pick::Newest, &mut beside)?;
    let Some(plain) = beside else {
        return Err(TrialError::NoMemory);
    };
    let mut report = Report {
        calls: whole.calls,
        commits: whole.commits,
        difference: whole.difference.or(plain.difference),
        rows: Vec::new(alloc),
    };
    let trial = Trial {
        alloc,
        base,
        whole,
        plain: plain.heap,
    };
    trial.try_harms(&mut report.rows)?;
    trial.try_reads(&mut report.rows)?;
    Ok(report)
}

/// A script, and what the plain heap says of it.
#[derive(Drop)]
struct Trial {
    alloc: Global,
    base: Base,
    /// The run that nothing harms.
    whole: Run,
    plain: SlowHeap,
}

impl Trial {
    /// Stops the disk after each of these calls, and then lets each fail.
    fn try_harms(&self, rows: &mut Vec<Row>) -> Result<(), AllocError> {
        let calls = self.whole.calls;
        for stop in 0..=calls {
            rows.push(self.try_harm(Harm::StopAfter(stop))?)?;
        }
        for call in 1..=calls {
            rows.push(self.try_harm(Harm::FailAt(call))?)?;
        }
        Ok(())
    }

    /// One harm, by each pick.
    fn try_harm(&self, harm: Harm) -> Result<Row, AllocError> {
        let mut row = Row::new(harm);
        for pick in &PICKS {
            let run = play(self.alloc, &self.base, Some(harm), *pick, &mut None)?;
            row.cut = run.cut;
            row.acknowledged = run.acknowledged;
            row.commits = run.commits;
            if let Some(difference) = run.difference.or(self.changed(harm, &run)) {
                row.differ(difference);
            }
            self.open_stopped(&run, *pick, &mut row)?;
        }
        Ok(row)
    }

    /// Whether a harmed run was answered otherwise than the whole one before it was cut short, or was not cut short though it had to be.
    fn changed(&self, harm: Harm, run: &Run) -> Option<Difference> {
        let events = self
            .base
            .events
            .iter()
            .filter(|event| event.is_of_session());
        for ((event, reply), whole) in events.zip(&run.replies).zip(&self.whole.replies) {
            if reply != whole {
                let entry = Entry {
                    event: *event,
                    reply: *reply,
                };
                return Some(Difference::Changed {
                    entry,
                    whole: *whole,
                });
            }
        }
        let is_harmed = match harm {
            Harm::StopAfter(stop) => stop < self.whole.calls,
            Harm::FailAt(_) => true,
            Harm::FailRead(_) => false,
        };
        if is_harmed && run.cut.is_none() {
            return Some(Difference::Missed);
        }
        None
    }

    /// Opens the heap again, stopped at each write and sync of the opening and opened once more, until it is not stopped.
    fn open_stopped(&self, run: &Run, pick: Pick, row: &mut Row) -> Result<(), AllocError> {
        for limit in 0..MOST_OPENING_CALLS {
            match self.open(&run.left, pick, limit)? {
                Opened::Stopped { left } => {
                    let again = self.open(&left, pick, MOST_OPENING_CALLS)?;
                    self.judge(again, row)?;
                }
                opened => return self.judge(opened, row),
            }
        }
        row.differ(Difference::Endless);
        Ok(())
    }

    fn open(&self, bytes: &[u8], pick: Pick, limit: u64) -> Result<Opened, AllocError> {
        let none = Vec::new(self.alloc);
        open_again(self.alloc, &self.base, bytes, pick, limit, none)
    }

    /// Compares what came back with what the plain heap says.
    fn judge(&self, opened: Opened, row: &mut Row) -> Result<(), AllocError> {
        match opened {
            Opened::Back { commits, graph } => {
                row.count(commits);
                if commits < row.acknowledged || row.commits < commits {
                    row.differ(Difference::Count { commits });
                } else if !self.is_graph(commits, &graph)? {
                    row.differ(Difference::Graph { commits });
                }
            }
            Opened::Stopped { .. } => row.differ(Difference::Endless),
            Opened::Failed { .. } => row.differ(Difference::Fault),
            Opened::Differs { difference } => row.differ(difference),
        }
        Ok(())
    }

    /// Whether that is the graph after the first `commits` sealed transactions.
    fn is_graph(&self, commits: u64, graph: &[u8]) -> Result<bool, AllocError> {
        let Ok(k) = usize::try_from(commits) else {
            return Ok(false);
        };
        if k > self.plain.sealed() {
            return Ok(false);
        }
        let text = self.plain.text(k)?;
        Ok(text.as_slice() == graph)
    }

    /// Lets each read fail of the opening that follows the whole script, and opens the heap once more, until an opening has fewer reads.
    fn try_reads(&self, rows: &mut Vec<Row>) -> Result<(), AllocError> {
        for read in 1..MOST_READS {
            let mut row = self.read_row(read);
            let done = self.try_read(read, &mut row)?;
            if !done || row.differing > 0 {
                rows.push(row)?;
            }
            if done {
                return Ok(());
            }
        }
        let mut row = self.read_row(MOST_READS);
        row.differ(Difference::Endless);
        Ok(rows.push(row)?)
    }

    /// The row of a read that fails, without a run.
    fn read_row(&self, read: u64) -> Row {
        let mut row = Row::new(Harm::FailRead(read));
        row.acknowledged = self.whole.acknowledged;
        row.commits = self.whole.commits;
        row
    }

    /// Lets one read fail, and returns whether the opening was not refused for it: then it has fewer reads, or it differs.
    fn try_read(&self, read: u64, row: &mut Row) -> Result<bool, AllocError> {
        let mut fails = Vec::new(self.alloc);
        fails.push(read)?;
        let left = &self.whole.left;
        let opened = open_again(
            self.alloc,
            &self.base,
            left,
            Pick::Synced,
            MOST_OPENING_CALLS,
            fails,
        )?;
        if let Opened::Failed { left } = opened {
            let again = self.open(&left, Pick::Synced, MOST_OPENING_CALLS)?;
            self.judge(again, row)?;
            return Ok(false);
        }
        self.judge(opened, row)?;
        Ok(true)
    }
}
