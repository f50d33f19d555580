//! What differs between a heap and the plain heap.
use graph_model::{Entry, Reply};
use heap_core::OpenError;
use std::fmt;

/// The first thing in which a heap was not as the plain heap says.
#[derive(Clone, Copy, Debug, PartialEq, Eq)]
pub enum Difference {
    /// An event was answered otherwise.
    Reply { entry: Entry, plain: Reply },
    /// An event was answered that the disk stopped or failed, and it had not, or not in that event.
    Cause { entry: Entry },
    /// An event was answered otherwise than where nothing harms the disk, before the disk was harmed.
    Changed { entry: Entry, whole: Reply },
    /// The script was played to its end, though the disk stopped or failed in it.
    Missed,
    /// So many commits came back, fewer than were acknowledged or more than there were.
    Count { commits: u64 },
    /// So many commits came back, and the graph is not theirs.
    Graph { commits: u64 },
    /// The heap was not opened again, and no disk had stopped or failed.
    Opening { error: OpenError },
    /// The heap was opened, though its disk failed.
    Fault,
    /// The graph of a heap that was opened could not be printed.
    Printing,
    /// An opening is stopped at each of its writes and syncs, and they have no end.
    Endless,
}

impl fmt::Display for Difference {
    fn fmt<W: fmt::Write>(&self, f: &mut fmt::Formatter<W>) -> fmt::Result {
        match self {
            Difference::Reply { entry, plain } => write!(f, "{entry}, and not {plain}"),
            Difference::Cause { entry } => write!(f, "{entry}, and the disk had not"),
            Difference::Changed { entry, whole } => write!(
                f,
                "{entry}, and without a harm {whole}"
            ),
            Difference::Missed => f.write_str("played to its end, though the disk was harmed"),
            Difference::Count { commits } => write!(f, "{commits} commits came back"),
            Difference::Graph { commits } => write!(
                f,
                "another graph than after {commits} commits"
            ),
            Difference::Opening { error } => write!(f, "no opening: {error}"),
            Difference::Fault => f.write_str("opened though the disk failed"),
            Difference::Printing => f.write_str("no graph"),
            Difference::Endless => f.write_str("an opening without an end"),
        }
    }
}
