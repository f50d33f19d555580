//! What the program can be asked to do.
use thiserror::Error;

/// What the program is asked to do.
#[derive(Clone, Copy, Debug, PartialEq, Eq)]
pub enum Command {
    /// Make an empty heap of this size.
    Format(Numbers),
    /// Play the script of standard input.
    Play {
        /// The pages of each space of a heap that is made for this run alone, if one is; from 1 to 16384.
        fresh: Option<u32>,
        /// How the disk stops, if it is to stop.
        stop: Option<Stop>,
    },
    /// Play the script of standard input with a worker for each session, one for collections, and one that forces and flushes.
    Threads {
        /// The pages of each space of a heap that is made for this run alone, if one is; from 1 to 16384.
        fresh: Option<u32>,
        /// How often an event is made in all while it is answered busy; from 1 to 1000000.
        tries: u32,
    },
    /// Print the graph that is reached from the root.
    Graph,
    /// Make a load from a number, play it, and print its summary.
    Load {
        /// The number; below 2147483648.
        seed: u32,
        /// How many rounds it has; at most 100000.
        count: u32,
        /// The pages of each space of a heap that is made for this run alone, if one is; from 1 to 16384.
        fresh: Option<u32>,
    },
}

/// The numbers that an empty heap is made from.
#[derive(Clone, Copy, Debug, PartialEq, Eq)]
pub struct Numbers {
    /// How many pages each of the two spaces has; from 1 to 16384.
    pub pages: u32,
    /// How many bytes the log has; from 64 to 1073741824.
    pub log_bytes: u32,
    /// The number of the first transaction; at least 1.
    pub first: u32,
}

/// A disk that stops, and then is restarted.
#[derive(Clone, Copy, Debug, PartialEq, Eq)]
pub struct Stop {
    /// After how many writes and syncs it stops.
    pub after: u64,
    /// After how many writes and syncs of the opening after that it stops again, if it is to do so.
    pub again: Option<u64>,
}

/// Why no command could be read.
#[derive(Clone, Copy, Debug, PartialEq, Eq, Error)]
pub enum CommandError {
    /// Out of memory.
    #[error("memory was refused")]
    NoMemory,
    /// The words are no command of the program.
    #[error("the words are no command")]
    Usage,
}
