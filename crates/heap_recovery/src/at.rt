//! Where an image is damaged.
ghost use Rattle.std.specs.Prelude.{Some};
ghost use Rattle.heap_recovery.specs.At.{at_text};

use std::fmt;

/// Where an image is damaged: what comes first in the order in which it is checked.
#[derive(Clone, Copy, Debug, PartialEq, Eq)]
pub enum At {
    /// The batch at that offset in the log doesn't lie within the log or doesn't hold whole records.
    Batch(u64),
    /// The record of that LSN can't follow those before it.
    Rec(u64),
    /// The log has no room for the rollback of what was not committed.
    Reserve,
    /// The page of that number is ahead of the log.
    Page(u32),
    /// No object stands as it should at that word address.
    Address(u32),
}

impl fmt::Display for At {
    ghost output = { λ at. Some (at_text at) };

    fn fmt<W: fmt::Write>(&self, f: &mut fmt::Formatter<W>) -> fmt::Result {
        match self {
            At::Batch(offset) => write!(f, "batch {offset}"),
            At::Rec(lsn) => write!(f, "record {lsn}"),
            At::Reserve => f.write_str("reserve"),
            At::Page(page) => write!(f, "page {page}"),
            At::Address(address) => write!(f, "address {address}"),
        }
    }
}
