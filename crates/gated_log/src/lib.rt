//! A log in a part of a disk: batches of records, each behind its gate, and the pending records.
#![tactic(auto)]

mod batch;
mod log;
mod reading;

pub use log::Log;
pub use reading::{LogError, LogReader};
