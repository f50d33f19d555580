//! Trials of a script: it is played on a heap whose disk stops after each of its writes and syncs, or fails in one, and the heap is opened again, with
//! the opening stopped at each of its own; what comes back is compared with what the plain heap says.
#![tactic(auto)]

mod base;
mod difference;
mod reopening;
mod report;
mod running;
mod trial;

pub use base::{Settings, TrialError};
pub use difference::Difference;
pub use report::{Expected, Harm, Report, Row};
pub use trial::try_script;
