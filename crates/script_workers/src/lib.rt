//! Which worker makes which line of a script.
#![tactic(auto)]

mod cut;

pub use cut::{events_of, worker_of, workers_of};
