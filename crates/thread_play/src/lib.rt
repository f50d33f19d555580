//! Plays a script on one heap with a thread for each worker.
#![tactic(auto)]

mod play;

pub use play::play_together;
