//! Tests of the lock, of the workers of a script, and of a script that they play on a heap, alone and in threads.
#![tactic(auto)]

#[cfg(test)]
mod heap_workers_tests;
#[cfg(test)]
mod script_workers_tests;
#[cfg(test)]
mod thread_play_tests;
#[cfg(test)]
mod turn_lock_tests;
