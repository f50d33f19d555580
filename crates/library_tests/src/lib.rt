//! Tests of the heap as a library: a program over it, through any number of crashes; objects, sessions, openings and stored pages.
#![tactic(auto)]

mod library_loop;

pub use library_loop::{Halt, rounds};

#[cfg(test)]
mod loop_tests;
#[cfg(test)]
mod opening_tests;
#[cfg(test)]
mod reached_tests;
#[cfg(test)]
mod session_tests;
#[cfg(test)]
mod stored_tests;
#[cfg(test)]
mod trial_tests;
