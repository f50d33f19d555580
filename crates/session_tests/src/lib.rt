//! Tests of a session, `serve` of `session_program`: lines in odd pieces, bad ones, streams and disks that fail.
#![tactic(auto)]

#[cfg(test)]
mod pieces;
#[cfg(test)]
mod session_tests;
