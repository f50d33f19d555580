//! Tests of `twin_ledger` and of the lock with two turns below it: whole plays in threads, and what the proofs do not say.
#![tactic(auto)]

#[cfg(test)]
mod gate;
#[cfg(test)]
mod twin_lock_tests;
