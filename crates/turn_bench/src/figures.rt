//! What is made of times.
use std::time::Duration;

/// How often each is timed, alternately. The sum counts, so that a round in which the threads hardly met is one of several.
pub const ROUNDS: u32 = 5;

/// Turns a second.
pub fn rate(time: Duration, turns: u64) -> u64 {
    let micros = u64::try_from(time.as_micros()).unwrap_or(u64::MAX);
    if micros == 0 {
        return 0;
    }
    turns.saturating_mul(1_000_000) / micros
}

/// One number as a percentage of another.
pub fn percent(part: u64, whole: u64) -> u64 {
    if whole == 0 {
        return 0;
    }
    part.saturating_mul(100) / whole
}

/// How many turns so many threads make in all rounds.
pub fn all_turns(threads: usize, turns: u32) -> u64 {
    (threads as u64)
        .saturating_mul(u64::from(turns))
        .saturating_mul(u64::from(ROUNDS))
}
