//! Signs that workers give each other at a gate.
use crossbeam_utils::Backoff;
use std::sync::atomic::{AtomicU64, Ordering};

/// How often a worker looks for a sign before it continues without it.
const LOOKS: u32 = 1_000_000;

/// A sign that one worker gives and another one waits for.
#[derive(Drop)]
pub struct Sign {
    given: AtomicU64,
    missed: AtomicU64,
}

impl Sign {
    pub fn new() -> Sign {
        Sign {
            given: AtomicU64::new(0),
            missed: AtomicU64::new(0),
        }
    }

    pub fn give(&self) {
        self.given.store(1, Ordering::SeqCst);
    }

    /// Waits until it is given, or continues without it, so that each test ends.
    pub fn wait(&self) {
        let backoff = Backoff::new();
        for _ in 0..LOOKS {
            if self.given.load(Ordering::SeqCst) == 1 {
                return;
            }
            backoff.snooze();
        }
        self.missed.store(1, Ordering::SeqCst);
    }

    /// Whether it was given, and nobody continued without it.
    pub fn came(&self) -> bool {
        self.given.load(Ordering::SeqCst) == 1 && self.missed.load(Ordering::SeqCst) == 0
    }
}
