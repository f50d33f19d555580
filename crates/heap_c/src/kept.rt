//! What is kept between calls.
use heap_embed::Embedded;
use std::alloc::Global;

/// What is kept between calls.
#[derive(Drop)]
pub struct Kept {
    heap: Embedded,
}

pub fn make(alloc: Global) -> Kept {
    Kept {
        heap: Embedded::new(alloc),
    }
}

pub fn end(kept: Kept) {
    let _ended = kept;
}

pub fn call(kept: &mut Kept, op: u64, s: u64, a: u64, b: u64, c: u64) -> u64 {
    kept.heap.call(op, s, a, b, c)
}
