//! Where a handle's object stands.

/// Where the object that a handle holds stands.
#[derive(Clone, Copy, Debug, PartialEq, Eq)]
pub enum Place {
    /// At that word address of the heap.
    Stable(u32),
    /// In the volatile area of the handle's transaction, with that index.
    Volatile(u32),
}
