//! What a field holds.
use crate::id::Id;

/// The value of a field.
#[derive(Clone, Copy, Debug, PartialEq, Eq)]
pub enum Val {
    /// No value.
    Null,
    /// A whole number below 2^62.
    Int(u64),
    /// A reference to the object of that name.
    Ref(Id),
}
