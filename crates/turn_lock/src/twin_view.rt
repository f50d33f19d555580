//! What a table with two turns holds, and what a pass knows of both: plain data, of which the views exist in proofs alone.
use std::collections::LinkedList;

/// What a slot holds: the value, or the device.
#[derive(Drop)]
pub enum Cell<A, B> {
    OfValue(A),
    OfDevice(B),
}

/// The device, with the number of its turns, modulo 2^64.
#[derive(Drop)]
pub struct Counted<D> {
    pub device: D,
    pub turns: u64,
}

/// What a pass knows of the value's turns, of the device's turns, and of what ties the two. No value of this type is ever made.
pub struct TwinView<V, W, X> {
    pub value: V,
    pub device: W,
    pub more: X,
}

/// What a pass knows of both turns. No value of this type is ever made.
pub struct More<T, D> {
    /// The value that it took or raised last. While the value is out with it, that is the one that goes back.
    pub own: Option<T>,
    /// The device that it took last, or raised with the value since then. Once it is put back alone, this stays as it was.
    pub down: Option<D>,
    /// The device that it took, raised or put back last. Before its first turn with it, that is the one that was handed in.
    pub saw: Option<D>,
    /// What each pass that was joined into it saw of the device, and itself before.
    pub parts: LinkedList<D>,
    /// For how many untold failures of the device it answers, at most.
    pub owes: u64,
}
