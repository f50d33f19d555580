//! Bytes in and bytes out: streams whose calls may fail, in memory and the standard ones.
#![tactic(auto)]

mod memory_sink;
mod memory_source;
mod reading;
mod sink;
mod source;
mod standard;
mod watched;
mod writing;

pub use memory_sink::MemorySink;
pub use memory_source::MemorySource;
pub use reading::{TakeAllError, take_all};
pub use sink::{Discard, Sink, SinkFailed};
pub use source::{Source, SourceFailed};
pub use standard::{StdSink, StdSource};
pub use watched::WatchedSink;
pub use writing::put_all;
