//! Writing whole pieces.
ghost use Rattle.std.specs.Prelude.{◌≡◌, ℕ, ◌<◌, ◌++◌, length, take, IsTrue, OnOk, OnErr};
ghost use Rattle.heap_io.specs.Stream.{HasCause};

use crate::{Sink, SinkFailed};

/// Writes all of `bytes`. If a call fails, the rest isn't tried: the bytes before it are written.
pub fn put_all<K: Sink>(sink: &mut K, bytes: &[u8]) -> Result<(), SinkFailed>
    ensures all { IsTrue K.tells → OnOk result (K.written sink.new ≡ K.written sink.old ++ bytes.now) }
    ensures front { IsTrue K.tells → OnErr result
        ((k : ℕ) × (k < length bytes.now) × (K.written sink.new ≡ K.written sink.old ++ take k bytes.now)) }
    ensures cause { HasCause (K.faults sink.old) (K.faults sink.new) result }
{
    let mut done = 0;
    while done < bytes.len() {
        done += sink.put(&bytes[done..])?;
    }
    Ok(())
}
