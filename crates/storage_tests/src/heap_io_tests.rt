//! Streams whose calls fail, read to their end and written to, and a call of each standard one.
use crate::compare::same;
use heap_io::{
    MemorySink, MemorySource, Sink, SinkFailed, Source, SourceFailed, StdSink, StdSource,
    TakeAllError, WatchedSink, put_all, take_all,
};
use std::alloc::Global;
use std::test::Fail;

/// How long a stream is, which of its calls fails, how many bytes are taken at most, and the result. The third call of a
/// long one and the second of a short one find the end.
type Read = (usize, u64, usize, Result<usize, TakeAllError>);

static READS: [Read; 11] = [
    (0, 9, 0, Ok(0)),
    (5, 9, 5, Ok(5)),
    (5, 3, 9, Ok(5)),
    (70000, 9, 70000, Ok(70000)),
    (5, 9, 4, Err(TakeAllError::TooLong)),
    (1, 9, 0, Err(TakeAllError::TooLong)),
    (70000, 9, 69999, Err(TakeAllError::TooLong)),
    (5, 1, 9, Err(TakeAllError::SourceFailed)),
    (5, 2, 9, Err(TakeAllError::SourceFailed)),
    (70000, 2, 70000, Err(TakeAllError::SourceFailed)),
    (70000, 3, 70000, Err(TakeAllError::SourceFailed)),
];

/// How many bytes are read of a stream of which one call fails.
fn read_all(alloc: Global, len: usize, fails: u64, most: usize) -> Result<usize, TakeAllError> {
    let bytes = vec![in alloc; 7u8; len]?;
    let mut source = MemorySource::of(bytes, [fails].to_vec(alloc)?);
    Ok(take_all(alloc, &mut source, most)?.len())
}

#[test]
fn reads_a_stream_to_its_end(rt: HostRuntime) {
    for (len, fails, most, want) in &READS {
        let found = read_all(rt.alloc(), *len, *fails, *most);
        same(&rt, (len, fails, found), (len, fails, *want));
    }
}

/// What each call answers, and the two bytes after it.
const TAKEN: [(Result<usize, SourceFailed>, [u8; 2]); 6] = [
    (Ok(2), *b"ab"),
    (Err(SourceFailed), *b"ab"),
    (Ok(2), *b"cd"),
    (Err(SourceFailed), *b"cd"),
    (Ok(1), *b"ed"),
    (Ok(0), *b"ed"),
];

#[test]
fn a_source_fails_in_mid_stream_and_goes_on(rt: HostRuntime) -> Result<(), Fail> {
    let bytes = b"abcde".to_vec(rt.alloc())?;
    let mut source = MemorySource::of(bytes, [2, 4].to_vec(rt.alloc())?);
    let mut into = [0u8; 2];
    for (wanted, bytes) in &TAKEN {
        let taken = source.take(&mut into);
        same(&rt, (taken, into), (*wanted, *bytes));
    }
    Ok(())
}

/// What is put, the answer, and what the sink has then. Its second call fails, and it is full after four bytes.
const PUT: [(&[u8], Result<(), SinkFailed>, &[u8]); 3] = [
    (b"ab", Ok(()), b"ab"),
    (b"cdef", Err(SinkFailed), b"ab"),
    (b"cdef", Err(SinkFailed), b"abcd"),
];

#[test]
fn a_sink_fails_in_mid_stream_and_where_it_is_full(rt: HostRuntime) -> Result<(), Fail> {
    let mut sink = MemorySink::of(rt.alloc(), 4, [2].to_vec(rt.alloc())?)?;
    for (bytes, wanted, left) in &PUT {
        let put = put_all(&mut sink, bytes);
        same(&rt, (put, sink.bytes()), (*wanted, *left));
    }
    same(&rt, sink.put(b""), Ok(0));
    Ok(())
}

#[test]
fn the_standard_sources_answer(rt: HostRuntime) {
    let mut into = [0u8; 4];
    let taken = StdSource::new(b"ab".as_slice()).take(&mut into);
    same(&rt, taken, Ok(2));
    let taken = StdSource::new(rt.stdin()).take(&mut []);
    same(&rt, taken, Ok(0));
}

#[test]
fn the_standard_sinks_answer(rt: HostRuntime) {
    same(&rt, StdSink::new(rt.stdout()).put(b""), Ok(0));
    let mut watched = WatchedSink::new(rt.stdout(), rt.stderr());
    same(&rt, watched.put(b""), Ok(0));
}
