//! The bytes of a batch.
ghost use Rattle.std.specs.Prelude.{◌≡◌, ◌+◌, ◌-◌, ◌^◌, ◌<◌, ◌≤◌, ◌++◌, [], ◌∷◌, length, take, drop, slice_index, vec_len, vec_capacity, IfSome, None};
ghost use Rattle.std.specs.Int.{w32, from_le_bytes, to_le_bytes};
ghost use Rattle.log_records.specs.Record.{spellings};

use gate_slot::CLOSED;
use log_records::{BATCH_BYTES, Record};

/// Where the length of a batch will stand.
pub(crate) const NO_LENGTH: [u8; 4] = [0; 4];

/// The bytes of the records' spellings.
pub(crate) fn bytes_of(records: &[Record]) -> u64
    requires { length (spellings records.now) < 2 ^ 32 }
    ensures { result ≡ length (spellings records.now) }
{
    let mut bytes = 0;
    for rec in records {
        bytes += log_records::length(rec);
    }
    bytes
}

/// Makes a batch of the records: puts their length in front, and the next closed gate after them.
pub(crate) fn close_batch(buffer: &mut Vec<u8>)
    requires head { 4 ≤ vec_len buffer.old }
    requires small { vec_len buffer.old < 2 ^ 32 }
    requires room { vec_len buffer.old < vec_capacity buffer.old }
    ensures items { buffer.new.items ≡ to_le_bytes w32 (vec_len buffer.old - 4) ++ drop 4 buffer.old.items ++ 0 ∷ [] }
    ensures len { vec_len buffer.new ≡ vec_len buffer.old + 1 }
    ensures capacity { vec_capacity buffer.new ≡ vec_capacity buffer.old }
{
    let size = (buffer.len() - NO_LENGTH.len()) as u32;
    put_length(buffer, size);
    buffer.push_reserved(CLOSED);
}

/// Writes the length into the first four bytes.
fn put_length(buffer: &mut [u8], size: u32)
    requires { 4 ≤ length buffer.old }
    ensures { buffer.new ≡ to_le_bytes w32 size ++ drop 4 buffer.old }
{
    buffer[..4].copy_from_slice(&size.to_le_bytes());
}

/// The length field of the batch that begins with these bytes, if they reach that far.
pub(crate) fn told_length(bytes: &[u8]) -> Option<u32>
    ensures length { IfSome result (λ n. (n < 2 ^ 32) × (5 ≤ length bytes.now) × (take 4 (drop 1 bytes.now) ≡ to_le_bytes w32 n)) }
    ensures none { result ≡ None → length bytes.now < 5 }
{
    let head = bytes.first_chunk::<BATCH_BYTES>()?;
    Some(batch_length(head))
}

/// The length that a batch has behind its gate.
fn batch_length(head: &[u8; BATCH_BYTES]) -> u32
    ensures value { result ≡ from_le_bytes w32 (slice_index head.now 1 ∷ slice_index head.now 2 ∷ slice_index head.now 3 ∷ slice_index head.now 4 ∷ []) }
{
    u32::from_le_bytes([head[1], head[2], head[3], head[4]])
}
