//! Reading whole streams.
ghost use Rattle.std.specs.Prelude.{◌≡◌, ℕ, ◌+◌, ◌<◌, ◌≤◌, ◌↔◌, [], ◌++◌, length, drop, IsTrue, IsFalse, IfOk, OnOk, OnErr, IsErrOf};
ghost use Rattle.counts.specs.Count.{Rose};
ghost use Rattle.heap_io.specs.declared.reading.TakeAllError.TheVariants.{NoMemory};

use crate::{Source, SourceFailed};
use std::alloc::{AllocError, Global};

const PIECE: usize = 65536;

/// Why a stream was not read to its end.
#[derive(Clone, Copy, Debug, PartialEq, Eq)]
pub enum TakeAllError {
    /// Out of memory.
    NoMemory,
    /// A call of the source failed.
    SourceFailed,
    /// The stream has more bytes than were allowed.
    TooLong,
}

impl From<AllocError> for TakeAllError {
    ghost from_gives = { λ _ e. e ≡ NoMemory };

    fn from(_: AllocError) -> Self {
        TakeAllError::NoMemory
    }
}

/// Reads a source to its end, of at most `most` bytes. It returns for any source, since it stops as soon as there are more.
/// After an error the bytes that were read are lost, and the source still has the ones that follow.
pub fn take_all<S: Source>(
    alloc: Global,
    source: &mut S,
    most: usize,
) -> Result<Vec<u8>, TakeAllError>
    ensures all { IsTrue S.tells → IfOk result (λ bytes. bytes.items ≡ S.left source.old) }
    ensures end { IsTrue S.tells → OnOk result (S.left source.new ≡ []) }
    ensures within { IfOk result (λ bytes. length bytes.items ≤ most) }

    ensures too_long { IsTrue S.tells → IsErrOf result TakeAllError.TooLong → most < length (S.left source.old) }
    ensures rest { IsTrue S.tells → OnErr result ((k : ℕ) × (S.left source.new ≡ drop k (S.left source.old))) }

    // If no call fails and memory suffices, it finds out which.
    ensures exact { IsTrue S.tells → ¬ IsErrOf result TakeAllError.SourceFailed → ¬ IsErrOf result TakeAllError.NoMemory
        → (IsErrOf result TakeAllError.TooLong ↔ (most < length (S.left source.old))) }

    ensures failed { IsErrOf result TakeAllError.SourceFailed → Rose (S.faults source.old) (S.faults source.new) }
    ensures kept { S.faults source.old ≤ S.faults source.new }
{
    let mut buffer = new_buffer(alloc)?;
    let piece = buffer.as_mut_slice();
    let mut bytes = Vec::new(alloc);
    while take_piece(source, piece, &mut bytes, most)? {}
    Ok(bytes)
}

fn new_buffer(alloc: Global) -> Result<Vec<u8>, AllocError>
    ensures { IfOk result (λ buffer. 0 < length buffer.items) }
{
    vec![in alloc; 0u8; PIECE]
}

// Appends one piece to `bytes`, and returns whether more may come.
fn take_piece<S: Source>(
    source: &mut S,
    piece: &mut [u8],
    bytes: &mut Vec<u8>,
    most: usize,
) -> Result<bool, TakeAllError>
    requires some { 0 < length piece.old }
    requires room { length bytes.old.items ≤ most }

    ensures moved { IsTrue S.tells
        → OnOk result (bytes.old.items ++ S.left source.old ≡ bytes.new.items ++ S.left source.new) }
    ensures end { IsTrue S.tells → IfOk result (λ more. IsFalse more → S.left source.new ≡ []) }
    ensures grew { IfOk result (λ more. IsTrue more → length bytes.old.items < length bytes.new.items) }
    ensures within { OnOk result (length bytes.new.items ≤ most) }

    ensures too_long { IsTrue S.tells
        → IsErrOf result TakeAllError.TooLong → most < length bytes.old.items + length (S.left source.old) }
    ensures rest { IsTrue S.tells → OnErr result ((k : ℕ) × (S.left source.new ≡ drop k (S.left source.old))) }

    ensures failed { IsErrOf result TakeAllError.SourceFailed → Rose (S.faults source.old) (S.faults source.new) }
    ensures kept { S.faults source.old ≤ S.faults source.new }
{
    let count = match source.take(piece) {
        Ok(count) => count,
        Err(SourceFailed) => return Err(TakeAllError::SourceFailed),
    };
    if count > most - bytes.len() {
        return Err(TakeAllError::TooLong);
    }
    bytes.extend_from_slice(&piece[..count])?;
    Ok(count > 0)
}
