//! A line `reopen` divides a session: after it the heap is closed, and opened again for the lines that follow.
ghost use Rattle.std.specs.Prelude.{◌≡◌, ◌≢◌, [], IsTrue, IsFalse, bytes_eq};
ghost use Rattle.heap_core.specs.Refinement.{IsCore};
ghost use Rattle.heap_model.specs.Core.{Core};
ghost use Rattle.heap_model.specs.Ending.{aborting, ending};
ghost use Rattle.session_program.specs.Lines.{reopen_line};

use disk_model::Disk;
use graph_model::{FIRST_SESSION, LAST_SESSION};
use heap_core::Heap;

/// What follows a part of a session.
#[derive(Clone, Copy, Debug, PartialEq, Eq)]
pub enum Next {
    /// Nothing.
    End,
    /// The heap is to be opened again, for the lines that follow.
    Reopen,
}

/// Whether a line requests that the heap be opened again.
pub fn asks_reopen(text: &[u8]) -> bool
    ensures { result ≡ bytes_eq text.now reopen_line }
{
    matches!(text, b"reopen")
}

/// Whether a line divides the session there: it asks for that, and no session has a transaction and no records are pending, so that
/// nothing has to be done before the heap is closed.
pub fn parts_session<D: Disk>(heap: &Heap<D>, text: &[u8]) -> bool
    ensures line { IsTrue result → text.now ≡ reopen_line }
    ensures idle { (c : Core) → IsCore c heap.now → IsTrue result → ending c ≡ [] }
    ensures busy { (c : Core) → IsCore c heap.now → IsFalse result → text.now ≡ reopen_line → ending c ≢ [] }
{
    asks_reopen(text) && is_idle(heap)
}

/// Whether no session has a transaction and no records are pending.
fn is_idle<D: Disk>(heap: &Heap<D>) -> bool
    ensures idle { (c : Core) → IsCore c heap.now → IsTrue result → ending c ≡ [] }
    ensures busy { (c : Core) → IsCore c heap.now → IsFalse result → ending c ≢ [] }
{
    if heap.pending() {
        return false;
    }
    !has_transaction(heap)
}

/// Whether a session has a transaction.
fn has_transaction<D: Disk>(heap: &Heap<D>) -> bool
    ensures none { (c : Core) → IsCore c heap.now → IsFalse result → aborting c ≡ [] }
    ensures some { (c : Core) → IsCore c heap.now → IsTrue result → aborting c ≢ [] }
{
    for s in FIRST_SESSION..=LAST_SESSION {
        if heap.active(s) {
            return true;
        }
    }
    false
}
