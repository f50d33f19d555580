//! A program over the heap as a library: it opens a heap, makes events of any sessions, crashes, and continues, for any number of
//! rounds. What it promises follows from the public clauses of the heap.
ghost use Rattle.std.specs.Prelude.{◌≡◌, ℕ, IsTrue, IfOk};
ghost use Rattle.std.specs.List.{AllByRecursion};
ghost use Rattle.disk_model.specs.Disk.{Only};
ghost use Rattle.graph_model.specs.Graph.{Graph};
ghost use Rattle.graph_model.specs.History.{IsOfSession};
ghost use Rattle.heap_model.specs.Image.{StandsFor};
ghost use Rattle.library_tests.specs.Rounds.{IsRound, Rounds};

use disk_model::Disk;
use graph_model::Event;
use heap_core::{Heap, OpenError};
use std::alloc::{AllocError, Global};

/// Why a round ended.
#[derive(Clone, Copy, Debug, PartialEq, Eq)]
pub enum Halt {
    /// The heap was not opened.
    Open(OpenError),
    /// Out of memory.
    NoMemory,
}

impl From<AllocError> for Halt {
    fn from(_: AllocError) -> Self {
        Halt::NoMemory
    }
}

/// Opens the heap on the disk, makes these events, and crashes: the disk is restarted. It then stands for a commit prefix of a run of these
/// events that has all that were acknowledged or forced in it. The run made all of them unless the disk failed or stopped; then it was cut short
/// at some event. An error says nothing of the disk, which is gone.
fn round<D: Disk + Drop>(alloc: Global, disk: D, events: &[Event]) -> Result<D, Halt>
    requires { AllByRecursion IsOfSession events.now }
    ensures { IsTrue D.tells → Only (D.bytes disk) (D.may_leave disk) → (g : Graph) (k : ℕ) → StandsFor g k (D.bytes disk)
        → IfOk result (λ left. Only (D.bytes left) (D.may_leave left) × (h : Graph) × (j : ℕ) × IsRound D.Disk events.now disk g k left h j × StandsFor h j (D.bytes left)) }
{
    let mut heap = match Heap::open(alloc, disk) {
        Ok(heap) => heap,
        Err((e, _)) => return Err(Halt::Open(e)),
    };
    for event in events {
        heap.step(*event)?;
    }
    let mut disk = heap.close();
    disk.restart();
    Ok(disk)
}

/// Makes `count` rounds of these events.
pub fn rounds<D: Disk + Drop>(
    alloc: Global,
    mut disk: D,
    events: &[Event],
    count: u32,
) -> Result<D, Halt>
    requires { AllByRecursion IsOfSession events.now }
    ensures { IsTrue D.tells → Only (D.bytes disk) (D.may_leave disk) → (g : Graph) (k : ℕ) → StandsFor g k (D.bytes disk)
        → IfOk result (λ left. Only (D.bytes left) (D.may_leave left) × (h : Graph) × (j : ℕ) × Rounds D.Disk events.now disk g k count left h j × StandsFor h j (D.bytes left)) }
{
    for _i in 0..count {
        disk = round(alloc, disk, events)?;
    }
    Ok(disk)
}
