//! A heap is opened again on what a crash left.
use crate::base::Base;
use crate::difference::Difference;
use disk_model::{Disk, FuseDisk, Pick};
use heap_core::{GraphError, Heap, OpenError};
use std::alloc::{AllocError, Global};

/// What an opening came to.
#[derive(Drop)]
pub(crate) enum Opened {
    /// The disk stopped in it, and was restarted with these bytes.
    Stopped { left: Vec<u8> },
    /// The disk failed in it, and was restarted with these bytes.
    Failed { left: Vec<u8> },
    /// So many commits came back, with that graph.
    Back { commits: u64, graph: Vec<u8> },
    /// Neither.
    Differs { difference: Difference },
}

/// Opens the heap in these bytes, on a disk that stops after that many writes and syncs, and whose reads of these numbers fail.
pub(crate) fn open_again(
    alloc: Global,
    base: &Base,
    bytes: &[u8],
    pick: Pick,
    limit: u64,
    fail_reads: Vec<u64>,
) -> Result<Opened, AllocError> {
    let disk = base.disk(alloc, bytes, pick, Vec::new(alloc), fail_reads)?;
    match Heap::open(alloc, FuseDisk::new(disk, limit)) {
        Ok(heap) => came_back(alloc, &heap),
        Err((error, fuse)) => {
            let mut disk = fuse.into_inner();
            disk.restart();
            let left = disk.contents().to_vec(alloc)?;
            match error {
                OpenError::Stopped => Ok(Opened::Stopped { left }),
                OpenError::DiskFault => Ok(Opened::Failed { left }),
                OpenError::NoMemory => Err(AllocError),
                OpenError::NotHeap | OpenError::Damaged { .. } => Ok(Opened::Differs {
                    difference: Difference::Opening { error },
                }),
            }
        }
    }
}

fn came_back<D: Disk>(alloc: Global, heap: &Heap<D>) -> Result<Opened, AllocError> {
    if heap.failed().is_some() {
        return Ok(Opened::Differs {
            difference: Difference::Printing,
        });
    }
    let commits = heap.commits();
    match heap.graph(alloc) {
        Ok(graph) => Ok(Opened::Back { commits, graph }),
        Err(GraphError::NoMemory) => Err(AllocError),
        Err(_) => Ok(Opened::Differs {
            difference: Difference::Printing,
        }),
    }
}
