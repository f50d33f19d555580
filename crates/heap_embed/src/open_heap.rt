//! An open heap on a disk in memory, whose record is what its host is told.
ghost use Rattle.std.specs.Prelude.{◌≡◌, ◌↔◌, [], IfOk, IfErr, IsTrue, IsFalse, Err};
ghost use Rattle.disk_model.specs.Memory.{now_of, begun_anew};
ghost use Rattle.heap_core.specs.Causes.{recovery_error};
ghost use Rattle.heap_recovery.specs.Opens.{OpensImage};
ghost use Rattle.disk_model.specs.declared.memory.Pick.TheVariants.{Newest};
ghost use Rattle.graph_model.specs.History.{IsOfSession};
ghost use Rattle.heap_engine.specs.EngineState.{LiesWithin};

use crate::host_disk::HostDisk;
use disk_model::{Disk, MemoryDisk};
use graph_model::{Event, Reply};
use heap_core::{Heap, HeapCore, OpenError};
use std::alloc::{AllocError, Global};

/// An open heap on a disk in memory, whose record is what its host is told.
#[derive(Drop)]
pub struct OpenHeap {
    core: HeapCore,
    disk: MemoryDisk,
    ghost inside: { LiesWithin core.engine (⟦<MemoryDisk as Disk>⟧.extent disk) },
    ghost picks: { disk.pick ≡ Newest },
}

impl OpenHeap {
    ghost use Rattle.heap_embed.specs.OpenHeaps.{MakesStep, StaysHeap, WasOpened};

    /// Opens the heap on the disk. An error gives the disk back.
    pub fn open(alloc: Global, disk: HostDisk) -> Result<OpenHeap, (OpenError, HostDisk)>
        ensures opened { IfOk result (λ heap. WasOpened ⟦<MemoryDisk as Disk>⟧ disk.disk heap.core heap.disk) }
        ensures refused { IfErr result (λ e. OpensImage ⟦<MemoryDisk as Disk>⟧ disk.disk e.1.disk (Err (recovery_error e.0))) }
    {
        match Heap::open(alloc, disk.disk) {
            Ok(heap) => {
                let (core, disk) = heap.into_parts();
                Ok(OpenHeap { core, disk })
            }
            Err((e, disk)) => Err((e, HostDisk { disk })),
        }
    }

    /// Makes one step, as `Heap::step` does, and returns the reply.
    pub fn step(&mut self, event: Event) -> Result<Reply, AllocError>
        requires { IsOfSession event }
        ensures { MakesStep ⟦<MemoryDisk as Disk>⟧ self.old.core self.old.disk event result self.new.core self.new.disk }
    {
        self.core.step_on(&mut self.disk, event)
    }

    /// Forgets what was told, where nothing is pending: all of it is on the host's disk.
    pub fn forget(&mut self) -> bool
        ensures core { self.new.core ≡ self.old.core }
        ensures heap { StaysHeap ⟦<MemoryDisk as Disk>⟧ self.old.core self.old.disk self.new.core self.new.disk }
        ensures pending { IsTrue result ↔ ((now_of self.old.disk).pending ≡ []) }
        ensures anew { IsTrue result → self.new.disk ≡ begun_anew self.old.disk }
        ensures kept { IsFalse result → self.new ≡ self.old }
    {
        self.disk.forget()
    }

    /// What it keeps in memory.
    pub fn core(&self) -> &HeapCore
        ensures { result.now ≡ self.now.core }
    {
        &self.core
    }

    /// The disk, with what was told.
    pub fn disk(&self) -> &MemoryDisk
        ensures { result.now ≡ self.now.disk }
    {
        &self.disk
    }

    /// Gives the disk back.
    pub fn close(self) -> HostDisk
        ensures { result.disk ≡ self.disk }
    {
        let OpenHeap { core: _, disk } = self;
        HostDisk { disk }
    }
}
