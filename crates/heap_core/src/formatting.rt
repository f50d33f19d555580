//! Makes an empty heap on a disk.
ghost use Rattle.std.specs.Prelude.{◌≡◌, ℕ, ◌+◌, ◌-◌, ◌<◌, ◌≤◌, List, [], replicate, IsTrue, Err, IfOk, IfErr, IsErrAnd, OnOk};
ghost use Rattle.disk_model.specs.Disk.{Only, WidensBy, SameOutside};
ghost use Rattle.disk_model.specs.Keeps.{KeepsDisk};
ghost use Rattle.disk_model.specs.Moments.{LeavesOnly};
ghost use Rattle.gate_slot.specs.Passing.{Passes};
ghost use Rattle.image_plan.specs.Plan.{image_size};
ghost use Rattle.image_plan.specs.Super.{IsSuper};
ghost use Rattle.heap_core.specs.declared.errors.FormatError.TheVariants.{TooSmall};
ghost use Rattle.heap_core.specs.Format.{AreZero, IsEmptyHeap, IsFormatting, heap_of, zero_writes, format_calls};
ghost use Rattle.heap_core.specs.GivenBack.{given_back, made_device, device_result, IsFromDisk};
ghost use Rattle.heap_model.specs.Image.{IsLegal};
ghost use Rattle.heap_model.specs.NewHeap.{new_heap};

use crate::errors::FormatError;
use crate::heap::Heap;
use disk_model::{Disk, DiskError};
use gate_slot::{close_gate, fill_and_open};
use image_plan::{SUPER_BYTES, Super, write_super};

/// The bytes of each write of a format.
const PIECE: usize = 65_536;

static ZEROS: [u8; PIECE] = [0; PIECE];

impl<D: Disk> Heap<D> {
    /// Makes an empty heap on the disk, which it takes whole and gives back: `pages` pages of 64 words in each of two spaces,
    /// a log of `log_bytes` bytes, and `first` as its first transaction's number.
    pub fn format(
        mut disk: D,
        pages: u32,
        log_bytes: u32,
        first: u32,
    ) -> Result<D, (FormatError, D)>
        requires { IsSuper (heap_of pages log_bytes first) }

        ensures disk { KeepsDisk D.Disk disk (given_back result) (device_result result) }
        // A disk that is too small is given back unchanged.
        ensures small { D.extent disk < image_size pages log_bytes → IsErrAnd result (λ e. e ≡ (TooSmall (D.extent disk) (image_size pages log_bytes), disk)) }
        ensures large { image_size pages log_bytes ≤ D.extent disk → IfErr result (λ e. IsFromDisk e.0) }

        ensures made { IsTrue D.tells → IfOk result (λ made. IsLegal (new_heap (heap_of pages log_bytes first)) (D.bytes made) × Only (D.bytes made) (D.may_leave made)) }
        ensures empty { IsTrue D.tells → IfOk result (λ made. IsEmptyHeap (heap_of pages log_bytes first) (D.bytes made)) }
        // A crash at any moment leaves no heap, the old image, or the new empty heap.
        ensures moments { IsTrue D.tells → Only (D.bytes disk) (D.may_leave disk) → LeavesOnly D.moment D.left_since disk (given_back result) (IsFormatting (heap_of pages log_bytes first) (D.bytes disk)) }
        // The bytes past the plan stay as they are, at the end and at each moment of it.
        ensures outside { IsTrue D.tells → IfOk result (λ made. SameOutside 0 (image_size pages log_bytes) (D.bytes disk) (D.bytes made)) }
        ensures moments_outside { IsTrue D.tells → Only (D.bytes disk) (D.may_leave disk) → LeavesOnly D.moment D.left_since disk (given_back result) (SameOutside 0 (image_size pages log_bytes) (D.bytes disk)) }
        ensures passes { IsTrue D.tells → image_size pages log_bytes ≤ D.extent disk → Passes (format_calls (image_size pages log_bytes) (D.bytes disk)) (D.passed disk) (D.passed (given_back result)) (device_result result) }
    {
        let of = Super {
            pages,
            log_bytes,
            first,
        };
        match make_empty(&mut disk, &of) {
            Ok(()) => Ok(disk),
            Err(e) => Err((e, disk)),
        }
    }
}

/// Makes an empty heap with these numbers, if the disk is large enough.
fn make_empty<D: Disk>(disk: &mut D, of: &Super) -> Result<(), FormatError>
    requires { IsSuper of.now }

    ensures disk { KeepsDisk D.Disk disk.old disk.new (made_device result) }
    ensures small { D.extent disk.old < image_size of.now.pages of.now.log_bytes → (result ≡ Err (TooSmall (D.extent disk.old) (image_size of.now.pages of.now.log_bytes))) × (disk.new ≡ disk.old) }
    ensures large { image_size of.now.pages of.now.log_bytes ≤ D.extent disk.old → IfErr result IsFromDisk }

    ensures made { IsTrue D.tells → OnOk result (IsLegal (new_heap of.now) (D.bytes disk.new)) }
    ensures empty { IsTrue D.tells → OnOk result (IsEmptyHeap of.now (D.bytes disk.new)) }
    ensures durable { IsTrue D.tells → OnOk result (Only (D.bytes disk.new) (D.may_leave disk.new)) }
    ensures moments { IsTrue D.tells → Only (D.bytes disk.old) (D.may_leave disk.old) → LeavesOnly D.moment D.left_since disk.old disk.new (IsFormatting of.now (D.bytes disk.old)) }
    ensures outside { IsTrue D.tells → OnOk result (SameOutside 0 (image_size of.now.pages of.now.log_bytes) (D.bytes disk.old) (D.bytes disk.new)) }
    ensures moments_outside { IsTrue D.tells → Only (D.bytes disk.old) (D.may_leave disk.old) → LeavesOnly D.moment D.left_since disk.old disk.new (SameOutside 0 (image_size of.now.pages of.now.log_bytes) (D.bytes disk.old)) }
    ensures passes { IsTrue D.tells → image_size of.now.pages of.now.log_bytes ≤ D.extent disk.old → Passes (format_calls (image_size of.now.pages of.now.log_bytes) (D.bytes disk.old)) (D.passed disk.old) (D.passed disk.new) (made_device result) }
{
    let size = disk.size();
    let need = of.plan().size();
    if size < need {
        return Err(FormatError::TooSmall { size, need });
    }
    write_empty(disk, of)?;
    Ok(())
}

fn write_empty<D: Disk>(disk: &mut D, of: &Super) -> Result<(), DiskError>
    requires good { IsSuper of.now }
    requires inside { image_size of.now.pages of.now.log_bytes ≤ D.extent disk.old }

    ensures made { IsTrue D.tells → OnOk result (IsLegal (new_heap of.now) (D.bytes disk.new)) }
    ensures empty { IsTrue D.tells → OnOk result (IsEmptyHeap of.now (D.bytes disk.new)) }
    ensures durable { IsTrue D.tells → OnOk result (Only (D.bytes disk.new) (D.may_leave disk.new)) }
    ensures moments { IsTrue D.tells → Only (D.bytes disk.old) (D.may_leave disk.old) → LeavesOnly D.moment D.left_since disk.old disk.new (IsFormatting of.now (D.bytes disk.old)) }
    ensures outside { IsTrue D.tells → OnOk result (SameOutside 0 (image_size of.now.pages of.now.log_bytes) (D.bytes disk.old) (D.bytes disk.new)) }
    ensures moments_outside { IsTrue D.tells → Only (D.bytes disk.old) (D.may_leave disk.old) → LeavesOnly D.moment D.left_since disk.old disk.new (SameOutside 0 (image_size of.now.pages of.now.log_bytes) (D.bytes disk.old)) }
    ensures passes { IsTrue D.tells → Passes (format_calls (image_size of.now.pages of.now.log_bytes) (D.bytes disk.old)) (D.passed disk.old) (D.passed disk.new) result }
    ensures disk { KeepsDisk D.Disk disk.old disk.new result }
{
    close_gate(disk, 0)?;
    write_zeros(disk, SUPER_BYTES as u64, of.plan().size())?;
    let bytes = write_super(of);
    fill_and_open(disk, 0, 1, &bytes[1..])
}

/// Writes zeros from `from` to `end`.
fn write_zeros<D: Disk>(disk: &mut D, from: u64, end: u64) -> Result<(), DiskError>
    requires inside { end ≤ D.extent disk.old }
    requires ordered { from ≤ end }

    ensures zero { IsTrue D.tells → OnOk result (AreZero from end (D.bytes disk.new)) }
    ensures outside { IsTrue D.tells → OnOk result (SameOutside from end (D.bytes disk.old) (D.bytes disk.new)) }
    ensures crash { IsTrue D.tells → WidensBy (SameOutside from end) (D.may_leave disk.old) (D.may_leave disk.new) }
    ensures moments { IsTrue D.tells → LeavesOnly D.moment D.left_since disk.old disk.new (λ c. (d : List ℕ) × D.may_leave disk.old d × SameOutside from end d c) }
    ensures passes { IsTrue D.tells → Passes (zero_writes (end - from)) (D.passed disk.old) (D.passed disk.new) result }
    ensures disk { KeepsDisk D.Disk disk.old disk.new result }
{
    let mut at = from;
    while at < end {
        let left = end - at;
        let piece = if left < PIECE as u64 {
            left as usize
        } else {
            PIECE
        };
        disk.write(at, zeros(piece))?;
        at += piece as u64;
    }
    Ok(())
}

/// That many zeros, at most a piece.
fn zeros(count: usize) -> &'static [u8]
    requires { count ≤ PIECE }
    ensures { result.now ≡ replicate count 0 }
{
    &ZEROS[..count]
}
