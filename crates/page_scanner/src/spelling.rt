//! The records of the copies of a scan, as the log spells them.
ghost use Rattle.std.specs.Prelude.{◌≡◌, ◌≤◌, length, map, IfOk};
ghost use Rattle.log_records.specs.Record.{copy_record, spellings};
ghost use Rattle.page_scanner.specs.PageCopies.{copies_left};
ghost use Rattle.page_scanner.specs.PageScan.{copies_of, HaveWords};

use crate::page_scan::PageCopies;
use heap_spaces::CopiedObject;
use log_records::{COPY_HEAD_BYTES, WORD_BYTES, copy_length, write_copy};
use std::alloc::{AllocError, Global};

/// How many bytes the records of copies of these objects take, whose words stand one after another.
pub(crate) fn bytes_of(copies: &[CopiedObject], words: &[u64]) -> usize
    requires filled { HaveWords copies.now words.now }
    requires few { length words.now ≤ 1048576 }
    ensures { result ≡ length (spellings (map copy_record (copies_of copies.now words.now))) }
{
    (1 + COPY_HEAD_BYTES) * copies.len() + WORD_BYTES * words.len()
}

/// The spelling of copies, in their order, which takes so many bytes. Memory is made for all of them at once: looking for room at each would take
/// longer than most of them.
pub(crate) fn spell(
    alloc: Global,
    copies: PageCopies<'_>,
    bytes: usize,
) -> Result<Vec<u8>, AllocError>
    requires { bytes ≡ length (spellings (map copy_record (copies_left copies))) }
    ensures { IfOk result (λ spelled. spelled.items ≡ spellings (map copy_record (copies_left copies.entry))) }
{
    let mut spelled = Vec::new(alloc);
    spelled.resize(bytes, 0)?;
    write_copies(copies, &mut spelled);
    Ok(spelled)
}

// Writes the spelling of copies over bytes, of which there are exactly as many.
fn write_copies(copies: PageCopies<'_>, into: &mut [u8])
    requires { length into.old ≡ length (spellings (map copy_record (copies_left copies))) }
    ensures { into.new ≡ spellings (map copy_record (copies_left copies.entry)) }
{
    let mut at = 0;
    for copy in copies {
        let end = at + copy_length(&copy) as usize;
        write_copy(&copy, &mut into[at..end]);
        at = end;
    }
}
