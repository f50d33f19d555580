//! The pages after the log, each as the frame that counts has it.
use crate::bytes::{bytes_from, number};
use crate::records::{BASE, Object, Record, forwarding};
use std::alloc::{AllocError, Global};

/// The words of a page.
pub const PAGE_WORDS: u64 = 64;

/// The bytes of a frame: a gate, some that are not used, an LSN and the words.
const FRAME_BYTES: usize = 528;

/// Where the LSN and the words stand in a frame.
const LSN_AT: usize = 8;

const WORDS_AT: usize = 16;

/// What an open gate is.
const OPEN: u64 = 1;

/// The first word of the page of address 0, if that was never stored.
const ROOT_HEADER: u64 = 17;

/// The pages of both spaces.
#[derive(Drop)]
pub struct Pages {
    /// The LSN of each page.
    lsns: Vec<u64>,
    /// The words of all pages, by address.
    words: Vec<u64>,
}

/// The frame that counts of the two which begin there, of which each counts only if its gate is open: the one with the greater LSN, and the first of
/// equal ones. Nothing if neither counts.
fn counting(frames: &[u8]) -> &[u8] {
    let other = bytes_from(frames, FRAME_BYTES);
    let is_open = number(frames, 0, 1) == OPEN;
    let newer = number(other, LSN_AT, 8) > number(frames, LSN_AT, 8);
    if number(other, 0, 1) == OPEN && (newer || !is_open) {
        other
    } else if is_open {
        frames
    } else {
        &[]
    }
}

impl Pages {
    /// Reads `count` pages, of which each has two frames.
    pub fn read(alloc: Global, frames: &[u8], count: u64) -> Result<Pages, AllocError> {
        let mut pages = Pages {
            lsns: Vec::new(alloc),
            words: Vec::new(alloc),
        };
        let mut rest = frames;
        for _page in 0..count {
            pages.add(counting(rest))?;
            rest = bytes_from(rest, 2 * FRAME_BYTES);
        }
        if counting(frames).is_empty() {
            pages.put(0, ROOT_HEADER);
        }
        Ok(pages)
    }

    /// Adds the page that a frame holds. One that was never stored holds zeros.
    fn add(&mut self, frame: &[u8]) -> Result<(), AllocError> {
        self.lsns.push(number(frame, LSN_AT, 8))?;
        let mut at = WORDS_AT;
        for _word in 0..PAGE_WORDS {
            self.words.push(number(frame, at, 8))?;
            at = at.saturating_add(8);
        }
        Ok(())
    }

    /// The first page that is ahead of a log of that many records.
    pub fn first_ahead(&self, records: u64) -> Option<u32> {
        let mut page: u32 = 0;
        for lsn in &self.lsns {
            if *lsn > records {
                return Some(page);
            }
            page = page.saturating_add(1);
        }
        None
    }

    /// The words of all pages, by address.
    pub fn words(&self) -> &[u64] {
        &self.words
    }

    /// Puts each record, numbered from 1, on the pages that lack it.
    pub fn redo_all(&mut self, alloc: Global, records: &[Record<'_>]) -> Result<(), AllocError> {
        let mut number: u64 = 0;
        for record in records {
            number = number.saturating_add(1);
            self.redo(alloc, number, record)?;
        }
        Ok(())
    }

    fn redo(&mut self, alloc: Global, number: u64, record: &Record<'_>) -> Result<(), AllocError> {
        for object in &record.objects(alloc)? {
            self.redo_object(number, object);
            if record.kind() != BASE {
                self.redo_word(number, object.number, forwarding(object.address));
            }
        }
        for write in &record.writes(alloc)? {
            self.redo_word(number, write.0, write.1);
        }
        Ok(())
    }

    fn redo_object(&mut self, number: u64, object: &Object<'_>) {
        for index in 0..object.size() {
            let at = object.address.saturating_add(index);
            self.redo_word(number, at, object.word(index));
        }
    }

    /// Puts a word there if the page lacks the record of this number: the LSN in its frame is less.
    fn redo_word(&mut self, number: u64, address: u64, word: u64) {
        if let Some(lsn) = self.lsns.get((address / PAGE_WORDS) as usize)
            && *lsn < number
        {
            self.put(address, word);
        }
    }

    /// Puts a word there.
    pub fn put(&mut self, address: u64, word: u64) {
        if let Some(place) = self.words.get_mut(address as usize) {
            *place = word;
        }
    }
}
