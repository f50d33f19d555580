//! What records leave: which words are used, which collection runs, and what is to be taken back of transactions that have not ended.
use crate::frames::{PAGE_WORDS, Pages};
use crate::records::{
    BASE, COLLECTED, COMMIT, COPY, FIELD, FIX, FLIP, FRONT_WORDS, OBJECT, Object, PAGE, Record,
    SCAN, TRANSACTION, UNDO, UPDATE, WORD, field_address, forwarding, is_area_reference,
    is_reference,
};
use std::alloc::{AllocError, Global};

/// The words of the root, which stands alone at first.
const ROOT_WORDS: u64 = 6;

/// No transaction has this number, which is above all that one may have.
const NO_NUMBER: u64 = 4_294_967_295;

/// The births of a transaction are this many times its number and more.
const BIRTHS: u64 = 4_294_967_296;

/// A write that may be taken back: where it was made, and what stood there.
#[derive(Clone, Copy)]
struct UndoEntry {
    t: u64,
    object: u64,
    field: u64,
    before: u64,
}

/// An object that was copied: where it stood, where it stands, and how many words it has.
#[derive(Clone, Copy)]
pub struct Moved {
    pub from: u64,
    to: u64,
    size: u64,
}

/// A collection that runs.
#[derive(Drop)]
pub struct Collection {
    /// The words of the from-space that are used: the first one, and where they end.
    pub first: u64,
    pub end: u64,
    /// How many of them were copied.
    pub copied: u64,
    pub moved: Vec<Moved>,
    /// Where the objects stand that may lead to the from-space.
    pub gray: Vec<u64>,
}

/// The state after some records.
#[derive(Drop)]
pub struct State {
    /// The first word of the current space.
    pub base: u64,
    /// The address where the next object is to stand: the words of the current space before it are used.
    pub end: u64,
    /// The collection that runs, if one does.
    pub collection: Option<Collection>,
    /// The undo entries of all transactions, in the order of their writes.
    undo: Vec<UndoEntry>,
    /// How many words a space has.
    space: u64,
}

/// Whether the number is one that a transaction may have.
fn is_number(t: u64) -> bool {
    1 <= t && t < NO_NUMBER
}

/// Whether it may be an object that this transaction made and promoted.
fn is_promoted(object: &Object<'_>, t: u64) -> bool {
    for index in FRONT_WORDS..object.size() {
        if is_area_reference(object.word(index)) {
            return false;
        }
    }
    let birth = object.word(1);
    birth / BIRTHS == t && birth % BIRTHS != 0
}

/// The copy of the object that stood there.
pub fn moved_from(moved: &[Moved], from: u64) -> Option<Moved> {
    for copy in moved {
        if copy.from == from {
            return Some(*copy);
        }
    }
    None
}

/// The undo entry of a write, or the one that an Undo takes back.
fn entry_of(record: &Record<'_>) -> UndoEntry {
    UndoEntry {
        t: record.get(TRANSACTION),
        object: record.get(OBJECT),
        field: record.get(FIELD),
        before: record.get(WORD),
    }
}

impl UndoEntry {
    /// Updates the entry to these copies; false if its object, with that field, or the object that the old word leads to is not among them.
    fn go_along(&mut self, moved: &[Moved]) -> bool {
        let Some(copy) = moved_from(moved, self.object) else {
            return false;
        };
        if self.field.saturating_add(FRONT_WORDS) >= copy.size {
            return false;
        }
        self.object = copy.to;
        if !is_reference(self.before) {
            return true;
        }
        let Some(copy) = moved_from(moved, self.before / 4) else {
            return false;
        };
        self.before = forwarding(copy.to);
        true
    }
}

impl State {
    /// The state before the first record: the root stands alone.
    pub fn new(alloc: Global, pages: u64) -> State {
        State {
            base: 0,
            end: ROOT_WORDS,
            collection: None,
            undo: Vec::new(alloc),
            space: pages.saturating_mul(PAGE_WORDS),
        }
    }

    /// How many words of the current space are not used.
    fn free(&self) -> u64 {
        self.base
            .saturating_add(self.space)
            .saturating_sub(self.end)
    }

    /// Whether it is the address of a used word.
    fn is_used(&self, address: u64) -> bool {
        self.base <= address && address < self.end
    }

    /// Applies the record, if it may follow, and returns whether it may. If not, the state is not used any more.
    pub fn follow(&mut self, alloc: Global, record: &Record<'_>) -> Result<bool, AllocError> {
        match record.kind() {
            COPY => self.copy_all(&record.objects(alloc)?),
            FLIP => self.flip(alloc, &record.objects(alloc)?),
            SCAN => Ok(self.scan(record.get(PAGE), &record.writes(alloc)?)),
            COLLECTED => Ok(self.collected()),
            BASE => Ok(self.promote(record.get(TRANSACTION), &record.objects(alloc)?)),
            kind => self.follow_write(kind, entry_of(record)),
        }
    }

    /// The same of a record of a transaction that has no object.
    fn follow_write(&mut self, kind: u64, entry: UndoEntry) -> Result<bool, AllocError> {
        let has_field = entry.object >= self.base
            && field_address(entry.object, entry.field) < self.end;
        let follows = match kind {
            UPDATE => {
                self.undo.push(entry)?;
                has_field
            }
            FIX => has_field && is_reference(entry.before),
            UNDO => self.take_back(entry),
            COMMIT => {
                self.undo.retain(|other| other.t != entry.t);
                true
            }
            _ => self.newest(entry.t).is_none(),
        };
        Ok(follows && is_number(entry.t))
    }

    fn promote(&mut self, t: u64, objects: &[Object<'_>]) -> bool {
        let owed = match &self.collection {
            Some(k) => k.end.saturating_sub(k.first).saturating_sub(k.copied),
            None => 0,
        };
        for object in objects {
            let room = self.free().saturating_sub(owed);
            if object.address != self.end || room < object.size() || !is_promoted(object, t) {
                return false;
            }
            self.end = self.end.saturating_add(object.size());
        }
        is_number(t)
    }

    fn copy_all(&mut self, copies: &[Object<'_>]) -> Result<bool, AllocError> {
        for copy in copies {
            if !self.copy(copy)? {
                return Ok(false);
            }
        }
        Ok(true)
    }

    fn copy(&mut self, copy: &Object<'_>) -> Result<bool, AllocError> {
        let (to, size, free) = (copy.address, copy.size(), self.free());
        let Some(k) = &mut self.collection else {
            return Ok(false);
        };
        let from = copy.number;
        let inside = k.first <= from && from.saturating_add(size) <= k.end;
        let left = k.copied.saturating_add(size) <= k.end.saturating_sub(k.first);
        if !inside || !left || to != self.end || size > free {
            return Ok(false);
        }
        if moved_from(&k.moved, from).is_some() {
            return Ok(false);
        }
        k.copied = k.copied.saturating_add(size);
        k.moved.push(Moved { from, to, size })?;
        k.gray.push(to)?;
        self.end = self.end.saturating_add(size);
        Ok(true)
    }

    fn flip(&mut self, alloc: Global, copies: &[Object<'_>]) -> Result<bool, AllocError> {
        if self.collection.is_some() {
            return Ok(false);
        }
        let (first, end) = (self.base, self.end);
        self.base = self.space.saturating_sub(first);
        self.end = self.base;
        self.collection = Some(Collection {
            first,
            end,
            copied: 0,
            moved: Vec::new(alloc),
            gray: Vec::new(alloc),
        });
        Ok(self.copy_all(copies)? && self.go_along())
    }

    /// Whether the object at the from-space's first address was copied first, and the undo entries go along with the copies.
    fn go_along(&mut self) -> bool {
        let Some(k) = &self.collection else {
            return false;
        };
        let Some(copy) = k.moved.first() else {
            return false;
        };
        if copy.from != k.first {
            return false;
        }
        for entry in &mut self.undo {
            if !entry.go_along(&k.moved) {
                return false;
            }
        }
        true
    }

    fn scan(&mut self, page: u64, writes: &[(u64, u64)]) -> bool {
        for write in writes {
            let leads = is_reference(write.1) && self.is_used(write.1 / 4);
            if !leads || !self.is_used(write.0) {
                return false;
            }
        }
        let Some(k) = &mut self.collection else {
            return false;
        };
        k.gray.retain(|at| at / PAGE_WORDS != page);
        let first = page.saturating_mul(PAGE_WORDS);
        self.base <= first && first < self.base.saturating_add(self.space)
    }

    fn collected(&mut self) -> bool {
        let done = match &self.collection {
            Some(k) => k.gray.is_empty(),
            None => false,
        };
        self.collection = None;
        done
    }

    /// The place of a transaction's newest undo entry.
    fn newest(&self, t: u64) -> Option<usize> {
        let mut newest = None;
        for (at, entry) in self.undo.iter().enumerate() {
            if entry.t == t {
                newest = Some(at);
            }
        }
        newest
    }

    /// Drops the newest undo entry of its transaction, if that is this one.
    fn take_back(&mut self, entry: UndoEntry) -> bool {
        let Some(at) = self.newest(entry.t) else {
            return false;
        };
        if at >= self.undo.len() {
            return false;
        }
        let last = self.undo.remove(at);
        last.object == entry.object && last.field == entry.field && last.before == entry.before
    }

    /// The numbers of the losers, ascending.
    pub fn losers(&self, alloc: Global) -> Result<Vec<u64>, AllocError> {
        let mut losers = Vec::new(alloc);
        let mut last = 0;
        for _entry in &self.undo {
            let next = self.next_loser(last);
            if next < NO_NUMBER {
                losers.push(next)?;
            }
            last = next;
        }
        Ok(losers)
    }

    /// The least number of a loser above this one.
    fn next_loser(&self, last: u64) -> u64 {
        let mut next = NO_NUMBER;
        for entry in &self.undo {
            if last < entry.t && entry.t < next {
                next = entry.t;
            }
        }
        next
    }

    /// How many writes are to be taken back.
    pub fn undo_len(&self) -> u64 {
        self.undo.len() as u64
    }

    /// Takes back the writes of the losers on these pages, the newest first, one loser after another.
    pub fn roll_back(&self, losers: &[u64], pages: &mut Pages) {
        for t in losers {
            for entry in self.undo.iter().rev() {
                if entry.t == *t {
                    pages.put(field_address(entry.object, entry.field), entry.before);
                }
            }
        }
    }
}
