//! Reads and writes the fields of objects, of those that stand in the current space and of those that a transaction has made.
ghost use Rattle.std.specs.Prelude.{◌≡◌, ◌+◌, ◌*◌, ◌<◌, ◌≤◌, ◌^◌, length, slice_index, [], true, Ok, Some, None, OnErr, IfOk, IfSome, IsSome};
ghost use Rattle.gated_log.specs.LogState.{log_room, log_used_with, HasSpare};
ghost use Rattle.logged_pages.specs.State.{cache_of, has_failed, log_of, pages_in_memory};
ghost use Rattle.heap_words.specs.Word.{bits, meaning, IsWord};
ghost use Rattle.graph_model.specs.Plain.{reply_of};
ghost use Rattle.graph_model.specs.declared.reply.Reply.TheVariants.{Done};
ghost use Rattle.object_layout.specs.Layout.{field_words};
ghost use Rattle.log_records.specs.Record.{spellings};
ghost use Rattle.heap_memory.specs.Memory.{own, own_fields, place_word, fields_at as words_at};
ghost use Rattle.heap_engine.specs.Barrier.{planned_records};
ghost use Rattle.heap_engine.specs.Reserve.{can_refer};

use crate::barrier::{PagePlan, keep_copies, note_scan, take_back_copies};
use crate::carrying::carry_out;
use crate::engine::{Engine, refused};
use crate::locking::{keep_write, lock_of, lock_refusal};
use crate::log_room::{UNDO_BYTES, reserve_room};
use crate::planned::PlannedWrite;
use crate::step_error::StepError;
use disk_model::Disk;
use graph_model::{Refusal, Reply};
use heap_words::{FIELDS_AT, Header, NO_INT, Word, decode, encode, header_of};
use log_machine::UndoEntry;
use log_records::{Record, UPDATE_BYTES};
use object_locks::Mode;
use std::alloc::AllocError;
use txn_table::Place;

/// The words of the fields of the object that stands at an address, in order, and none if no object stands there.
fn fields_at(words: &[u64], at: u32) -> &[u64]
    requires { length words.now < 2 ^ 32 }
    ensures { result.now ≡ field_words words.now at }
{
    let from = at as usize + FIELDS_AT as usize;
    if at as usize >= words.len() {
        return &[];
    }
    match header_of(words[at as usize]) {
        Some(Header::Length(n)) if from + n as usize <= words.len() => {
            &words[from..from + n as usize]
        }
        _ => &[],
    }
}

impl Engine {
    ghost use Rattle.heap_memory.specs.Refusals.{put_refusal, clear_refusal, link_refusal, get_refusal, read_refusal_of, records_room, write_refusal};
    ghost use Rattle.heap_memory.specs.Replies.{get_reply, word_reply, words_behind, IsGranted};
    ghost use Rattle.heap_memory.specs.Leaves.{IsAsItWas, WritesHeld, Links, Gets, GetsAt, Writes, LeavesOwn, with_read, with_handle};
    ghost use Rattle.heap_engine.specs.EngineState.{memory, HasNotFailed, LiesWithin};
    ghost use Rattle.heap_engine.specs.NoCall.{MakesNoCall};

    /// Writes a number below 2^62 into field `i` of the object that a handle of the transaction holds. An object of the current space is
    /// locked for the transaction alone.
    pub(crate) fn put<D: Disk>(
        &mut self,
        disk: &mut D,
        session: u32,
        h: u64,
        i: u64,
        v: u64,
    ) -> Result<Reply, StepError>
        requires works { HasNotFailed self.old }
        requires within { LiesWithin self.old (D.extent disk.old) }
        ensures calls { MakesNoCall D.Disk disk.old self.new disk.new result }
        ensures reply { IfOk result (λ reply. reply ≡ reply_of (put_refusal (memory self.old) session h i v) Done) }
        ensures done { result ≡ Ok Done → WritesHeld (memory self.old) (memory self.new) session h i (4 * v + 1) }
        ensures refused { (why : _) → result ≡ Ok (Reply.Refused why) → IsAsItWas (memory self.old) (memory self.new) }
        ensures err { OnErr result (IsAsItWas (memory self.old) (memory self.new)) }
    {
        match self.held(session, h) {
            Err(why) => Ok(refused(why)),
            Ok(_) if v >= NO_INT => Ok(refused(Refusal::Range)),
            Ok(place) => self.write(disk, session, place, i, Word::Int(v)),
        }
    }

    /// Sets field `i` of the object that a handle of the transaction holds to null. It locks the object as `put` does.
    pub(crate) fn clear<D: Disk>(
        &mut self,
        disk: &mut D,
        session: u32,
        h: u64,
        i: u64,
    ) -> Result<Reply, StepError>
        requires works { HasNotFailed self.old }
        requires within { LiesWithin self.old (D.extent disk.old) }
        ensures calls { MakesNoCall D.Disk disk.old self.new disk.new result }
        ensures reply { IfOk result (λ reply. reply ≡ reply_of (clear_refusal (memory self.old) session h i) Done) }
        ensures done { result ≡ Ok Done → WritesHeld (memory self.old) (memory self.new) session h i 0 }
        ensures refused { (why : _) → result ≡ Ok (Reply.Refused why) → IsAsItWas (memory self.old) (memory self.new) }
        ensures err { OnErr result (IsAsItWas (memory self.old) (memory self.new)) }
    {
        match self.held(session, h) {
            Err(why) => Ok(refused(why)),
            Ok(place) => self.write(disk, session, place, i, Word::Null),
        }
    }

    /// Lets field `i` of the object that handle `h` holds refer to the object that `h2` holds. It locks the first as `put` does.
    pub(crate) fn link<D: Disk>(
        &mut self,
        disk: &mut D,
        session: u32,
        h: u64,
        i: u64,
        h2: u64,
    ) -> Result<Reply, StepError>
        requires works { HasNotFailed self.old }
        requires within { LiesWithin self.old (D.extent disk.old) }
        ensures calls { MakesNoCall D.Disk disk.old self.new disk.new result }
        ensures reply { IfOk result (λ reply. reply ≡ reply_of (link_refusal (memory self.old) session h i h2) Done) }
        ensures done { result ≡ Ok Done → Links (memory self.old) (memory self.new) session h i h2 }
        ensures refused { (why : _) → result ≡ Ok (Reply.Refused why) → IsAsItWas (memory self.old) (memory self.new) }
        ensures err { OnErr result (IsAsItWas (memory self.old) (memory self.new)) }
    {
        match (self.held(session, h), self.held(session, h2)) {
            (Err(why), _) | (_, Err(why)) => Ok(refused(why)),
            (Ok(place), Ok(target)) => self.write(disk, session, place, i, word_of(target)),
        }
    }

    /// What is in field `i` of the object that handle `h` of the transaction holds. If it is a reference, `h2` holds what it refers
    /// to from then on. An object of the current space gets a shared lock.
    pub(crate) fn get<D: Disk>(
        &mut self,
        disk: &mut D,
        session: u32,
        h: u64,
        i: u64,
        h2: u64,
    ) -> Result<Reply, StepError>
        requires works { HasNotFailed self.old }
        requires within { LiesWithin self.old (D.extent disk.old) }
        ensures calls { MakesNoCall D.Disk disk.old self.new disk.new result }
        ensures reply { IfOk result (λ reply. reply ≡ reply_of (get_refusal (memory self.old) session h i h2) (get_reply (memory self.old) session h i)) }
        ensures got { IfOk result (λ reply. IsGranted reply → Gets (memory self.old) (memory self.new) session h i h2) }
        ensures refused { (why : _) → result ≡ Ok (Reply.Refused why) → IsAsItWas (memory self.old) (memory self.new) }
        ensures err { OnErr result (IsAsItWas (memory self.old) (memory self.new)) }
    {
        if let Some(why) = self.handle_refusal(session, h2) {
            return Ok(refused(why));
        }
        let place = match self.held(session, h) {
            Err(why) => return Ok(refused(why)),
            Ok(place) => place,
        };
        let fields = self.fields(session, place);
        if i >= fields.len() as u64 {
            return Ok(refused(Refusal::BadField));
        }
        match place {
            Place::Stable(at) => self.get_stable(disk, session, at, i as u16, h2),
            Place::Volatile(_) => {
                let word = fields[i as usize];
                Ok(self.read_into(session, h2, word))
            }
        }
    }

    /// The same for a field of an object that stands in the current space: it is locked, and its page is scanned first if a gray object
    /// starts in it.
    fn get_stable<D: Disk>(
        &mut self,
        disk: &mut D,
        session: u32,
        object: u32,
        field: u16,
        h: u64,
    ) -> Result<Reply, StepError>
        requires active { IsSome (own (memory self.old) session) }
        requires there { field < length (field_words (pages_in_memory self.old.pages).words object) }
        requires handle { h < 64 }
        requires works { HasNotFailed self.old }
        requires within { LiesWithin self.old (D.extent disk.old) }
        ensures calls { MakesNoCall D.Disk disk.old self.new disk.new result }
        ensures reply { IfOk result (λ reply. reply ≡ reply_of (read_refusal_of (memory self.old) (own (memory self.old) session) (Place.Stable object) field) (word_reply (meaning (slice_index (field_words (words_behind (memory self.old) (Ok (Place.Stable object)) field) object) field)))) }
        ensures got { IfOk result (λ reply. IsGranted reply → GetsAt (memory self.old) (memory self.new) session (Place.Stable object) field h) }
        ensures refused { (why : _) → result ≡ Ok (Reply.Refused why) → IsAsItWas (memory self.old) (memory self.new) }
        ensures err { OnErr result (IsAsItWas (memory self.old) (memory self.new)) }
    {
        let lock = lock_of(self.table.number(session), Mode::Shared, object);
        if let Some(why) = lock_refusal(&self.locks, lock) {
            return Ok(refused(why));
        }
        let scan = self.barrier(object, u32::from(field))?;
        if let Some(why) = self.make_room_for(&scan)? {
            return Ok(refused(why));
        }
        keep_copies(&mut self.collection, scan.copies())?;
        if let Err(e) = self.locks.take(lock) {
            take_back_copies(&mut self.collection, scan.copies());
            return Err(StepError::from(e));
        }
        note_scan(&mut self.spaces, &mut self.collection, &scan);
        carry_out(&mut self.pages, disk, &scan)?;
        // The scan may have updated the field to the copy.
        let fields = fields_at(self.pages.as_slice(), object);
        let word = fields.get(field as usize).copied().unwrap_or(0);
        Ok(self.read_into(session, h, word))
    }

    /// Makes room in the log for a scan, if there is one to make, or reports why there is none.
    pub(crate) fn make_room_for(&mut self, scan: &PagePlan) -> Result<Option<Refusal>, AllocError>
        requires few { length (spellings (planned_records scan.now.scan)) < 2 ^ 32 + 2 ^ 24 }
        ensures why { IfOk result (λ why. why ≡ records_room (memory self.old) (planned_records scan.now.scan)) }
        ensures memory { result ≡ Ok None → HasSpare (log_of self.new.pages) (length (spellings (planned_records scan.now.scan)) + self.new.reserved) }
        ensures room { result ≡ Ok None → log_used_with (log_of self.new.pages) (length (spellings (planned_records scan.now.scan))) + self.new.reserved ≤ log_room (log_of self.new.pages) }
        ensures same { IsAsItWas (memory self.old) (memory self.new) }
        ensures cache { cache_of self.new.pages ≡ cache_of self.old.pages }
        ensures failed { has_failed self.new.pages ≡ has_failed self.old.pages }
    {
        if scan.is_empty() {
            return Ok(None);
        }
        self.make_room(scan.bytes())
    }

    /// The words of the fields of the object at a place, in order, and none if no object stands there.
    pub(crate) fn fields(&self, session: u32, place: Place) -> &[u64]
        requires { IsSome (own (memory self.now) session) }
        ensures { IfSome (own (memory self.now) session) (λ t. result.now ≡ words_at (pages_in_memory self.now.pages).words t.area place) }
    {
        match place {
            Place::Stable(at) => fields_at(self.pages.as_slice(), at),
            Place::Volatile(at) => self.own_fields(session, at),
        }
    }

    /// The same for an object that the transaction has made.
    fn own_fields(&self, session: u32, at: u32) -> &[u64]
        requires { IsSome (own (memory self.now) session) }
        ensures { IfSome (own (memory self.now) session) (λ t. result.now ≡ own_fields t.area at) }
    {
        let area = self.table.area(session);
        if area.is_object(at) {
            area.fields(at)
        } else {
            &[]
        }
    }

    /// Puts a word into a field of the object at a place.
    fn write<D: Disk>(
        &mut self,
        disk: &mut D,
        session: u32,
        place: Place,
        i: u64,
        word: Word,
    ) -> Result<Reply, StepError>
        requires active { IsSome (own (memory self.old) session) }
        requires meant { IsWord word }
        requires works { HasNotFailed self.old }
        requires within { LiesWithin self.old (D.extent disk.old) }
        ensures calls { MakesNoCall D.Disk disk.old self.new disk.new result }
        ensures reply { IfOk result (λ reply. reply ≡ reply_of (write_refusal (memory self.old) session place i) Done) }
        ensures done { result ≡ Ok Done → Writes (memory self.old) (memory self.new) session place i (bits word) }
        ensures refused { (why : _) → result ≡ Ok (Reply.Refused why) → IsAsItWas (memory self.old) (memory self.new) }
        ensures err { OnErr result (IsAsItWas (memory self.old) (memory self.new)) }
    {
        if i >= self.fields(session, place).len() as u64 {
            return Ok(refused(Refusal::BadField));
        }
        match place {
            Place::Stable(at) => self.write_stable(disk, session, at, i as u16, encode(word)),
            Place::Volatile(at) => {
                self.table.set_field(session, at, i as u32, encode(word));
                Ok(Reply::Done)
            }
        }
    }

    /// Puts a word into a field of an object that stands in the current space: it is locked, its page is scanned first if a gray object
    /// starts in it, and the before-image goes to the log.
    fn write_stable<D: Disk>(
        &mut self,
        disk: &mut D,
        session: u32,
        object: u32,
        field: u16,
        word: u64,
    ) -> Result<Reply, StepError>
        requires active { IsSome (own (memory self.old) session) }
        requires there { field < length (field_words (pages_in_memory self.old.pages).words object) }
        requires works { HasNotFailed self.old }
        requires within { LiesWithin self.old (D.extent disk.old) }
        ensures calls { MakesNoCall D.Disk disk.old self.new disk.new result }
        ensures reply { IfOk result (λ reply. reply ≡ reply_of (write_refusal (memory self.old) session (Place.Stable object) field) Done) }
        ensures done { result ≡ Ok Done → Writes (memory self.old) (memory self.new) session (Place.Stable object) field word }
        ensures refused { (why : _) → result ≡ Ok (Reply.Refused why) → IsAsItWas (memory self.old) (memory self.new) }
        ensures err { OnErr result (IsAsItWas (memory self.old) (memory self.new)) }
    {
        let t = self.table.number(session);
        let lock = lock_of(t, Mode::Exclusive, object);
        if let Some(why) = lock_refusal(&self.locks, lock) {
            return Ok(refused(why));
        }
        let scan = self.barrier(object, u32::from(field))?;
        let at = object + FIELDS_AT + u32::from(field);
        let was = scan.word_behind(at, self.pages.word(at));
        let bytes = scan.bytes() + UPDATE_BYTES as u64;
        let reserved = self.reserved + UNDO_BYTES;
        if let Some(why) = reserve_room(&mut self.pages, bytes, reserved)? {
            return Ok(refused(why));
        }
        keep_copies(&mut self.collection, scan.copies())?;
        let entry = UndoEntry { object, field, was };
        if let Err(e) = keep_write(&mut self.table, &mut self.locks, session, entry, lock) {
            take_back_copies(&mut self.collection, scan.copies());
            return Err(StepError::from(e));
        }
        note_scan(&mut self.spaces, &mut self.collection, &scan);
        let update = Record::Update {
            t,
            object,
            field,
            was,
            word,
        };
        self.reserved = reserved;
        let write = PlannedWrite {
            scan: &scan,
            update,
        };
        carry_out(&mut self.pages, disk, &write)?;
        Ok(Reply::Done)
    }

    /// The reply for a field that was read; a handle holds what it refers to.
    fn read_into(&mut self, session: u32, h: u64, word: u64) -> Reply
        requires active { IsSome (own (memory self.old) session) }
        requires within { h < 64 }
        ensures reply { result ≡ word_reply (meaning word) }
        ensures left { IfSome (own (memory self.old) session) (λ t. LeavesOwn (memory self.old) (memory self.new) session [] (with_read t h (meaning word)) self.old.locks) }
        ensures pages { self.new.pages ≡ self.old.pages }
    {
        match decode(word) {
            Some(Word::Int(v)) => Reply::Int { v },
            Some(Word::Stable(at)) => self.refer(session, h, Place::Stable(at)),
            Some(Word::Volatile(at)) => self.refer(session, h, Place::Volatile(at)),
            Some(Word::Null) => Reply::Null,
            None => Reply::Null,
        }
    }

    fn refer(&mut self, session: u32, h: u64, to: Place) -> Reply
        requires active { IsSome (own (memory self.old) session) }
        requires within { h < 64 }
        requires meant { can_refer (Some to) ≡ true }
        ensures reply { result ≡ Reply.Reference }
        ensures left { IfSome (own (memory self.old) session) (λ t. LeavesOwn (memory self.old) (memory self.new) session [] (with_handle t h (Some to)) self.old.locks) }
        ensures pages { self.new.pages ≡ self.old.pages }
    {
        self.table.set_handle(session, h as u32, Some(to));
        Reply::Reference
    }
}

/// What a reference to the object at a place means.
fn word_of(place: Place) -> Word
    ensures { result ≡ place_word place }
{
    match place {
        Place::Stable(at) => Word::Stable(at),
        Place::Volatile(at) => Word::Volatile(at),
    }
}
