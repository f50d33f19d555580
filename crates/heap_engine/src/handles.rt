//! The handles of a transaction: what each holds, the objects that are made for them, and what may be asked of those that they hold.
ghost use Rattle.std.specs.Prelude.{◌≡◌, true, Ok, Some, None, OnErr, IfOk};
ghost use Rattle.graph_model.specs.Plain.{reply_of};
ghost use Rattle.graph_model.specs.declared.reply.Reply.TheVariants.{Done};
ghost use Rattle.heap_words.specs.Word.{IsWord};
ghost use Rattle.heap_memory.specs.Memory.{own, root_place, place_word, held_place};
ghost use Rattle.heap_engine.specs.Reserve.{can_refer};

use crate::engine::{Engine, refused};
use graph_model::{Refusal, Reply};
use std::alloc::AllocError;
use txn_table::{HANDLES, Place};
use volatile_area::AreaError;

/// The most fields of an object.
const MOST_FIELDS: u64 = heap_words::MOST_FIELDS as u64;

impl Engine {
    ghost use Rattle.heap_memory.specs.Refusals.{handle_refusal, new_refusal, same_refusal, len_refusal};
    ghost use Rattle.heap_memory.specs.Replies.{same_reply, len_reply};
    ghost use Rattle.heap_memory.specs.Leaves.{SetsHandle, Makes};
    ghost use Rattle.heap_engine.specs.EngineState.{memory};

    /// Lets a handle of the transaction, one of 0 to 63, hold the root object.
    pub(crate) fn root(&mut self, session: u32, h: u64) -> Reply
        ensures reply { result ≡ reply_of (handle_refusal (own (memory self.old) session) h) Done }
        ensures done { result ≡ Done → SetsHandle (memory self.old) (memory self.new) session h (Some (root_place (memory self.old))) }
        ensures refused { (why : _) → result ≡ Reply.Refused why → self.new ≡ self.old }
        ensures pages { self.new.pages ≡ self.old.pages }
    {
        let root = Place::Stable(self.spaces.base());
        self.set_handle(session, h, Some(root))
    }

    /// Lets a handle of the transaction, one of 0 to 63, hold nothing.
    pub(crate) fn drop_handle(&mut self, session: u32, h: u64) -> Reply
        ensures reply { result ≡ reply_of (handle_refusal (own (memory self.old) session) h) Done }
        ensures done { result ≡ Done → SetsHandle (memory self.old) (memory self.new) session h None }
        ensures refused { (why : _) → result ≡ Reply.Refused why → self.new ≡ self.old }
        ensures pages { self.new.pages ≡ self.old.pages }
    {
        self.set_handle(session, h, None)
    }

    fn set_handle(&mut self, session: u32, h: u64, to: Option<Place>) -> Reply
        requires { can_refer to ≡ true }
        ensures reply { result ≡ reply_of (handle_refusal (own (memory self.old) session) h) Done }
        ensures done { result ≡ Done → SetsHandle (memory self.old) (memory self.new) session h to }
        ensures refused { (why : _) → result ≡ Reply.Refused why → self.new ≡ self.old }
        ensures pages { self.new.pages ≡ self.old.pages }
    {
        if let Some(why) = self.handle_refusal(session, h) {
            return refused(why);
        }
        self.table.set_handle(session, h as u32, to);
        Reply::Done
    }

    /// Makes a volatile object of `len` null fields, at most 510, which handle `h` of the transaction holds.
    pub(crate) fn make(&mut self, session: u32, h: u64, len: u64) -> Result<Reply, AllocError>
        ensures reply { IfOk result (λ reply. reply ≡ reply_of (new_refusal (own (memory self.old) session) h len) Done) }
        ensures done { result ≡ Ok Done → Makes (memory self.old) (memory self.new) session h len }
        ensures refused { (why : _) → result ≡ Ok (Reply.Refused why) → self.new ≡ self.old }
        ensures err { OnErr result (self.new ≡ self.old) }
        ensures pages { self.new.pages ≡ self.old.pages }
    {
        if let Some(why) = self.handle_refusal(session, h) {
            return Ok(refused(why));
        }
        if len > MOST_FIELDS {
            return Ok(refused(Refusal::Range));
        }
        match self.table.new_object(session, len as u32) {
            Ok(object) => {
                let place = Some(Place::Volatile(object));
                self.table.set_handle(session, h as u32, place);
                Ok(Reply::Done)
            }
            Err(AreaError::VolatileFull { used }) => Ok(refused(Refusal::VolatileFull {
                used: u64::from(used),
            })),
            Err(AreaError::NoMemory) => Err(AllocError),
        }
    }

    /// Whether two handles of the transaction hold the same object.
    pub(crate) fn same(&self, session: u32, h: u64, h2: u64) -> Reply
        ensures { result ≡ reply_of (same_refusal (memory self.now) session h h2) (same_reply (memory self.now) session h h2) }
    {
        match (self.held(session, h), self.held(session, h2)) {
            (Err(why), _) | (_, Err(why)) => refused(why),
            (Ok(one), Ok(other)) if one == other => Reply::Yes,
            (Ok(_), Ok(_)) => Reply::No,
        }
    }

    /// How many fields the object has that a handle of the transaction holds.
    pub(crate) fn len(&self, session: u32, h: u64) -> Reply
        ensures { result ≡ reply_of (len_refusal (memory self.now) session h) (len_reply (memory self.now) session h) }
    {
        match self.held(session, h) {
            Err(why) => refused(why),
            Ok(place) => Reply::Length {
                n: self.fields(session, place).len() as u64,
            },
        }
    }

    /// Why a handle can't be named.
    pub(crate) fn handle_refusal(&self, session: u32, h: u64) -> Option<Refusal>
        ensures { result ≡ handle_refusal (own (memory self.now) session) h }
    {
        if !self.table.active(session) {
            Some(Refusal::NotActive)
        } else if h >= u64::from(HANDLES) {
            Some(Refusal::BadHandle)
        } else {
            None
        }
    }

    /// Where the object stands that a handle of the transaction holds.
    pub(crate) fn held(&self, session: u32, h: u64) -> Result<Place, Refusal>
        ensures place { result ≡ held_place (own (memory self.now) session) h }
        ensures word { IfOk result (λ p. IsWord (place_word p)) }
    {
        if let Some(why) = self.handle_refusal(session, h) {
            return Err(why);
        }
        self.table
            .handle(session, h as u32)
            .ok_or(Refusal::BadHandle)
    }
}
