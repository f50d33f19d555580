//! What a transaction sees, and which locks its calls need.
ghost use Rattle.std.specs.Prelude.{◌≡◌, None, nat_lt, length, slice_index_or, IfOk, slice_set, if◌then◌else◌};
ghost use Rattle.graph_model.specs.declared.val.Val.TheVariants.{Null};
ghost use Rattle.graph_model.specs.declared.reply.Refusal.TheVariants.{BadHandle};
ghost use Rattle.graph_model.specs.declared.reply.Reply.TheVariants.{Length};
ghost use Rattle.graph_model.specs.Locking.{lock_of, stands_in_the_way};
ghost use Rattle.graph_model.specs.Transaction.{held, fields_of, reference_to, same_reply, hold, make, write, read, call, fresh_view, run};
ghost use Rattle.graph_model.specs.Plain.{view_refusal, handle_refusal, new_refusal, field_refusal, put_refusal, link_refusal, same_refusal, len_refusal};
ghost use Rattle.slow_heap.specs.Objects.{graph_of};

use crate::active_transaction::ActiveTransaction;
use crate::object_lock::ObjectLock;
use crate::objects::Objects;
use graph_model::{Event, Id, ROOT, Refusal, Reply, Val};
use std::alloc::AllocError;

/// The greatest number of a handle.
const LAST_HANDLE: u64 = 63;

/// The most fields of an object.
const MOST_FIELDS: u64 = 510;

/// The first number that is too large for a field.
const NO_INT: u64 = 1 << 62;

/// What a transaction sees: its number, what its handles hold, how many objects it has made, and the objects.
#[derive(Drop)]
pub struct TransactionView {
    number: u32,
    handles: [Option<Id>; 64],
    made: u32,
    objects: Objects,
}

impl TransactionView {
    ghost use Rattle.slow_heap.specs.SlowHeap.{seen_by, Leaves};

    /// A transaction begins on these objects. It fails only when out of memory.
    fn begin(number: u32, objects: &Objects) -> Result<TransactionView, AllocError>
        ensures number { IfOk result (λ view. view.number ≡ number) }
        ensures view { IfOk result (λ view. seen_by view ≡ fresh_view (graph_of objects.now)) }
    {
        Ok(TransactionView {
            number,
            handles: [None; 64],
            made: 0,
            objects: objects.copy()?,
        })
    }

    /// A transaction has made its calls on these objects. It fails only when out of memory or of names for objects.
    pub fn run(
        objects: &Objects,
        transaction: &ActiveTransaction,
    ) -> Result<TransactionView, AllocError>
        ensures number { IfOk result (λ view. view.number ≡ transaction.now.number) }
        ensures view { IfOk result (λ view. seen_by view ≡ run (graph_of objects.now) transaction.now) }
    {
        let mut view = TransactionView::begin(transaction.number(), objects)?;
        for call in transaction.calls() {
            view.call(*call)?;
        }
        Ok(view)
    }

    /// The objects that it sees.
    pub fn into_objects(self) -> Objects
        ensures { result ≡ self.objects }
    {
        let TransactionView { objects, .. } = self;
        objects
    }

    /// Why a call is refused for what it asks for.
    pub fn refusal(&self, event: Event) -> Option<Refusal>
        ensures { result ≡ view_refusal (seen_by self.now) event }
    {
        match event {
            Event::Root { h, .. } | Event::Drop { h, .. } => handle_refusal(h),
            Event::New { h, len, .. } => new_refusal(h, len),
            Event::Put { h, i, v, .. } => self.put_refusal(h, i, v),
            Event::Clear { h, i, .. } => self.field_refusal(h, i),
            Event::Link { h, i, h2, .. } => self.link_refusal(h, i, h2),
            Event::Get { h, i, h2, .. } => self.get_refusal(h, i, h2),
            Event::Same { h, h2, .. } => self.same_refusal(h, h2),
            Event::Len { h, .. } => self.len_refusal(h),
            Event::Begin { .. }
            | Event::Seal { .. }
            | Event::Abort { .. }
            | Event::Force
            | Event::Flip
            | Event::Scan
            | Event::Flush { .. } => None,
        }
    }

    fn field_refusal(&self, h: u64, i: u64) -> Option<Refusal>
        ensures { result ≡ field_refusal (graph_of self.now.objects) (held self.now.handles h) i }
    {
        let Some(id) = self.held(h) else {
            return Some(Refusal::BadHandle);
        };
        if i >= self.objects.fields(id).len() as u64 {
            return Some(Refusal::BadField);
        }
        None
    }

    fn put_refusal(&self, h: u64, i: u64, v: u64) -> Option<Refusal>
        ensures { result ≡ put_refusal (graph_of self.now.objects) (held self.now.handles h) i v }
    {
        if self.held(h).is_none() {
            return Some(Refusal::BadHandle);
        }
        if v >= NO_INT {
            return Some(Refusal::Range);
        }
        self.field_refusal(h, i)
    }

    fn link_refusal(&self, h: u64, i: u64, h2: u64) -> Option<Refusal>
        ensures { result ≡ link_refusal (graph_of self.now.objects) (held self.now.handles h) i (held self.now.handles h2) }
    {
        if self.held(h2).is_none() {
            return Some(Refusal::BadHandle);
        }
        self.field_refusal(h, i)
    }

    fn get_refusal(&self, h: u64, i: u64, h2: u64) -> Option<Refusal>
        ensures { result ≡ (if nat_lt 63 h2 then Some BadHandle else field_refusal (graph_of self.now.objects) (held self.now.handles h) i) }
    {
        if h2 > LAST_HANDLE {
            return Some(Refusal::BadHandle);
        }
        self.field_refusal(h, i)
    }

    fn same_refusal(&self, h: u64, h2: u64) -> Option<Refusal>
        ensures { result ≡ same_refusal (held self.now.handles h) (held self.now.handles h2) }
    {
        if self.held(h).is_none() || self.held(h2).is_none() {
            return Some(Refusal::BadHandle);
        }
        None
    }

    fn len_refusal(&self, h: u64) -> Option<Refusal>
        ensures { result ≡ len_refusal (held self.now.handles h) }
    {
        if self.held(h).is_none() {
            return Some(Refusal::BadHandle);
        }
        None
    }

    /// The lock that a call needs, if it needs one.
    pub fn lock_of(&self, event: Event) -> Option<ObjectLock>
        ensures { result ≡ lock_of (seen_by self.now).registers event }
    {
        match event {
            Event::Put { h, .. } | Event::Clear { h, .. } | Event::Link { h, .. } => {
                self.held(h).map(ObjectLock::exclusive)
            }
            Event::Get { h, .. } => self.held(h).map(ObjectLock::shared),
            _ => None,
        }
    }

    /// Makes a call, whether or not it should be refused. It fails only when out of memory or of names for objects.
    pub fn call(&mut self, event: Event) -> Result<Reply, AllocError>
        ensures { IfOk result (λ reply. Leaves self.old self.new reply (call (seen_by self.old) self.old.number event)) }
    {
        match event {
            Event::Root { h, .. } => Ok(self.hold(h, Some(ROOT))),
            Event::New { h, len, .. } => self.make(h, len),
            Event::Put { h, i, v, .. } => self.write(h, i, Val::Int(v)),
            Event::Clear { h, i, .. } => self.write(h, i, Val::Null),
            Event::Link { h, i, h2, .. } => self.link(h, i, h2),
            Event::Drop { h, .. } => Ok(self.hold(h, None)),
            Event::Get { h, i, h2, .. } => Ok(self.read(h, i, h2)),
            Event::Same { h, h2, .. } => Ok(self.compare(h, h2)),
            Event::Len { h, .. } => Ok(self.length(h)),
            Event::Begin { .. }
            | Event::Seal { .. }
            | Event::Abort { .. }
            | Event::Force
            | Event::Flip
            | Event::Scan
            | Event::Flush { .. } => Ok(Reply::Done),
        }
    }

    // What a handle holds; one above the last holds nothing.
    fn held(&self, h: u64) -> Option<Id>
        ensures { result ≡ held self.now.handles h }
    {
        if h > LAST_HANDLE {
            return None;
        }
        self.handles[h as usize]
    }

    // A handle holds this object, or nothing. Where there is no such handle, nothing changes.
    fn set_handle(&mut self, h: u64, object: Option<Id>)
        ensures { self.new ≡ record self.old { handles = slice_set self.old.handles h object } }
    {
        if h <= LAST_HANDLE {
            self.handles[h as usize] = object;
        }
    }

    fn hold(&mut self, h: u64, object: Option<Id>) -> Reply
        ensures { Leaves self.old self.new result (hold (seen_by self.old) h object) }
    {
        self.set_handle(h, object);
        Reply::Done
    }

    // A handle holds a new object of that many null fields.
    fn make(&mut self, h: u64, len: u64) -> Result<Reply, AllocError>
        ensures { IfOk result (λ reply. Leaves self.old self.new reply (make (seen_by self.old) self.old.number h len)) }
    {
        let k = self.made.checked_add(1).ok_or(AllocError)?;
        let id = Id { t: self.number, k };
        self.objects.insert(id, len as usize)?;
        self.set_handle(h, Some(id));
        self.made = k;
        Ok(Reply::Done)
    }

    // A field of what a handle holds has this value.
    fn write(&mut self, h: u64, i: u64, value: Val) -> Result<Reply, AllocError>
        ensures { IfOk result (λ reply. Leaves self.old self.new reply (write (seen_by self.old) h i value)) }
    {
        if let Some(id) = self.held(h) {
            self.objects.set(id, i as usize, value)?;
        }
        Ok(Reply::Done)
    }

    // A field of what a handle holds refers to what another holds.
    fn link(&mut self, h: u64, i: u64, h2: u64) -> Result<Reply, AllocError>
        ensures { IfOk result (λ reply. Leaves self.old self.new reply (write (seen_by self.old) h i (reference_to (held self.old.handles h2)))) }
    {
        match self.held(h2) {
            None => self.write(h, i, Val::Null),
            Some(target) => self.write(h, i, Val::Ref(target)),
        }
    }

    // A field is read; if it is a reference, handle h2 holds what it leads to.
    fn read(&mut self, h: u64, i: u64, h2: u64) -> Reply
        ensures { Leaves self.old self.new result (read (seen_by self.old) h2 (slice_index_or (fields_of (graph_of self.old.objects) (held self.old.handles h)) i Null)) }
    {
        match self.value(h, i) {
            Val::Null => Reply::Null,
            Val::Int(v) => Reply::Int { v },
            Val::Ref(target) => {
                self.set_handle(h2, Some(target));
                Reply::Reference
            }
        }
    }

    // The value of a field; null where there is no such field.
    fn value(&self, h: u64, i: u64) -> Val
        ensures { result ≡ slice_index_or (fields_of (graph_of self.now.objects) (held self.now.handles h)) i Null }
    {
        match self.held(h) {
            None => Val::Null,
            Some(id) => self
                .objects
                .fields(id)
                .get(i as usize)
                .copied()
                .unwrap_or(Val::Null),
        }
    }

    // Whether two handles hold one object.
    fn compare(&self, h: u64, h2: u64) -> Reply
        ensures { result ≡ same_reply (held self.now.handles h) (held self.now.handles h2) }
    {
        match (self.held(h), self.held(h2)) {
            (Some(id), Some(other)) if id == other => Reply::Yes,
            _ => Reply::No,
        }
    }

    // How many fields the object that a handle holds has.
    fn length(&self, h: u64) -> Reply
        ensures { result ≡ Length (length (fields_of (graph_of self.now.objects) (held self.now.handles h))) }
    {
        let n = match self.held(h) {
            None => 0,
            Some(id) => self.objects.fields(id).len() as u64,
        };
        Reply::Length { n }
    }
}

// Why a handle can't be named.
fn handle_refusal(h: u64) -> Option<Refusal>
    ensures { result ≡ handle_refusal h }
{
    if h > LAST_HANDLE {
        return Some(Refusal::BadHandle);
    }
    None
}

// Why a handle can't hold a new object of that many fields.
fn new_refusal(h: u64, len: u64) -> Option<Refusal>
    ensures { result ≡ new_refusal h len }
{
    if h > LAST_HANDLE {
        return Some(Refusal::BadHandle);
    }
    if len > MOST_FIELDS {
        return Some(Refusal::Range);
    }
    None
}

/// Whether a transaction, run on these objects, holds a lock that conflicts with one that transaction `number` asks for. It fails
/// only when out of memory or of names for objects.
pub fn stands_in_the_way(
    objects: &Objects,
    number: u32,
    asked: &ObjectLock,
    transaction: &ActiveTransaction,
) -> Result<bool, AllocError>
    ensures { IfOk result (λ stands. stands ≡ stands_in_the_way (graph_of objects.now) number asked.now transaction.now) }
{
    if transaction.number() == number {
        return Ok(false);
    }
    let mut view = TransactionView::begin(transaction.number(), objects)?;
    for call in transaction.calls() {
        if let Some(held) = view.lock_of(*call)
            && asked.conflicts_with(&held)
        {
            return Ok(true);
        }
        view.call(*call)?;
    }
    Ok(false)
}
