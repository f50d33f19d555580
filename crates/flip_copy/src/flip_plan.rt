//! What a flip plans.
ghost use Rattle.std.specs.Prelude.{◌≡◌, ◌≤◌, IfOk, length, sum_by};
ghost use Rattle.heap_spaces.specs.declared.collection.CopiedObject.{CopiedObject};
ghost use Rattle.log_machine.specs.Collecting.{pairs_of};
ghost use Rattle.log_records.specs.Copies.{AreFew};
ghost use Rattle.log_records.specs.declared.Record.TheVariants.{Flip};
ghost use Rattle.relocation.specs.Relocation.{IsRelocation};
ghost use Rattle.flip_copy.specs.Copied.{moved_object, moved_objects, copied_size};

use heap_spaces::CopiedObject;
use log_records::{Copies, ObjectCopy, Record};
use std::alloc::{AllocError, Global};
use std::marker::Model;

/// The copies of a flip: its record, where the objects go, and what a collection keeps of the copies.
#[derive(Debug, Drop)]
pub struct FlipPlan {
    rec: Record,
    pairs: Vec<(u32, u32)>,
    moved: Vec<CopiedObject>,
}

impl Model for FlipPlan {
    ghost use Rattle.std.specs.Prelude.{List};
    ghost use Rattle.log_records.specs.declared.copies.ObjectCopy.{ObjectCopy};
    ghost use Rattle.log_records.specs.CopiesCode.{copies_code};
    ghost use Rattle.flip_copy.specs.Copied.{copies_in};
    ghost use Rattle.flip_copy.specs.Plan.{IsFlipPlan};

    ghost Value = { List ObjectCopy };

    ghost coded = { copies_code };

    ghost view = { λ s. copies_in s.rec };

    ghost invariant = { λ s. IsFlipPlan s.rec s.pairs.items s.moved.items };
}

impl FlipPlan {
    // The plan of these copies.
    pub(crate) fn of(alloc: Global, copies: Vec<ObjectCopy>) -> Result<FlipPlan, AllocError>
        requires few { AreFew copies.items }
        requires moves { IsRelocation (pairs_of copies.items) }
        ensures { IfOk result (λ plan. plan ≡ copies.items) }
    {
        let pairs = pairs_of(alloc, &copies)?;
        let moved = moved_objects(alloc, &copies)?;
        let copies = Copies::new(copies);
        Ok(FlipPlan {
            rec: Record::Flip { copies },
            pairs,
            moved,
        })
    }

    /// The record, which lists the copies.
    pub fn record(&self) -> &Record
        ensures { result.now ≡ Flip self.now }
    {
        &self.rec
    }

    /// The old address of each object and that of its copy, by which the transactions and their locks are translated.
    pub fn pairs(&self) -> &[(u32, u32)]
        ensures pairs { result.now ≡ pairs_of self.now }
        ensures moves { IsRelocation result.now }
    {
        &self.pairs
    }

    /// The copies, as a collection takes them.
    #[tactic(auto, using(crate::proofs::CopiesLaws::moved_size))]
    pub fn moved(&self) -> &[CopiedObject]
        ensures moved { result.now ≡ moved_objects self.now }
        ensures size { sum_by (λ (c : CopiedObject). c.words) result.now ≡ copied_size self.now }
    {
        &self.moved
    }

    /// The record, without copying it.
    pub fn into_record(self) -> Record
        ensures { result ≡ Flip self }
    {
        self.rec
    }
}

// The old address of each object and that of its copy.
fn pairs_of(alloc: Global, copies: &[ObjectCopy]) -> Result<Vec<(u32, u32)>, AllocError>
    ensures { IfOk result (λ pairs. pairs.items ≡ pairs_of copies.now) }
{
    let mut pairs = Vec::new(alloc);
    for copy in copies {
        pairs.push((copy.from, copy.to))?;
    }
    Ok(pairs)
}

// What a collection keeps of the copies.
fn moved_objects(alloc: Global, copies: &[ObjectCopy]) -> Result<Vec<CopiedObject>, AllocError>
    requires { AreFew copies.now }
    ensures { IfOk result (λ moved. moved.items ≡ moved_objects copies.now) }
{
    let mut moved = Vec::new(alloc);
    for copy in copies {
        moved.push(moved_object(copy))?;
    }
    Ok(moved)
}

// What a collection keeps of a copy.
fn moved_object(copy: &ObjectCopy) -> CopiedObject
    requires { length copy.now.words ≤ 512 }
    ensures { result ≡ moved_object copy.now }
{
    let words = copy.words.as_slice();
    CopiedObject {
        from: copy.from,
        to: copy.to,
        header: words.first().copied().unwrap_or(0),
        words: words.len() as u32,
    }
}
