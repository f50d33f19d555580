//! A heap that threads share.
ghost use Rattle.std.specs.Prelude.{◌≡◌, ◌+◌, ◌<◌, ◌≤◌, ◌++◌, ◌∷◌, [], List, ℕ, IsTrue, length, drop, IfOk, IfErr, OnErr, MatchResult, Some, slice_get, slice_index, vec_len};
ghost use Rattle.std.specs.List.{AllByRecursion};
ghost use Rattle.graph_model.specs.History.{acknowledged};
ghost use Rattle.heap_core.specs.HeapState.{heap_disk, history_of};
ghost use Rattle.heap_core.specs.Refinement.{IsHeap};
ghost use Rattle.heap_model.specs.Core.{Core};
ghost use Rattle.heap_model.specs.CoreCrash.{StandsForFirst};
ghost use Rattle.image_plan.specs.declared.superblock.Super.{Super};
ghost use Rattle.core_laws.specs.Valid.{IsReached};
ghost use Rattle.turn_lock.specs.Passes.{first_of, passes_of};

use crate::turned::{Turned, acknowledged_by};
use disk_model::Disk;
use graph_model::{Event, Reply};
use heap_core::Heap;
use std::alloc::{AllocError, Global};
use std::sync::Wait;
use turn_lock::TurnLock;

/// One caller's part of a shared heap. What it knows of the history exists in proofs alone.
pub type Pass<D> = turn_lock::Pass<Turned<D>>;

/// A heap that threads share. It takes their events one at a time.
#[derive(Drop)]
pub struct SharedHeap<D: Disk> {
    lock: TurnLock<Turned<D>>,
    ghost began: { (first_of lock).before ≡ length (history_of (first_of lock).heap) },
    ghost some: { 0 < passes_of lock },
}

impl<D: Disk> SharedHeap<D> {
    ghost use Rattle.graph_model.specs.declared.reply.Entry.{Entry};
    ghost use Rattle.shared_heap.specs.Follows.{Follows};
    ghost use Rattle.shared_heap.specs.Shared.{handed_in, IsOpen, IsPass, MaySend, MayLackMemory, Told, ToldOf};
    ghost use Rattle.turn_lock.specs.Passes.{pass_numbers, label_of, mine_of, seen_of, parts_of, turns_of, front_of, IsNew, IsSamePass, HasSameTurns};
    ghost use Rattle.turn_lock.specs.Turning.{EachOnce, IsBeginning, StandIn, places, times, total};

    /// Shares a heap, with one pass for each label, in their order: the number of a session, or 0. If memory runs out the heap is given back.
    pub fn new(
        alloc: Global,
        heap: Heap<D>,
        labels: &[u32],
    ) -> Result<(SharedHeap<D>, Vec<Pass<D>>), (AllocError, Heap<D>)>
        requires labels { 0 < length labels.now }
        ensures heap { IfOk result (λ r. (handed_in r.0 ≡ heap) × (passes_of r.0.lock ≡ length labels.now)) }
        ensures count { IfOk result (λ r. vec_len r.1 ≡ length labels.now) }
        ensures passes { IfOk result (λ r. (i : ℕ) (pass : _) → slice_get r.1.items i ≡ Some pass → IsPass r.0 pass × (pass_numbers pass ≡ i ∷ []) × (label_of pass ≡ slice_index labels.now i) × (seen_of pass ≡ history_of heap) × (mine_of pass ≡ []) × (turns_of pass ≡ 0) × (front_of pass ≡ 0)) }
        ensures err { IfErr result (λ e. e.1 ≡ heap) }
    {
        let before = heap.history().len();
        let turned = Turned {
            heap,
            before,
            empty: 0,
        };
        match TurnLock::new(alloc, turned, labels) {
            Ok((lock, passes)) => Ok((SharedHeap { lock }, passes)),
            Err((e, turned)) => {
                let Turned {
                    heap,
                    before: _,
                    empty: _,
                } = turned;
                Err((e, heap))
            }
        }
    }

    /// Waits for a turn, and makes one event in it. If memory runs out, nothing is added to the history. As in `Heap::step`, the abort of a transaction
    /// never runs out of memory until the disk fails, nor does a seal that promotes nothing, or a force of unacknowledged commits.
    pub fn call<R: Wait>(
        &self,
        rt: &R,
        pass: &mut Pass<D>,
        event: Event,
    ) -> Result<Reply, AllocError>
        requires pass { IsPass self.now pass.old }
        requires event { MaySend (label_of pass.old) event }
        ensures pass { IsPass self.now pass.new × IsSamePass pass.old pass.new }
        ensures turns { turns_of pass.new ≡ turns_of pass.old + 1 }
        ensures seen { IsBeginning (seen_of pass.old) (seen_of pass.new) }
        // The answer is the last entry that the pass has seen, after all that it had seen, and one more of its own.
        ensures answered { MatchResult result (λ reply. (before : List Entry) × IsBeginning (seen_of pass.old) before × (seen_of pass.new ≡ before ++ record { event = event; reply = reply } ∷ []) × (mine_of pass.new ≡ mine_of pass.old ++ (length before, record { event = event; reply = reply }) ∷ [])) (λ _. mine_of pass.new ≡ mine_of pass.old) }
        // So it is the core's at that place of the history.
        ensures core { Told (handed_in self.now) (seen_of pass.new) }
        // When memory runs out, transactions can still be ended and commits forced.
        ensures memory { OnErr result (ToldOf (handed_in self.now) (seen_of pass.new) (MayLackMemory event)) }
        ensures front { (front_of pass.new ≡ acknowledged (drop (length (history_of (handed_in self.now))) (seen_of pass.new))) × (front_of pass.old ≤ front_of pass.new) }
    {
        let mut held = self.lock.hold(rt, pass);
        let answer = held.value.step(event);
        let front = match &answer {
            Ok(reply) => acknowledged_by(reply),
            Err(_) => 0,
        };
        self.lock.give(pass, held, front);
        answer
    }

    /// How many commits, counted from the heap's opening, were acknowledged since it was shared: 0 before the first `Durable` since then. That it has what
    /// another pass got is tested; no clause says so. It is read without waiting, whoever has the turn.
    pub fn front(&self, pass: &mut Pass<D>) -> u64
        requires { IsPass self.now pass.old }
        ensures pass { IsPass self.now pass.new × IsSamePass pass.old pass.new × HasSameTurns pass.old pass.new }
        ensures front { (front_of pass.new ≡ result) × (front_of pass.old ≤ result) }
    {
        self.lock.front(pass)
    }

    /// Ends the sharing with all passes, and returns the heap. It does not wait.
    pub fn close(self, mut passes: Vec<Pass<D>>) -> Heap<D>
        requires each { AllByRecursion (IsPass self) passes.items }
        requires all { (number : ℕ) → number < passes_of self.lock → 0 < total (λ p. times number (pass_numbers p)) passes.items }
        // One history: each entry of a pass stands at its place, and each place since the heap was shared is one pass's, once.
        ensures stand { AllByRecursion (λ p. StandIn (history_of result) (mine_of p)) passes.items }
        ensures once { EachOnce (λ k. total (λ p. times k (places (mine_of p))) passes.items) (length (history_of (handed_in self))) (length (history_of result)) }
        // And all that any pass saw is a prefix of it.
        ensures seen { AllByRecursion (λ p. IsBeginning (seen_of p) (history_of result)) passes.items }
        // It is a run of the core that was handed in, on any disk and on a modelled one; the disk's counts say why it failed.
        ensures follows { Follows (handed_in self) result }
        ensures front { AllByRecursion (λ p. front_of p ≤ acknowledged (history_of result)) passes.items }
        // Each image that a crash leaves of it stands for the first commits of that core, at least as many as the front that any pass knows.
        ensures crash { IsTrue D.tells → (s : Super) (c : Core) → IsHeap s c (handed_in self) → IsReached c → (d : Core) × IsHeap s d result × IsReached d × ((image : List ℕ) → D.may_leave (heap_disk result) image → (k : ℕ) × StandsForFirst d k image × AllByRecursion (λ p. front_of p ≤ k) passes.items) }
    {
        let last = passes.pop().unwrap();
        let pass = self.join_all(last, passes);
        let Turned {
            heap,
            before: _,
            empty: _,
        } = self.lock.close(pass);
        heap
    }

    // Joins all passes into one.
    fn join_all(&self, mut pass: Pass<D>, mut passes: Vec<Pass<D>>) -> Pass<D>
        requires pass { IsOpen self.now pass }
        requires each { AllByRecursion (IsPass self.now) passes.items }
        ensures pass { IsOpen self.now result }
        ensures numbers { (n : ℕ) → times n (pass_numbers result) ≡ times n (pass_numbers pass) + total (λ p. times n (pass_numbers p)) passes.items }
        ensures places { (k : ℕ) → times k (places (mine_of result)) ≡ times k (places (mine_of pass)) + total (λ p. times k (places (mine_of p))) passes.items }
        ensures stand { (log : List Entry) → StandIn log (mine_of result) → StandIn log (mine_of pass) × AllByRecursion (λ p. StandIn log (mine_of p)) passes.items }
        ensures seen { (log : List Entry) → AllByRecursion (λ seen. IsBeginning seen log) (seen_of result ∷ parts_of result) → AllByRecursion (λ seen. IsBeginning seen log) (seen_of pass ∷ parts_of pass) × AllByRecursion (λ p. IsBeginning (seen_of p) log) passes.items }
        ensures front { (front_of pass ≤ front_of result) × AllByRecursion (λ p. front_of p ≤ front_of result) passes.items }
    {
        match passes.pop() {
            None => pass,
            Some(other) => {
                self.lock.join(&mut pass, other);
                self.join_all(pass, passes)
            }
        }
    }
}
