//! Cuts the lines of a script into one list of events for each worker.
ghost use Rattle.std.specs.Prelude.{◌≡◌, ◌+◌, ◌<◌, ◌≤◌, ℕ, IfOk, Some, slice_get, vec_len};
ghost use Rattle.std.specs.List.{AllByRecursion};
ghost use Rattle.graph_model.specs.History.{IsOfSession};
ghost use Rattle.script_text.specs.Line.{line_events};
ghost use Rattle.script_workers.specs.Workers.{worker_of, worker_events, IsFor, IsOfScript};

use graph_model::Event;
use heap_workers::{COLLECTOR, FLUSHER, MOST_WORKERS, Worker};
use script_text::Line;
use std::alloc::{AllocError, Global};

/// The number of the worker that makes a line's events: that of its session, of the collector for `flip` and `scan`, of the flusher for `force` and
/// `flush`.
pub fn worker_of(line: &Line) -> u32
    ensures number { result ≡ worker_of line.now }
    // Each line whose sessions are 1 to 32 has one of the 34 workers.
    ensures known { AllByRecursion IsOfSession (line_events line.now) → (1 ≤ result) × (result ≤ 34) }
{
    match line {
        Line::Commit { s } => *s,
        Line::One(Event::Flip | Event::Scan) => COLLECTOR,
        Line::One(Event::Force | Event::Flush { .. }) => FLUSHER,
        Line::One(event) => event.session(),
    }
}

/// The events of the lines that one worker makes, in their order.
pub fn events_of(alloc: Global, lines: &[Line], number: u32) -> Result<Vec<Event>, AllocError>
    ensures events { IfOk result (λ v. v.items ≡ worker_events number lines.now) }
    // Each of them is one that this worker may make.
    ensures own { IfOk result (λ v. AllByRecursion (IsFor number) v.items) }
{
    let mut events = Vec::new(alloc);
    for line in lines {
        if worker_of(line) != number {
            continue;
        }
        match line {
            Line::One(event) => events.push(*event)?,
            Line::Commit { s } => {
                events.push(Event::Seal { s: *s })?;
                events.push(Event::Force)?;
            }
        }
    }
    Ok(events)
}

/// All workers of a script, also those without a line: worker S of each session S, the collector and the flusher.
pub fn workers_of(alloc: Global, lines: &[Line], tries: u32) -> Result<Vec<Worker>, AllocError>
    requires { 0 < tries }
    ensures count { IfOk result (λ v. vec_len v ≡ 34) }
    ensures workers { IfOk result (λ v. (i : ℕ) (worker : _) → slice_get v.items i ≡ Some worker → IsOfScript tries lines.now (i + 1) worker) }
{
    let mut workers = Vec::with_capacity(alloc, MOST_WORKERS)?;
    for place in 0..FLUSHER {
        let events = events_of(alloc, lines, place + 1)?;
        workers.push(Worker {
            number: place + 1,
            tries,
            events,
        })?;
    }
    Ok(workers)
}
