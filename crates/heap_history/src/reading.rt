//! Reads the transactions of a history from its start.
ghost use Rattle.std.specs.Prelude.{◌≡◌, ◌∷◌, [], ◌++◌, OnOk, IfOk};
ghost use Rattle.std.specs.Option.{option_to_list};
ghost use Rattle.graph_model.specs.History.{Account, account_after, nothing_yet, begins, makes_call, seals, aborts, cut_short};
ghost use Rattle.heap_history.specs.Told.{KeepsReading, TellsOf};

use crate::commit_list::{Commit, CommitList};
use graph_model::{Entry, Event, Refusal, Reply};
use std::alloc::{AllocError, Global};
use std::collections::BTreeMap;

/// What has been read so far.
#[derive(Debug, Drop)]
pub(crate) struct Reading {
    alloc: Global,
    active: BTreeMap<u32, Commit>,
    sealed: Vec<Commit>,
    in_doubt: Option<Commit>,
}

impl Reading {
    /// Nothing read yet. Does not allocate.
    pub(crate) fn new(alloc: Global) -> Reading
        ensures { TellsOf nothing_yet result }
    {
        Reading {
            alloc,
            active: BTreeMap::new(alloc),
            sealed: Vec::new(alloc),
            in_doubt: None,
        }
    }

    /// Reads one more entry.
    pub(crate) fn read(&mut self, entry: &Entry) -> Result<(), AllocError>
        ensures { OnOk result (KeepsReading (λ a. account_after a entry.now) self.old self.new) }
    {
        let s = entry.event.session();
        match entry.reply {
            Reply::Begun { n } => self.begin(s, n),
            Reply::Sealed { .. } => self.seal(s),
            Reply::Aborted => {
                self.active.remove(&s);
                Ok(())
            }
            Reply::Durable { .. }
            | Reply::Flipped { .. }
            | Reply::Collecting
            | Reply::Scanned { .. }
            | Reply::Collected { .. }
            | Reply::Idle
            | Reply::Flushed { .. }
            | Reply::Clean { .. } => Ok(()),
            Reply::Refused {
                why: Refusal::DiskFault | Refusal::Stopped,
            } => self.cut(entry.event),
            Reply::Refused { .. } => Ok(()),
            _ => self.call(s, entry.event),
        }
    }

    // Session `s` begins transaction `n`.
    fn begin(&mut self, s: u32, n: u64) -> Result<(), AllocError>
        ensures { OnOk result (KeepsReading (λ a. begins a s n) self.old self.new) }
    {
        self.active.insert(s, Commit::begin(self.alloc, n))?;
        Ok(())
    }

    // The transaction of session `s` is sealed.
    fn seal(&mut self, s: u32) -> Result<(), AllocError>
        ensures { OnOk result (KeepsReading (λ a. seals a s) self.old self.new) }
    {
        if let Some(transaction) = self.active.remove(&s) {
            self.sealed.push(transaction)?;
        }
        Ok(())
    }

    // The transaction of session `s` makes a call.
    fn call(&mut self, s: u32, call: Event) -> Result<(), AllocError>
        ensures { OnOk result (KeepsReading (λ a. makes_call a s call) self.old self.new) }
    {
        if let Some(mut transaction) = self.active.remove(&s) {
            transaction.push(call)?;
            self.active.insert(s, transaction)?;
        }
        Ok(())
    }

    // The disk cut an event short.
    fn cut(&mut self, event: Event) -> Result<(), AllocError>
        ensures { OnOk result (KeepsReading (λ a. cut_short a event) self.old self.new) }
    {
        if let Event::Seal { s } = event {
            self.in_doubt = match self.active.get(&s) {
                Some(transaction) => Some(transaction.copied(self.alloc)?),
                None => None,
            };
        }
        Ok(())
    }

    /// The commits: those that were sealed, and then the one in doubt.
    pub(crate) fn into_commits(self) -> Result<CommitList, AllocError>
        ensures { IfOk result (λ list. list ≡ self.sealed.items ++ option_to_list self.in_doubt) }
    {
        let Reading {
            alloc: _,
            active: _,
            mut sealed,
            in_doubt,
        } = self;
        if let Some(transaction) = in_doubt {
            sealed.push(transaction)?;
        }
        Ok(CommitList::from_vec(sealed))
    }
}
