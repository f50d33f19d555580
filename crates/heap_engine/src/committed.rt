//! The words of an open heap without what active transactions wrote.
ghost use Rattle.std.specs.Prelude.{◌≡◌, IfOk};
ghost use Rattle.committed_words.specs.Committed.{words_of};

use crate::engine::Engine;
use committed_words::CommittedWords;
use std::alloc::{AllocError, Global};
use txn_table::SESSIONS;

impl Engine {
    ghost use Rattle.heap_engine.specs.EngineState.{memory, committed};

    /// The word address of the root object.
    pub fn root_address(&self) -> u32
        ensures { result ≡ (memory self.now).spaces.base }
    {
        self.spaces.base()
    }

    /// The words of both spaces without what active transactions wrote: the writes of each are taken back, session after session. What is taken back
    /// is laid over the words, of which no copy is made.
    pub fn committed_words(&self, alloc: Global) -> Result<CommittedWords<'_>, AllocError>
        ensures { IfOk result (λ words. words_of words ≡ committed self.now) }
    {
        let mut words = CommittedWords::of(alloc, self.pages.as_slice());
        for session in 1..=SESSIONS {
            if self.table.active(session) {
                words.take_back(self.table.undo(session))?;
            }
        }
        Ok(words)
    }
}
