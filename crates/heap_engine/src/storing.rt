//! The events that write the disk: pending records are forced, and a page is stored, never ahead of the log.
ghost use Rattle.std.specs.Prelude.{◌≡◌, ◌≢◌, Ok, Err, IfOk, IsTrue};
ghost use Rattle.disk_model.specs.Keeps.{KeepsDisk};
ghost use Rattle.graph_model.specs.declared.event.Event.TheVariants.{Force, Flush};
ghost use Rattle.heap_engine.specs.StepResult.{engine_device, reply_device};

use crate::engine::{Engine, refused};
use crate::step_error::StepError;
use disk_model::Disk;
use graph_model::{Refusal, Reply};

impl Engine {
    ghost use Rattle.heap_engine.specs.EngineState.{memory, LiesWithin, HasNotFailed};
    ghost use Rattle.heap_engine.specs.Ending.{Ends};
    ghost use Rattle.heap_engine.specs.Refinement.{Steps, StepsOn};
    ghost use Rattle.heap_engine.specs.declared.step_error.StepError.TheVariants.{NoMemory};

    /// Forces what is pending. Does not allocate.
    pub(crate) fn force<D: Disk>(&mut self, disk: &mut D) -> Result<Reply, StepError>
        requires inside { LiesWithin self.old (D.extent disk.old) }
        requires works { HasNotFailed self.old }
        ensures inside { LiesWithin self.new (D.extent disk.new) }
        ensures works { engine_device result ≡ Ok tt → HasNotFailed self.new }
        ensures disk { KeepsDisk D.Disk disk.old disk.new (engine_device result) }
        // An answer reports no failure of the disk.
        ensures answered { IfOk result (λ reply. reply_device reply ≡ Ok tt) }
        ensures core { Steps D.Disk Force self.old disk.old self.new disk.new result }
        ensures holds { IsTrue D.tells → StepsOn D.Disk Force self.old disk.old self.new disk.new result }
        ensures memory { result ≢ Err NoMemory }
        ensures ends { IfOk result (Ends (memory self.old) (memory self.new) Force) }
    {
        self.pages.force(disk)?;
        Ok(Reply::Durable { n: self.sealed })
    }

    /// Stores page `p`, if there is one that has changed since it was stored.
    pub(crate) fn flush<D: Disk>(&mut self, disk: &mut D, p: u64) -> Result<Reply, StepError>
        requires inside { LiesWithin self.old (D.extent disk.old) }
        requires works { HasNotFailed self.old }
        ensures inside { LiesWithin self.new (D.extent disk.new) }
        ensures works { engine_device result ≡ Ok tt → HasNotFailed self.new }
        ensures disk { KeepsDisk D.Disk disk.old disk.new (engine_device result) }
        // An answer reports no failure of the disk.
        ensures answered { IfOk result (λ reply. reply_device reply ≡ Ok tt) }
        ensures core { Steps D.Disk (Flush p) self.old disk.old self.new disk.new result }
        ensures holds { IsTrue D.tells → StepsOn D.Disk (Flush p) self.old disk.old self.new disk.new result }
    {
        if p >= u64::from(self.pages.pages()) {
            return Ok(refused(Refusal::NoSuchPage));
        }
        let page = p as u32;
        if !self.pages.dirty(page) {
            return Ok(Reply::Clean { page: p });
        }
        self.pages.store(disk, page)?;
        Ok(Reply::Flushed { page: p })
    }
}
