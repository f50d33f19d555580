//! One run of a script, up to where its disk stops or fails.
use crate::base::{Base, Plain};
use crate::difference::Difference;
use crate::report::Harm;
use disk_model::{Disk, FuseDisk, MemoryDisk, Pick};
use graph_model::{Entry, Event, Refusal, Reply};
use heap_core::{Heap, OpenError};
use std::alloc::{AllocError, Global};

/// What a run came to.
#[derive(Drop)]
pub(crate) struct Run {
    /// What the restarted disk holds.
    pub(crate) left: Vec<u8>,
    /// How many commits were acknowledged.
    pub(crate) acknowledged: u64,
    /// How many transactions were sealed, with one whose seal was cut short.
    pub(crate) commits: u64,
    /// The event that was cut short.
    pub(crate) cut: Option<Event>,
    /// How many writes and syncs the disk was asked for and did not find stopped.
    pub(crate) calls: u64,
    /// What the events were answered that were not cut short.
    pub(crate) replies: Vec<Reply>,
    pub(crate) difference: Option<Difference>,
}

/// What has been answered so far.
#[derive(Drop)]
struct Answers {
    acknowledged: u64,
    commits: u64,
    cut: Option<Entry>,
    replies: Vec<Reply>,
}

impl Answers {
    fn none(alloc: Global) -> Answers {
        Answers {
            acknowledged: 0,
            commits: 0,
            cut: None,
            replies: Vec::new(alloc),
        }
    }

    /// Takes one more, and returns whether the run goes on.
    fn take(&mut self, event: Event, reply: Reply) -> Result<bool, AllocError> {
        match reply {
            Reply::Sealed { n } => self.commits = n,
            Reply::Durable { n } => self.acknowledged = n,
            Reply::Refused {
                why: Refusal::DiskFault | Refusal::Stopped,
            } => {
                self.end_in(event, reply);
                return Ok(false);
            }
            _ => {}
        }
        self.replies.push(reply)?;
        Ok(true)
    }

    /// The event is cut short. A crash may leave a commit whose seal was, or not.
    fn end_in(&mut self, event: Event, reply: Reply) {
        self.cut = Some(Entry { event, reply });
        if let Event::Seal { .. } = event {
            self.commits = self.commits.saturating_add(1);
        }
    }

    /// Whether the run was cut short just where its disk was harmed.
    fn cause(&self, harm: Option<Harm>, calls: u64) -> Option<Difference> {
        let harmed = match harm {
            Some(Harm::StopAfter(stop)) => Some((Refusal::Stopped, stop)),
            Some(Harm::FailAt(call)) => Some((Refusal::DiskFault, call)),
            _ => None,
        };
        let entry = self.cut?;
        match (entry.reply, harmed) {
            (Reply::Refused { why }, Some((wanted, at))) if why == wanted && at == calls => None,
            _ => Some(Difference::Cause { entry }),
        }
    }

    fn ended(
        self,
        alloc: Global,
        harm: Option<Harm>,
        calls: u64,
        mut disk: MemoryDisk,
    ) -> Result<Run, AllocError> {
        let difference = self.cause(harm, calls);
        disk.restart();
        Ok(Run {
            left: disk.contents().to_vec(alloc)?,
            acknowledged: self.acknowledged,
            commits: self.commits,
            cut: self.cut.map(|entry| entry.event),
            calls,
            replies: self.replies,
            difference,
        })
    }
}

/// Makes the events, until one is cut short, and tells them to the plain heap if there is one.
fn make_events<D: Disk>(
    heap: &mut Heap<D>,
    events: &[Event],
    answers: &mut Answers,
    plain: &mut Option<Plain>,
) -> Result<(), AllocError> {
    for event in events {
        if !event.is_of_session() {
            continue;
        }
        let reply = heap.step(*event)?;
        if let Some(plain) = plain {
            plain.tell(*event, reply)?;
        }
        if !answers.take(*event, reply)? {
            return Ok(());
        }
    }
    Ok(())
}

/// The limit of a fuse that never blows.
const NO_LIMIT: u64 = u64::MAX;

/// The calls that fail, and the limit of the fuse.
fn harm_of(alloc: Global, harm: Option<Harm>) -> Result<(Vec<u64>, u64), AllocError> {
    let mut fails = Vec::new(alloc);
    let mut limit = NO_LIMIT;
    match harm {
        Some(Harm::FailAt(call)) => fails.push(call)?,
        Some(Harm::StopAfter(calls)) => limit = calls,
        _ => {}
    }
    Ok((fails, limit))
}

/// Plays the script on a new heap whose disk is harmed so, restarted with that pick.
pub(crate) fn play(
    alloc: Global,
    base: &Base,
    harm: Option<Harm>,
    pick: Pick,
    plain: &mut Option<Plain>,
) -> Result<Run, AllocError> {
    let (fails, limit) = harm_of(alloc, harm)?;
    let disk = base.disk(alloc, &base.image, pick, fails, Vec::new(alloc))?;
    let mut answers = Answers::none(alloc);
    match Heap::open(alloc, FuseDisk::new(disk, limit)) {
        Ok(mut heap) => {
            make_events(&mut heap, &base.events, &mut answers, plain)?;
            let fuse = heap.close();
            answers.ended(alloc, harm, fuse.passed(), fuse.into_inner())
        }
        Err((OpenError::NoMemory, _)) => Err(AllocError),
        Err((error, fuse)) => {
            let mut run = answers.ended(alloc, harm, fuse.passed(), fuse.into_inner())?;
            run.difference = Some(Difference::Opening { error });
            Ok(run)
        }
    }
}
