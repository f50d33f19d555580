//! Spoiled images: what the heap says of each is compared with what the second reading says.
use crate::heaps::opened;
use crate::reader::{Verdict, read};
use std::alloc::{AllocError, Global};
use std::fmt::Debug;
use std::process::Abort;
use std::test::Fail;

/// What an image is, for a comparison that fails: a word, a place and a value.
pub type Case<'a> = (&'a str, usize, u64);

/// Compares what was found. All comparisons are made here, since the proof of each assertion takes long.
fn same<T: PartialEq + Debug + Copy>(rt: &impl Abort, found: T, want: T) {
    assert_eq!(rt; found, want);
}

/// Opens the image, and asks the second reading what it holds, before and after: all three say the same, which is returned.
pub fn judge(
    rt: &impl Abort,
    alloc: Global,
    image: &[u8],
    case: Case<'_>,
) -> Result<Verdict, AllocError> {
    let (answer, disk) = opened(rt, alloc, image)?;
    let before = read(alloc, image)?;
    let after = read(alloc, disk.contents())?;
    same(rt, (case, before, after), (case, answer, answer));
    Ok(answer)
}

/// All three say this of the image.
pub fn expect(
    rt: &impl Abort,
    alloc: Global,
    image: &[u8],
    case: Case<'_>,
    want: Verdict,
) -> Result<(), AllocError> {
    let found = judge(rt, alloc, image, case)?;
    same(rt, (case, found), (case, want));
    Ok(())
}

/// A verdict without its place.
#[derive(Clone, Copy, Debug, PartialEq, Eq)]
pub enum Kind {
    Heap,
    NotHeap,
    Batch,
    Record,
    Reserve,
    Page,
    Address,
}

fn kind_of(verdict: Verdict) -> Kind {
    match verdict {
        Verdict::Heap => Kind::Heap,
        Verdict::NotHeap => Kind::NotHeap,
        Verdict::Batch(_) => Kind::Batch,
        Verdict::Record(_) => Kind::Record,
        Verdict::Reserve => Kind::Reserve,
        Verdict::Page(_) => Kind::Page,
        Verdict::Address(_) => Kind::Address,
    }
}

/// The kinds of the verdicts that occurred.
#[derive(Drop)]
pub struct Tally {
    kinds: Vec<Kind>,
}

impl Tally {
    pub fn new(alloc: Global) -> Tally {
        Tally {
            kinds: Vec::new(alloc),
        }
    }

    /// How often a kind occurred.
    fn count(&self, kind: Kind) -> usize {
        let mut count: usize = 0;
        for other in &self.kinds {
            if *other == kind {
                count = count.saturating_add(1);
            }
        }
        count
    }

    /// Judges an image, and counts what is said of it.
    pub fn add(
        &mut self,
        rt: &impl Abort,
        alloc: Global,
        image: &[u8],
        case: Case<'_>,
    ) -> Result<(), AllocError> {
        let verdict = judge(rt, alloc, image, case)?;
        self.kinds.push(kind_of(verdict))?;
        Ok(())
    }

    /// Judges the image for some other values of each of these bytes.
    fn spoil(
        &mut self,
        rt: &impl Abort,
        alloc: Global,
        image: &[u8],
        (from, to): (usize, usize),
    ) -> Result<(), AllocError> {
        for place in from..to {
            for change in &CHANGES {
                let (spoiled, value) = spoil_byte(rt, alloc, image, place, *change)?;
                self.add(rt, alloc, &spoiled, ("byte", place, value))?;
            }
        }
        Ok(())
    }

    /// These kinds occurred this often.
    pub fn expect_counts(&self, rt: &impl Abort, counts: &[(Kind, usize)]) {
        for (kind, want) in counts {
            same(rt, (*kind, self.count(*kind)), (*kind, *want));
        }
    }

    /// These kinds occurred, or never did.
    pub fn expect_kinds(&self, rt: &impl Abort, kinds: &[(Kind, bool)]) {
        for (kind, want) in kinds {
            let came = self.count(*kind) > 0;
            same(rt, (*kind, came), (*kind, *want));
        }
    }
}

/// What a byte is spoiled to.
#[derive(Clone, Copy)]
enum Change {
    Fixed(u8),
    /// Increased by that much, modulo 256.
    Raised(u8),
    /// Other bits where this one has ones.
    Turned(u8),
}

const CHANGES: [Change; 9] = [
    Change::Fixed(0),
    Change::Fixed(1),
    Change::Fixed(2),
    Change::Fixed(255),
    Change::Raised(1),
    Change::Raised(4),
    Change::Raised(255),
    Change::Turned(1),
    Change::Turned(128),
];

impl Change {
    fn apply(self, byte: u8) -> u8 {
        match self {
            Change::Fixed(value) => value,
            Change::Raised(by) => byte.wrapping_add(by),
            Change::Turned(bits) => byte ^ bits,
        }
    }
}

/// The image with one byte changed, and what that is now.
fn spoil_byte(
    rt: &impl Abort,
    alloc: Global,
    image: &[u8],
    place: usize,
    change: Change,
) -> Result<(Vec<u8>, u64), AllocError> {
    let mut spoiled = image.to_vec(alloc)?;
    let Some(byte) = spoiled.get_mut(place) else {
        panic!(rt; "byte {place} of an image");
    };
    *byte = change.apply(*byte);
    let value = u64::from(*byte);
    Ok((spoiled, value))
}

/// Bytes of an image that are spoiled in turn, from one to before another, and which kinds of verdicts result and which never do.
#[derive(Clone, Copy)]
pub struct Part {
    pub bytes: &'static [(usize, usize)],
    pub kinds: &'static [(Kind, bool)],
}

/// Spoils the parts of an image that is itself good.
pub fn check_parts(
    rt: &impl Abort,
    alloc: Global,
    image: &[u8],
    parts: &[Part],
) -> Result<(), Fail> {
    expect(rt, alloc, image, ("unspoiled", 0, 0), Verdict::Heap)?;
    spoil_parts(rt, alloc, image, parts)
}

/// Spoils the parts of an image.
pub fn spoil_parts(
    rt: &impl Abort,
    alloc: Global,
    image: &[u8],
    parts: &[Part],
) -> Result<(), Fail> {
    for part in parts {
        let mut tally = Tally::new(alloc);
        for range in part.bytes {
            tally.spoil(rt, alloc, image, *range)?;
        }
        tally.expect_kinds(rt, part.kinds);
    }
    Ok(())
}

/// Puts the bytes there.
pub fn poke(rt: &impl Abort, image: &mut [u8], at: usize, bytes: &[u8]) {
    let mut place = at;
    for byte in bytes {
        match image.get_mut(place) {
            Some(old) => *old = *byte,
            None => panic!(rt; "byte {place} of an image"),
        }
        place = place.saturating_add(1);
    }
}

/// These bytes stand in the image, each at its place.
pub fn expect_bytes(rt: &impl Abort, image: &[u8], bytes: &[(usize, u8)]) {
    for (at, want) in bytes {
        let found = image.get(*at).copied();
        same(rt, (*at, found), (*at, Some(*want)));
    }
}
