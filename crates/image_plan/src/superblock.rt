//! The superblock at the front of an image, and its bytes.
ghost use Rattle.std.specs.Prelude.{◌≡◌, ◌↔◌, Some, IfSome, IsTrue};
ghost use Rattle.image_plan.specs.Super.{IsSuper, superblock};

use crate::plan::{LEAST_LOG, MOST_LOG, MOST_PAGES, Plan, SUPER_BYTES};
use byteorder::{ByteOrder, LittleEndian};

/// The first byte of a heap's image, its gate, where it is open.
const OPEN_GATE: u8 = 1;

/// The format that this program writes and reads.
const FORMAT: u32 = 1;

/// What each heap begins with, behind its gate.
const MAGIC: [u8; 7] = *b"stbheap";

/// What the superblock says of a heap: the numbers that it was made with.
#[derive(Clone, Copy, Debug, PartialEq, Eq)]
pub struct Super {
    /// The pages of each space, 1 to 16,384.
    pub pages: u32,
    /// The bytes of the log, 64 to 1,073,741,824.
    pub log_bytes: u32,
    /// The first transaction number, 1 or more.
    pub first: u32,
}

impl Super {
    /// The plan of the heap.
    pub fn plan(&self) -> Plan
        ensures { result ≡ record { pages = self.now.pages; log_bytes = self.now.log_bytes } }
    {
        Plan::of(self.pages, self.log_bytes)
    }

    /// Whether the numbers are within their limits.
    pub fn is_within_limits(&self) -> bool
        ensures { IsTrue result ↔ IsSuper self.now }
    {
        (1..=MOST_PAGES).contains(&self.pages)
            && (LEAST_LOG..=MOST_LOG).contains(&self.log_bytes)
            && self.first >= 1
    }
}

/// The bytes of the superblock, with its gate open.
pub fn write_super(of: &Super) -> [u8; SUPER_BYTES]
    ensures { result ≡ superblock of.now }
{
    let mut bytes = [0u8; SUPER_BYTES];
    bytes[0] = OPEN_GATE;
    bytes[1..8].copy_from_slice(&MAGIC);
    LittleEndian::write_u32(&mut bytes[8..], FORMAT);
    LittleEndian::write_u32(&mut bytes[12..], of.pages);
    LittleEndian::write_u32(&mut bytes[16..], of.log_bytes);
    LittleEndian::write_u32(&mut bytes[20..], of.first);
    bytes
}

/// What the superblock says, if the bytes are one with its gate open.
pub fn read_super(bytes: &[u8; SUPER_BYTES]) -> Option<Super>
    ensures found { IfSome result (λ s. IsSuper s × (bytes.now ≡ superblock s)) }
    ensures only { (s : Super) → IsSuper s → bytes.now ≡ superblock s → result ≡ Some s }
{
    let found = Super {
        pages: LittleEndian::read_u32(&bytes[12..]),
        log_bytes: LittleEndian::read_u32(&bytes[16..]),
        first: LittleEndian::read_u32(&bytes[20..]),
    };
    if found.is_within_limits() && write_super(&found).as_slice() == bytes.as_slice() {
        Some(found)
    } else {
        None
    }
}
