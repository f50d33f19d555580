//! Where the parts of an image lie.
ghost use Rattle.std.specs.Prelude.{◌≡◌, ◌+◌, ◌*◌, ◌<◌, ◌≤◌};
ghost use Rattle.image_plan.specs.Plan.{log_offset, image_size, frame_offset};

/// The bytes of the superblock, which the log follows.
pub const SUPER_BYTES: usize = 64;

/// The fewest bytes of a log.
pub const LEAST_LOG: u32 = 64;

/// The most bytes of a log.
pub const MOST_LOG: u32 = 1_073_741_824;

/// The most pages of a space.
pub const MOST_PAGES: u32 = 16_384;

/// The bytes of a frame: a gate, seven that are not used, an LSN and a page of 64 words.
pub const FRAME_BYTES: u64 = 528;

/// The frames of a page, which is stored into one or the other.
const FRAMES: u64 = 2;

/// The spaces of a heap, each with as many pages.
const SPACES: u64 = 2;

/// The parts of an image: the superblock, the log, and two frames for each page of both spaces.
#[derive(Clone, Copy, Debug, PartialEq, Eq)]
pub struct Plan {
    /// The pages of each of the two spaces.
    pub pages: u32,
    /// The bytes of the log.
    pub log_bytes: u32,
}

impl Plan {
    /// The plan of a heap with that many pages a space and bytes of log.
    pub fn of(pages: u32, log_bytes: u32) -> Plan
        ensures { result ≡ record { pages = pages; log_bytes = log_bytes } }
    {
        Plan { pages, log_bytes }
    }

    /// The bytes of the whole image.
    pub fn size(&self) -> u64
        ensures { result ≡ image_size self.now.pages self.now.log_bytes }
    {
        SUPER_BYTES as u64
            + u64::from(self.log_bytes)
            + SPACES * FRAMES * FRAME_BYTES * u64::from(self.pages)
    }

    /// The byte of the image where the log begins.
    pub fn log_at(&self) -> u64
        ensures { result ≡ log_offset }
    {
        SUPER_BYTES as u64
    }

    /// Where frame `f`, 0 or 1, of page `p` begins. The pages of both spaces are numbered from 0 on.
    pub fn frame_at(&self, p: u32, f: u32) -> u64
        ensures place { result ≡ frame_offset self.now.log_bytes p f }
        ensures behind_log { log_offset + self.now.log_bytes ≤ result }
        ensures inside { p < 2 * self.now.pages → f < 2 → result + 528 ≤ image_size self.now.pages self.now.log_bytes }
    {
        self.log_at()
            + u64::from(self.log_bytes)
            + (FRAMES * u64::from(p) + u64::from(f)) * FRAME_BYTES
    }
}
