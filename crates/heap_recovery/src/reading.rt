//! What is read of an image before anything is rolled back.
ghost use Rattle.std.specs.Prelude.{◌≡◌, ◌*◌, ◌≤◌, length};
ghost use Rattle.page_cache.specs.CacheState.{cached, cache_frames, cache_pages};

use gated_log::Log;
use image_plan::Super;
use log_machine::LogState;
use page_cache::PageCache;

/// What is read of an image.
#[derive(Debug, Drop)]
pub struct Reading {
    /// The numbers that the heap was made with.
    pub of: Super,
    /// The log. Records are pending in it from when losers are rolled back until it is forced.
    pub log: Log,
    /// The pages in memory, on each of which the log's records were redone that it lacked.
    pub cache: PageCache,
    /// What the records say.
    pub state: LogState,
    ghost few_pages: { of.pages ≤ 16384 },
    ghost same_pages: { state.pages ≡ of.pages },
    ghost sized: { length (cached cache).words ≡ 128 * of.pages },
    ghost frames: { cache_frames cache ≡ cache_pages cache },
}
