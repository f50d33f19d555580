//! Where the spaces of a collection lie.
ghost use Rattle.std.specs.Prelude.{◌≡◌, ◌+◌, ◌*◌, ◌≤◌, ◌<◌, IsTrue};
ghost use Rattle.heap_spaces.specs.Spaces.{space_words as words_of};
ghost use Rattle.page_scanner.specs.Scan.{from_base as base_of, in_from_space as lies_in_from_space, is_current as is_page_current, is_left as is_object_left};

use heap_spaces::{Collection, Spaces};
use heap_words::PAGE_WORDS;

/// How many words each of the spaces has.
pub(crate) fn space_words(spaces: &Spaces) -> u32
    ensures words { result ≡ words_of spaces.now.pages }
    ensures few { result ≤ 1048576 }
{
    spaces.used() + spaces.free()
}

/// The address of the from-space's first word.
fn from_base(spaces: &Spaces) -> u32
    ensures base { result ≡ base_of spaces.now }
    ensures few { result ≤ 1048576 }
{
    space_words(spaces) - spaces.base()
}

/// Whether a word address lies in the from-space.
pub(crate) fn is_in_from_space(spaces: &Spaces, at: u32) -> bool
    ensures { result ≡ lies_in_from_space spaces.now at }
{
    let base = from_base(spaces);
    base <= at && at < base + space_words(spaces)
}

/// Whether an object of `size` words at an address is one of those of the from-space that are left to be copied.
pub(crate) fn is_left(spaces: &Spaces, collection: &Collection, object: u32, size: u32) -> bool
    ensures { result ≡ is_object_left spaces.now collection.now object size }
{
    let end = u64::from(object) + u64::from(size);
    end <= u64::from(from_base(spaces)) + u64::from(collection.used())
        && !collection.has_moved(object)
}

/// Whether a page is one of the current space's.
pub(crate) fn is_current(spaces: &Spaces, page: u32) -> bool
    ensures is { result ≡ is_page_current spaces.now page }
    ensures low { IsTrue result → 64 * page < 2097152 }
{
    let first = u64::from(PAGE_WORDS) * u64::from(page);
    let base = spaces.base();
    u64::from(base) <= first && first < u64::from(base + space_words(spaces))
}
