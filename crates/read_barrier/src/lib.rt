//! The read barrier of a collection: what has to be scanned before a field of a stable object is read or written.
#![tactic(auto)]

ghost use Rattle.std.specs.Prelude.{◌≡◌, ◌↔◌, IfSome, IsSome};
ghost use Rattle.std.specs.Option.{option_map};
ghost use Rattle.read_barrier.specs.Barrier.{barrier_page_of, IsGrayIn};

use heap_spaces::Collection;
use heap_words::PAGE_WORDS;

/// The page that has to be scanned before a field of the object at the word address `object` is read or written: the one in which the
/// object starts, exactly if a collection runs and a gray object starts in it. Does not allocate; takes the same time however many objects
/// are gray.
pub fn needs_scan(collection: Option<&Collection>, object: u32, field: u32) -> Option<u32>
    ensures page { IfSome result (λ page. page ≡ barrier_page_of object field) }
    ensures needed { IsSome result ↔ IsGrayIn (option_map (λ c. c.now) collection.entry) (barrier_page_of object field) }
{
    let page = barrier_page(object, field);
    match collection {
        Some(collection) if collection.gray_in(page) => Some(page),
        _ => None,
    }
}

// The page whose gray objects may lead a reader of the field to the from-space.
fn barrier_page(object: u32, _field: u32) -> u32
    ensures { result ≡ barrier_page_of object _field }
{
    object / PAGE_WORDS
}
