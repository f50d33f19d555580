//! Where promoted objects go.
ghost use Rattle.std.specs.Prelude.{◌≡◌, ◌+◌, ◌<◌, ◌≤◌, ◌^◌, zip, length, All, Contains, IfOk};
ghost use Rattle.std.specs.List.Sorted.{IsStrictlySortedBy};
ghost use Rattle.std.specs.Ordering.{nat_cmp};
ghost use Rattle.volatile_area.specs.Area.{starts_of};
ghost use Rattle.stability_tracker.specs.Promotion.{need};
ghost use Rattle.graph_words.specs.Promotion.{moves_to, moved_word as moved};

use heap_words::{FIELDS_AT, Word, decode, encode};
use std::alloc::{AllocError, Global};
use volatile_area::Area;

/// The addresses of these objects of an area: they are laid out one after another from an address on.
pub(crate) fn addresses_of(
    alloc: Global,
    area: &Area,
    objects: &[u32],
    address: u32,
) -> Result<Vec<u32>, AllocError>
    requires there { All (Contains (starts_of area.now)) objects.now }
    requires room { address + need area.now objects.now ≤ 2 ^ 21 }
    ensures moves { IfOk result (λ addresses. zip objects.now addresses.items ≡ moves_to area.now objects.now address) }
    ensures small { IfOk result (λ addresses. All (λ n. n < 2 ^ 21) addresses.items) }
    ensures count { IfOk result (λ addresses. length addresses.items ≡ length objects.now) }
{
    let mut addresses = Vec::new(alloc);
    let mut next = address;
    for object in objects {
        addresses.push(next)?;
        next += FIELDS_AT + area.length(*object);
    }
    Ok(addresses)
}

/// A field's word after the move: one that referred to an object which moved refers to its address.
pub(crate) fn moved_word(objects: &[u32], addresses: &[u32], word: u64) -> u64
    requires ascend { IsStrictlySortedBy nat_cmp objects.now }
    requires small { All (λ n. n < 2 ^ 21) addresses.now }
    requires count { length addresses.now ≡ length objects.now }
    ensures { result ≡ moved (zip objects.now addresses.now) word }
{
    match decode(word) {
        Some(Word::Volatile(at)) => match objects.binary_search(&at) {
            Ok(i) => encode(Word::Stable(addresses[i])),
            Err(_) => word,
        },
        _ => word,
    }
}
