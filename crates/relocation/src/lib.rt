//! Where objects went: pairs of the address at which an object stood and the one to which it went.
#![tactic(auto)]

ghost use Rattle.std.specs.Prelude.{◌≡◌};
ghost use Rattle.relocation.specs.Relocation.{IsRelocation, destination, moved_to, translated_word};

use heap_words::{Word, decode, encode};

/// The word address to which the object at `from` went, if it moved. Does not allocate, and takes time logarithmic in the number of pairs.
pub fn destination(pairs: &[(u32, u32)], from: u32) -> Option<u32>
    requires { IsRelocation pairs.now }
    ensures { result ≡ destination pairs.now from }
{
    match pairs.binary_search_by_key(&from, |&(old, _)| old) {
        Ok(place) => Some(pairs[place].1),
        Err(_) => None,
    }
}

/// The word address at which the object that stood at `from` stands: its own where it did not move.
pub fn moved_to(pairs: &[(u32, u32)], from: u32) -> u32
    requires { IsRelocation pairs.now }
    ensures { result ≡ moved_to pairs.now from }
{
    destination(pairs, from).unwrap_or(from)
}

/// A field's word after the move: a reference to a stable object that moved leads to where it went, and every other word stays.
pub fn translated_word(pairs: &[(u32, u32)], word: u64) -> u64
    requires { IsRelocation pairs.now }
    ensures { result ≡ translated_word pairs.now word }
{
    match decode(word) {
        Some(Word::Stable(address)) => encode(Word::Stable(moved_to(pairs, address))),
        _ => word,
    }
}
