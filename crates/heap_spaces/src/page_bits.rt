//! The words of a page, as the bits of a number.
ghost use Rattle.std.specs.Prelude.{◌≡◌, ◌≢◌, ◌<◌, ◌≤◌, ℕ, true, false, IfSome, IfNone};
ghost use Rattle.heap_spaces.specs.Addresses.{is_set};

/// Whether the word at a place is one of them.
pub(crate) fn has_bit(bits: u64, place: u32) -> bool
    requires { place < 64 }
    ensures { result ≡ is_set bits place }
{
    bits >> place & 1 == 1
}

/// The bits of a page with the word at a place, from 0 to 63, besides.
pub fn with_bit(bits: u64, place: u32) -> u64
    requires { place < 64 }
    ensures here { is_set result place ≡ true }
    ensures other { (i : ℕ) → i < 64 → i ≢ place → is_set result i ≡ is_set bits i }
{
    bits | 1 << place
}

/// Without the word at a place.
pub(crate) fn without_bit(bits: u64, place: u32) -> u64
    requires { place < 64 }
    ensures here { is_set result place ≡ false }
    ensures other { (i : ℕ) → i < 64 → i ≢ place → is_set result i ≡ is_set bits i }
{
    bits & !(1 << place)
}

/// The first of them.
pub(crate) fn first_bit(bits: u64) -> Option<u32>
    ensures low { IfSome result (λ place. place < 64) }
    ensures some { IfSome result (λ place. is_set bits place ≡ true) }
    ensures first { IfSome result (λ place. (i : ℕ) → i < place → is_set bits i ≡ false) }
    ensures none { IfNone result (bits ≡ 0) }
{
    if bits == 0 {
        return None;
    }
    Some(bits.trailing_zeros())
}

/// The place of the first word that the bits of a page have, from a place on, which is from 0 to 63.
pub fn first_bit_from(bits: u64, place: u32) -> Option<u32>
    requires { place < 64 }
    ensures low { IfSome result (λ found. found < 64) }
    ensures some { IfSome result (λ found. is_set bits found ≡ true) }
    ensures from { IfSome result (λ found. place ≤ found) }
    ensures first { IfSome result (λ found. (i : ℕ) → place ≤ i → i < found → is_set bits i ≡ false) }
    ensures none { IfNone result ((i : ℕ) → place ≤ i → is_set bits i ≡ false) }
{
    Some(place + first_bit(bits >> place)?)
}
