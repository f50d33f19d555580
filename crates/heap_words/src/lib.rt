//! The 64-bit words of objects, and what they mean: an object is a header, the word of its birth and its fields.
#![tactic(auto)]

ghost use Rattle.std.specs.Prelude.{◌≡◌, Some, IfSome};
ghost use Rattle.heap_words.specs.Header.{header, birth_bits};
ghost use Rattle.heap_words.specs.declared.Word.{Word};
ghost use Rattle.heap_words.specs.Word.{bits, IsWord, meaning, is_stable, is_volatile};

/// The stable words of the largest heap.
pub const STABLE_WORDS: u32 = 2_097_152;

/// The words of a transaction's volatile area.
pub const VOLATILE_WORDS: u32 = 4_096;

/// The first whole number that is too large for a word.
pub const NO_INT: u64 = 4_611_686_018_427_387_904;

/// The words of a page.
pub const PAGE_WORDS: u32 = 64;

/// The most fields that an object has.
pub const MOST_FIELDS: u32 = 510;

/// The offset of an object's fields from its address: they follow its header and its birth.
pub const FIELDS_AT: u32 = 2;

/// The fields of the root object.
pub const ROOT_FIELDS: u32 = 4;

/// What a field's word means.
#[derive(Clone, Copy, Debug, PartialEq, Eq)]
pub enum Word {
    /// No value.
    Null,
    /// A whole number below 2^62.
    Int(u64),
    /// A reference to the stable object at that word address, below 2,097,152.
    Stable(u32),
    /// A reference to the volatile object that starts at that word of its transaction's area, below 4,096.
    Volatile(u32),
}

/// The word that has that meaning.
pub fn encode(word: Word) -> u64
    requires { IsWord word }
    ensures { result ≡ bits word }
{
    match word {
        Word::Null => 0,
        Word::Int(n) => 4 * n + 1,
        Word::Stable(address) => 4 * u64::from(address) + 2,
        Word::Volatile(index) => 4 * u64::from(index) + 3,
    }
}

/// What the word means, if it is a field's word.
#[tactic(auto, unfolding(crate::specs::Word::meaning))]
pub fn decode(w: u64) -> Option<Word>
    ensures found { IfSome result (λ word. IsWord word × (w ≡ bits word)) }
    ensures only { (word : Word) → IsWord word → w ≡ bits word → result ≡ Some word }
    ensures read { result ≡ meaning w }
{
    let rest = w / 4;
    match w % 4 {
        1 => Some(Word::Int(rest)),
        2 if rest < u64::from(STABLE_WORDS) => Some(Word::Stable(rest as u32)),
        3 if rest < u64::from(VOLATILE_WORDS) => Some(Word::Volatile(rest as u32)),
        _ if w == 0 => Some(Word::Null),
        _ => None,
    }
}

/// Whether the word is a reference to a stable object.
pub fn is_stable(w: u64) -> bool
    ensures { result ≡ is_stable w }
{
    matches!(decode(w), Some(Word::Stable(_)))
}

/// Whether the word is a reference to a volatile object.
pub fn is_volatile(w: u64) -> bool
    ensures { result ≡ is_volatile w }
{
    matches!(decode(w), Some(Word::Volatile(_)))
}

/// What an object's header says.
#[derive(Clone, Copy, Debug, PartialEq, Eq)]
pub enum Header {
    /// The object has that many fields, at most 510.
    Length(u32),
    /// The object was moved to that word address, below 2,097,152.
    Forward(u32),
}

/// What the word says as a header, if it is one.
#[tactic(auto, unfolding(crate::specs::Header::header))]
pub fn header_of(w: u64) -> Option<Header>
    ensures { result ≡ header w }
{
    let rest = w / 4;
    match w % 4 {
        1 if rest <= u64::from(MOST_FIELDS) => Some(Header::Length(rest as u32)),
        2 if rest < u64::from(STABLE_WORDS) => Some(Header::Forward(rest as u32)),
        _ => None,
    }
}

/// The birth word of the `k`th object that transaction `t` made.
pub fn birth(t: u32, k: u32) -> u64
    ensures { result ≡ birth_bits t k }
{
    u64::from(t) << 32 | u64::from(k)
}
