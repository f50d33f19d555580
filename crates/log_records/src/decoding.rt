//! Which record bytes begin with.
ghost use Rattle.std.specs.Prelude.{◌≡◌, ◌≢◌, ◌+◌, ◌*◌, ◌^◌, ◌<◌, ◌≤◌, ◌↔◌, ◌∷◌, ◌++◌, List, ℕ, length, take, drop, vec_len, slice_index, Some, IfSome, IfOk, IsSomeAnd, IsTrue};
ghost use Rattle.std.specs.List.{AllByRecursion, flat_map};
ghost use Rattle.std.specs.Int.{w16, w32, w64, to_le_bytes};
ghost use Rattle.byteorder.specs.Endian.{little_number};
ghost use Rattle.heap_words.specs.Word.{IsFieldWord};
ghost use Rattle.heap_words.specs.Header.{header_bits};
ghost use Rattle.heap_words.specs.declared.Header.TheVariants.{Length};
ghost use Rattle.log_records.specs.declared.Record.{Record};
ghost use Rattle.log_records.specs.declared.copies.ObjectCopy.{ObjectCopy};
ghost use Rattle.log_records.specs.Copies.{word_bytes, write_bytes, copy_bytes};
ghost use Rattle.log_records.specs.Record.{spelling, Begins, IsObjectWords, IsObjectCopy, IsWrite, IsRecord, IsPut};

use crate::{
    BASE, BASE_HEAD_BYTES, COLLECTED, COLLECTED_BYTES, COMMIT, COMMIT_BYTES, COPY, COPY_HEAD_BYTES,
    Copies, END, END_BYTES, FIX, FLIP, FLIP_HEAD_BYTES, ObjectCopy, ObjectWords, PUT_BYTES, Record,
    SCAN, SCAN_HEAD_BYTES, UNDO, UPDATE, UPDATE_BYTES, WORD_BYTES, WRITE_BYTES, Writes,
};
use byteorder::{ByteOrder, LittleEndian};
use heap_words::{Header, decode as decode_word, header_of};
use std::alloc::{AllocError, Global};

// The words of an object before its fields: its header and its birth.
const FRONT_WORDS: usize = 2;

/// The record whose spelling the bytes begin with, and how many bytes that is. Memory is allocated for words, writes and copies
/// that are there, and never for a count alone.
pub fn decode(alloc: Global, bytes: &[u8]) -> Result<Option<(Record, usize)>, AllocError>
    ensures found { IfOk result (λ found. IfSome found (λ found. IsRecord found.0 × (take found.1 bytes.now ≡ spelling found.0) × (found.1 ≡ length (spelling found.0)))) }
    ensures only { (rec : Record) (rest : List ℕ) → IsRecord rec → bytes.now ≡ spelling rec ++ rest → IfOk result (λ found. found ≡ Some (rec, length (spelling rec))) }
{
    match bytes {
        [BASE, rest @ ..] => base_at(alloc, rest),
        [COPY, rest @ ..] => copy_at(alloc, rest),
        [SCAN, rest @ ..] => scan_at(alloc, rest),
        [FLIP, rest @ ..] => flip_at(alloc, rest),
        _ => Ok(small_at(bytes)),
    }
}

// The record without a list whose spelling the bytes begin with, and how many bytes that is.
fn small_at(bytes: &[u8]) -> Option<(Record, usize)>
    ensures found { IfSome result (λ found. IsRecord found.0 × (take found.1 bytes.now ≡ spelling found.0) × (found.1 ≡ length (spelling found.0))) }
    ensures only { slice_index bytes.now 0 ≢ 2 → slice_index bytes.now 0 ≢ 7 → slice_index bytes.now 0 ≢ 8 → slice_index bytes.now 0 ≢ 9
        → (rec : Record) (rest : List ℕ) → IsRecord rec → bytes.now ≡ spelling rec ++ rest → result ≡ Some (rec, length (spelling rec)) }
{
    match bytes {
        [UPDATE, rest @ ..] => Some((update_at(rest)?, UPDATE_BYTES)),
        [FIX, rest @ ..] => Some((fix_at(rest)?, PUT_BYTES)),
        [UNDO, rest @ ..] => Some((undo_at(rest)?, PUT_BYTES)),
        [COMMIT, rest @ ..] => {
            let t = number_at(rest)?;
            Some((Record::Commit { t }, COMMIT_BYTES))
        }
        [END, rest @ ..] => {
            let t = number_at(rest)?;
            Some((Record::End { t }, END_BYTES))
        }
        [COLLECTED, ..] => Some((Record::Collected, COLLECTED_BYTES)),
        _ => None,
    }
}

// The `Update` whose fields, after its kind, the bytes begin with.
fn update_at(bytes: &[u8]) -> Option<Record>
    ensures found { IfSome result (λ rec. IsRecord rec × Begins (1 ∷ bytes.now) rec) }
    ensures only { (rec : Record) → IsRecord rec → Begins (1 ∷ bytes.now) rec → result ≡ Some rec }
{
    if bytes.len() < UPDATE_BYTES - 1 {
        return None;
    }
    let was = LittleEndian::read_u64(&bytes[10..]);
    let word = LittleEndian::read_u64(&bytes[18..]);
    decode_word(was)?;
    decode_word(word)?;
    Some(Record::Update {
        t: LittleEndian::read_u32(bytes),
        object: LittleEndian::read_u32(&bytes[4..]),
        field: LittleEndian::read_u16(&bytes[8..]),
        was,
        word,
    })
}

// The `Fix` whose fields, after its kind, the bytes begin with.
fn fix_at(bytes: &[u8]) -> Option<Record>
    ensures found { IfSome result (λ rec. IsRecord rec × Begins (3 ∷ bytes.now) rec) }
    ensures only { (rec : Record) → IsRecord rec → Begins (3 ∷ bytes.now) rec → result ≡ Some rec }
{
    if bytes.len() < PUT_BYTES - 1 {
        return None;
    }
    let word = LittleEndian::read_u64(&bytes[10..]);
    decode_word(word)?;
    Some(Record::Fix {
        t: LittleEndian::read_u32(bytes),
        object: LittleEndian::read_u32(&bytes[4..]),
        field: LittleEndian::read_u16(&bytes[8..]),
        word,
    })
}

// The `Undo` whose fields, after its kind, the bytes begin with.
fn undo_at(bytes: &[u8]) -> Option<Record>
    ensures found { IfSome result (λ rec. IsRecord rec × Begins (4 ∷ bytes.now) rec) }
    ensures only { (rec : Record) → IsRecord rec → Begins (4 ∷ bytes.now) rec → result ≡ Some rec }
{
    if bytes.len() < PUT_BYTES - 1 {
        return None;
    }
    let word = LittleEndian::read_u64(&bytes[10..]);
    decode_word(word)?;
    Some(Record::Undo {
        t: LittleEndian::read_u32(bytes),
        object: LittleEndian::read_u32(&bytes[4..]),
        field: LittleEndian::read_u16(&bytes[8..]),
        word,
    })
}

// The transaction number, all that follows the kind of a `Commit` or an `End`.
fn number_at(bytes: &[u8]) -> Option<u32>
    ensures found { IfSome result (λ t. (t < 2 ^ 32) × ((rest : List ℕ) × (bytes.now ≡ to_le_bytes w32 t ++ rest))) }
    ensures only { (t : ℕ) (rest : List ℕ) → t < 2 ^ 32 → bytes.now ≡ to_le_bytes w32 t ++ rest → result ≡ Some t }
{
    if bytes.len() < 4 {
        return None;
    }
    Some(LittleEndian::read_u32(bytes))
}

// The `Base` whose fields, after its kind, the bytes begin with, and how many bytes it takes with its kind.
fn base_at(alloc: Global, bytes: &[u8]) -> Result<Option<(Record, usize)>, AllocError>
    ensures found { IfOk result (λ found. IfSome found (λ found. IsRecord found.0 × (take found.1 (2 ∷ bytes.now) ≡ spelling found.0) × (found.1 ≡ length (spelling found.0)))) }
    ensures only { (rec : Record) (rest : List ℕ) → IsRecord rec → 2 ∷ bytes.now ≡ spelling rec ++ rest → IfOk result (λ found. found ≡ Some (rec, length (spelling rec))) }
{
    if bytes.len() < BASE_HEAD_BYTES - 1 {
        return Ok(None);
    }
    let t = LittleEndian::read_u32(bytes);
    let address = LittleEndian::read_u32(&bytes[4..]);
    let Some(words) = object_at(alloc, &bytes[8..])? else {
        return Ok(None);
    };
    let size = BASE_HEAD_BYTES + WORD_BYTES * words.len();
    let words = ObjectWords::new(words);
    Ok(Some((Record::Base { t, address, words }, size)))
}

// The `Copy` whose fields, after its kind, the bytes begin with, and how many bytes it takes with its kind.
fn copy_at(alloc: Global, bytes: &[u8]) -> Result<Option<(Record, usize)>, AllocError>
    ensures found { IfOk result (λ found. IfSome found (λ found. IsRecord found.0 × (take found.1 (7 ∷ bytes.now) ≡ spelling found.0) × (found.1 ≡ length (spelling found.0)))) }
    ensures only { (rec : Record) (rest : List ℕ) → IsRecord rec → 7 ∷ bytes.now ≡ spelling rec ++ rest → IfOk result (λ found. found ≡ Some (rec, length (spelling rec))) }
{
    let Some(copy) = object_copy_at(alloc, bytes)? else {
        return Ok(None);
    };
    let size = 1 + copy_size(&copy);
    let ObjectCopy { from, to, words } = copy;
    Ok(Some((Record::Copy { from, to, words }, size)))
}

// The `Scan` whose fields, after its kind, the bytes begin with, and how many bytes it takes with its kind.
fn scan_at(alloc: Global, bytes: &[u8]) -> Result<Option<(Record, usize)>, AllocError>
    ensures found { IfOk result (λ found. IfSome found (λ found. IsRecord found.0 × (take found.1 (8 ∷ bytes.now) ≡ spelling found.0) × (found.1 ≡ length (spelling found.0)))) }
    ensures only { (rec : Record) (rest : List ℕ) → IsRecord rec → 8 ∷ bytes.now ≡ spelling rec ++ rest → IfOk result (λ found. found ≡ Some (rec, length (spelling rec))) }
{
    if bytes.len() < SCAN_HEAD_BYTES - 1 {
        return Ok(None);
    }
    let page = LittleEndian::read_u32(bytes);
    let count = LittleEndian::read_u16(&bytes[4..]);
    let Some(writes) = writes_at(alloc, &bytes[6..], count)? else {
        return Ok(None);
    };
    let size = SCAN_HEAD_BYTES + WRITE_BYTES * writes.len();
    let writes = Writes::new(writes);
    Ok(Some((Record::Scan { page, writes }, size)))
}

// The first `count` writes that the bytes begin with.
fn writes_at(alloc: Global, bytes: &[u8], count: u16) -> Result<Option<Vec<(u32, u64)>>, AllocError>
    ensures found { IfOk result (λ found. IfSome found (λ writes. (length writes.items ≡ count) × AllByRecursion IsWrite writes.items × ((rest : List ℕ) × (bytes.now ≡ flat_map write_bytes writes.items ++ rest)))) }
    ensures only { (writes : List (ℕ × ℕ)) (rest : List ℕ) → length writes ≡ count → AllByRecursion IsWrite writes → bytes.now ≡ flat_map write_bytes writes ++ rest → IfOk result (λ found. IsSomeAnd found (λ found. found.items ≡ writes)) }
{
    let mut writes = Vec::new(alloc);
    let mut rest = bytes;
    for _ in 0..count {
        let Some(write) = write_at(rest) else {
            return Ok(None);
        };
        rest = &rest[WRITE_BYTES..];
        writes.push(write)?;
    }
    Ok(Some(writes))
}

// The write that the bytes begin with.
fn write_at(bytes: &[u8]) -> Option<(u32, u64)>
    ensures inside { IfSome result (λ write. 12 ≤ length bytes.now) }
    ensures found { IfSome result (λ write. IsWrite write × (bytes.now ≡ write_bytes write ++ drop 12 bytes.now)) }
    ensures only { (write : ℕ × ℕ) (rest : List ℕ) → IsWrite write → bytes.now ≡ write_bytes write ++ rest → result ≡ Some write }
{
    if bytes.len() < WRITE_BYTES {
        return None;
    }
    let word = LittleEndian::read_u64(&bytes[4..]);
    decode_word(word)?;
    Some((LittleEndian::read_u32(bytes), word))
}

// The `Flip` whose fields, after its kind, the bytes begin with, and how many bytes it takes with its kind.
fn flip_at(alloc: Global, bytes: &[u8]) -> Result<Option<(Record, usize)>, AllocError>
    ensures found { IfOk result (λ found. IfSome found (λ found. IsRecord found.0 × (take found.1 (9 ∷ bytes.now) ≡ spelling found.0) × (found.1 ≡ length (spelling found.0)))) }
    ensures only { (rec : Record) (rest : List ℕ) → IsRecord rec → 9 ∷ bytes.now ≡ spelling rec ++ rest → IfOk result (λ found. found ≡ Some (rec, length (spelling rec))) }
{
    if bytes.len() < FLIP_HEAD_BYTES - 1 {
        return Ok(None);
    }
    let count = LittleEndian::read_u32(bytes);
    let Some(copies) = copies_at(alloc, &bytes[4..], count)? else {
        return Ok(None);
    };
    let copies = Copies::new(copies);
    let size = FLIP_HEAD_BYTES + copies.bytes();
    Ok(Some((Record::Flip { copies }, size)))
}

// The first `count` copies that the bytes begin with.
fn copies_at(alloc: Global, bytes: &[u8], count: u32) -> Result<Option<Vec<ObjectCopy>>, AllocError>
    ensures found { IfOk result (λ found. IfSome found (λ copies. (length copies.items ≡ count) × AllByRecursion IsObjectCopy copies.items × ((rest : List ℕ) × (bytes.now ≡ flat_map copy_bytes copies.items ++ rest)))) }
    ensures only { (copies : List ObjectCopy) (rest : List ℕ) → length copies ≡ count → AllByRecursion IsObjectCopy copies → bytes.now ≡ flat_map copy_bytes copies ++ rest → IfOk result (λ found. IsSomeAnd found (λ found. found.items ≡ copies)) }
{
    let mut copies = Vec::new(alloc);
    let mut rest = bytes;
    for _ in 0..count {
        let Some(copy) = object_copy_at(alloc, rest)? else {
            return Ok(None);
        };
        rest = &rest[copy_size(&copy)..];
        copies.push(copy)?;
    }
    Ok(Some(copies))
}

// The bytes of a copy.
fn copy_size(copy: &ObjectCopy) -> usize
    ensures size { result ≡ length (copy_bytes copy.now) }
    ensures small { result < 2 ^ 63 + 8 }
{
    COPY_HEAD_BYTES + WORD_BYTES * copy.words.as_slice().len()
}

// The copy of an object that the bytes begin with.
fn object_copy_at(alloc: Global, bytes: &[u8]) -> Result<Option<ObjectCopy>, AllocError>
    ensures found { IfOk result (λ found. IfSome found (λ copy. IsObjectCopy copy × ((rest : List ℕ) × (bytes.now ≡ copy_bytes copy ++ rest)))) }
    ensures only { (copy : ObjectCopy) (rest : List ℕ) → IsObjectCopy copy → bytes.now ≡ copy_bytes copy ++ rest → IfOk result (λ found. found ≡ Some copy) }
{
    if bytes.len() < COPY_HEAD_BYTES {
        return Ok(None);
    }
    let from = LittleEndian::read_u32(bytes);
    let to = LittleEndian::read_u32(&bytes[4..]);
    let Some(words) = object_at(alloc, &bytes[8..])? else {
        return Ok(None);
    };
    let words = ObjectWords::new(words);
    Ok(Some(ObjectCopy { from, to, words }))
}

// The words of the object that the bytes begin with.
fn object_at(alloc: Global, bytes: &[u8]) -> Result<Option<Vec<u64>>, AllocError>
    ensures found { IfOk result (λ found. IfSome found (λ words. IsObjectWords words.items × ((rest : List ℕ) × (bytes.now ≡ word_bytes words.items ++ rest)))) }
    ensures only { (words rest : List ℕ) → IsObjectWords words → bytes.now ≡ word_bytes words ++ rest → IfOk result (λ found. IsSomeAnd found (λ found. found.items ≡ words)) }
{
    let Some(count) = word_count(bytes) else {
        return Ok(None);
    };
    let words = read_words(alloc, bytes, count)?;
    if are_field_words(&words[FRONT_WORDS..]) {
        Ok(Some(words))
    } else {
        Ok(None)
    }
}

// How many words the object has whose header the bytes begin with, if they are all there.
fn word_count(bytes: &[u8]) -> Option<usize>
    ensures inside { IfSome result (λ count. 8 * count ≤ length bytes.now) }
    ensures found { IfSome result (λ count. (n : ℕ) × (n < 511) × (count ≡ 2 + n) × (little_number 8 bytes.now ≡ header_bits (Length n))) }
    ensures only { (n : ℕ) → n < 511 → 8 * (2 + n) ≤ length bytes.now → little_number 8 bytes.now ≡ header_bits (Length n) → result ≡ Some (2 + n) }
{
    if bytes.len() < WORD_BYTES {
        return None;
    }
    match header_of(LittleEndian::read_u64(bytes)) {
        Some(Header::Length(fields)) => {
            let count = FRONT_WORDS + fields as usize;
            if WORD_BYTES * count <= bytes.len() {
                Some(count)
            } else {
                None
            }
        }
        Some(Header::Forward(_)) => None,
        None => None,
    }
}

// The first `count` words that the bytes begin with.
fn read_words(alloc: Global, bytes: &[u8], count: usize) -> Result<Vec<u64>, AllocError>
    requires { 8 * count ≤ length bytes.now }
    ensures count { IfOk result (λ words. length words.items ≡ count) }
    ensures len { IfOk result (λ words. vec_len words ≡ count) }
    ensures fit { IfOk result (λ words. AllByRecursion (λ w. w < 2 ^ 64) words.items) }
    ensures read { IfOk result (λ words. bytes.now ≡ word_bytes words.items ++ drop (8 * count) bytes.now) }
{
    let mut words = Vec::with_capacity(alloc, count)?;
    for i in 0..count {
        words.push(LittleEndian::read_u64(&bytes[WORD_BYTES * i..]))?;
    }
    Ok(words)
}

// Each of the words is one of a field.
fn are_field_words(words: &[u64]) -> bool
    ensures { IsTrue result ↔ AllByRecursion IsFieldWord words.now }
{
    for word in words {
        if decode_word(*word).is_none() {
            return false;
        }
    }
    true
}
