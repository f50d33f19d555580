//! How a record is spelled.
ghost use Rattle.std.specs.Prelude.{◌≡◌, ◌+◌, ◌*◌, ◌≤◌, ◌∷◌, ◌++◌, length, vec_len, vec_capacity, IsOk, OnOk, OnErr};
ghost use Rattle.std.specs.Int.{w16, w32, w64, to_le_bytes};
ghost use Rattle.log_records.specs.declared.Record.TheVariants.{Update, Commit, End, Scan, Flip};
ghost use Rattle.log_records.specs.Copies.{word_bytes, copy_bytes};
ghost use Rattle.log_records.specs.Record.{spelling, copy_record};

use crate::{
    BASE, BASE_HEAD_BYTES, COLLECTED, COMMIT, COMMIT_BYTES, COPY, COPY_HEAD_BYTES, Copies, CopyRef,
    END, END_BYTES, FIX, FLIP, FLIP_HEAD_BYTES, ObjectCopy, PUT_BYTES, Record, SCAN,
    SCAN_HEAD_BYTES, UNDO, UPDATE, UPDATE_BYTES, WORD_BYTES, WRITE_BYTES, Writes,
};
use byteorder::{ByteOrder, LittleEndian};
use std::alloc::AllocError;

/// Appends the spelling of the record. An `Err` changes nothing, and comes only if memory has to be allocated.
pub fn encode(rec: &Record, into: &mut Vec<u8>) -> Result<(), AllocError>
    ensures ok { OnOk result (into.new.items ≡ into.old.items ++ spelling rec.now) }
    ensures err { OnErr result (into.new.items ≡ into.old.items) }
    ensures in_room { vec_len into.old + length (spelling rec.now) ≤ vec_capacity into.old → IsOk result }
    ensures capacity { vec_capacity into.old ≤ vec_capacity into.new }
{
    match rec {
        Record::Update {
            t,
            object,
            field,
            was,
            word,
        } => into.extend_from_slice(&update_bytes(*t, *object, *field, *was, *word)),
        Record::Base { t, address, words } => {
            encode_object(BASE, *t, *address, words.as_slice(), into)
        }
        Record::Fix {
            t,
            object,
            field,
            word,
        } => into.extend_from_slice(&put_bytes(FIX, *t, *object, *field, *word)),
        Record::Undo {
            t,
            object,
            field,
            word,
        } => into.extend_from_slice(&put_bytes(UNDO, *t, *object, *field, *word)),
        Record::Commit { t } => into.extend_from_slice(&commit_bytes(*t)),
        Record::End { t } => into.extend_from_slice(&end_bytes(*t)),
        Record::Copy { from, to, words } => {
            encode_object(COPY, *from, *to, words.as_slice(), into)
        }
        Record::Scan { page, writes } => encode_scan(*page, writes, into),
        Record::Flip { copies } => encode_flip(copies, into),
        Record::Collected => into.extend_from_slice(&[COLLECTED]),
    }
}

/// Writes the spelling of a `Copy` whose words lie elsewhere over bytes, of which there are exactly as many: where many copies are spelled, memory
/// is made for all of them at once.
pub fn write_copy(copy: &CopyRef<'_>, into: &mut [u8])
    requires { length into.old ≡ length (spelling (copy_record copy.now)) }
    ensures { into.new ≡ spelling (copy_record copy.now) }
{
    let head = object_head(COPY, copy.from(), copy.to());
    into[..BASE_HEAD_BYTES].copy_from_slice(&head);
    LittleEndian::write_u64_into(copy.words(), &mut into[BASE_HEAD_BYTES..]);
}

// Appends the spelling of a record of an object, as a `Base` and a `Copy` are: its kind, two numbers, and the object's
// words. An `Err` changes nothing, and comes only if memory has to be allocated.
fn encode_object(
    kind: u8,
    first: u32,
    second: u32,
    words: &[u64],
    into: &mut Vec<u8>,
) -> Result<(), AllocError>
    ensures ok { OnOk result (into.new.items ≡ into.old.items ++ (kind ∷ to_le_bytes w32 first ++ to_le_bytes w32 second ++ word_bytes words.now)) }
    ensures err { OnErr result (into.new.items ≡ into.old.items) }
    ensures in_room { vec_len into.old + (9 + length (word_bytes words.now)) ≤ vec_capacity into.old → IsOk result }
    ensures capacity { vec_capacity into.old ≤ vec_capacity into.new }
{
    into.reserve(BASE_HEAD_BYTES + WORD_BYTES * words.len())?;
    into.extend_from_slice(&object_head(kind, first, second))?;
    add_words(words, into)
}

// Appends the bytes of words. An `Err` changes nothing, and comes only if memory has to be allocated. Room is made for all words at once:
// looking for room at each word would take longer than the word.
fn add_words(words: &[u64], into: &mut Vec<u8>) -> Result<(), AllocError>
    ensures ok { OnOk result (into.new.items ≡ into.old.items ++ word_bytes words.now) }
    ensures len { OnOk result (vec_len into.new ≡ vec_len into.old + 8 * length words.now) }
    ensures err { OnErr result (into.new.items ≡ into.old.items) }
    ensures in_room { vec_len into.old + 8 * length words.now ≤ vec_capacity into.old → IsOk result }
    ensures capacity { vec_capacity into.old ≤ vec_capacity into.new }
{
    let before = into.len();
    into.resize(before + WORD_BYTES * words.len(), 0)?;
    LittleEndian::write_u64_into(words, &mut into[before..]);
    Ok(())
}

// Appends the spelling of a `Scan`. An `Err` changes nothing, and comes only if memory has to be allocated.
fn encode_scan(page: u32, writes: &Writes, into: &mut Vec<u8>) -> Result<(), AllocError>
    ensures ok { OnOk result (into.new.items ≡ into.old.items ++ spelling (Scan page writes.now)) }
    ensures err { OnErr result (into.new.items ≡ into.old.items) }
    ensures in_room { vec_len into.old + length (spelling (Scan page writes.now)) ≤ vec_capacity into.old → IsOk result }
    ensures capacity { vec_capacity into.old ≤ vec_capacity into.new }
{
    let each = writes.as_slice();
    into.reserve(SCAN_HEAD_BYTES + WRITE_BYTES * each.len())?;
    into.extend_from_slice(&scan_head(page, each.len() as u16))?;
    // Address and word are appended one by one: out of an array of twelve bytes they would be copied by loads wider than the stores that made it, for which
    // the processor has to wait.
    for (address, word) in each {
        into.extend_from_slice(&address.to_le_bytes())?;
        into.extend_from_slice(&word.to_le_bytes())?;
    }
    Ok(())
}

// Appends the spelling of a `Flip`. An `Err` changes nothing, and comes only if memory has to be allocated.
fn encode_flip(copies: &Copies, into: &mut Vec<u8>) -> Result<(), AllocError>
    ensures ok { OnOk result (into.new.items ≡ into.old.items ++ spelling (Flip copies.now)) }
    ensures err { OnErr result (into.new.items ≡ into.old.items) }
    ensures in_room { vec_len into.old + length (spelling (Flip copies.now)) ≤ vec_capacity into.old → IsOk result }
    ensures capacity { vec_capacity into.old ≤ vec_capacity into.new }
{
    into.reserve(FLIP_HEAD_BYTES + copies.bytes())?;
    let each = copies.as_slice();
    into.extend_from_slice(&flip_head(each.len() as u32))?;
    for copy in each {
        add_copy(copy, into)?;
    }
    Ok(())
}

// Appends the spelling of a copy, for which there is room.
fn add_copy(copy: &ObjectCopy, into: &mut Vec<u8>) -> Result<(), AllocError>
    requires { vec_len into.old + (8 + 8 * length copy.now.words) ≤ vec_capacity into.old }
    ensures ok { IsOk result }
    ensures items { into.new.items ≡ into.old.items ++ copy_bytes copy.now }
    ensures len { vec_len into.new ≡ vec_len into.old + (8 + 8 * length copy.now.words) }
    ensures capacity { vec_capacity into.old ≤ vec_capacity into.new }
{
    into.extend_from_slice(&copy_head(copy.from, copy.to))?;
    add_words(copy.words.as_slice(), into)
}

fn update_bytes(t: u32, object: u32, field: u16, was: u64, word: u64) -> [u8; UPDATE_BYTES]
    ensures { result ≡ spelling (Update t object field was word) }
{
    let mut bytes = [0u8; UPDATE_BYTES];
    bytes[0] = UPDATE;
    LittleEndian::write_u32(&mut bytes[1..], t);
    LittleEndian::write_u32(&mut bytes[5..], object);
    LittleEndian::write_u16(&mut bytes[9..], field);
    LittleEndian::write_u64(&mut bytes[11..], was);
    LittleEndian::write_u64(&mut bytes[19..], word);
    bytes
}

// What precedes the words of a `Base` or a `Copy`.
fn object_head(kind: u8, first: u32, second: u32) -> [u8; BASE_HEAD_BYTES]
    ensures { result ≡ kind ∷ to_le_bytes w32 first ++ to_le_bytes w32 second }
{
    let mut bytes = [0u8; BASE_HEAD_BYTES];
    bytes[0] = kind;
    LittleEndian::write_u32(&mut bytes[1..], first);
    LittleEndian::write_u32(&mut bytes[5..], second);
    bytes
}

// What precedes the words of a copy in a `Flip`.
fn copy_head(from: u32, to: u32) -> [u8; COPY_HEAD_BYTES]
    ensures { result ≡ to_le_bytes w32 from ++ to_le_bytes w32 to }
{
    let mut bytes = [0u8; COPY_HEAD_BYTES];
    LittleEndian::write_u32(&mut bytes, from);
    LittleEndian::write_u32(&mut bytes[4..], to);
    bytes
}

// What precedes the writes of a `Scan`.
fn scan_head(page: u32, count: u16) -> [u8; SCAN_HEAD_BYTES]
    ensures { result ≡ 8 ∷ to_le_bytes w32 page ++ to_le_bytes w16 count }
{
    let mut bytes = [0u8; SCAN_HEAD_BYTES];
    bytes[0] = SCAN;
    LittleEndian::write_u32(&mut bytes[1..], page);
    LittleEndian::write_u16(&mut bytes[5..], count);
    bytes
}

// What precedes the copies of a `Flip`.
fn flip_head(count: u32) -> [u8; FLIP_HEAD_BYTES]
    ensures { result ≡ 9 ∷ to_le_bytes w32 count }
{
    let mut bytes = [0u8; FLIP_HEAD_BYTES];
    bytes[0] = FLIP;
    LittleEndian::write_u32(&mut bytes[1..], count);
    bytes
}

// A record of that kind that puts a word into a field.
fn put_bytes(kind: u8, t: u32, object: u32, field: u16, word: u64) -> [u8; PUT_BYTES]
    ensures { result ≡ kind ∷ to_le_bytes w32 t ++ to_le_bytes w32 object ++ to_le_bytes w16 field ++ to_le_bytes w64 word }
{
    let mut bytes = [0u8; PUT_BYTES];
    bytes[0] = kind;
    LittleEndian::write_u32(&mut bytes[1..], t);
    LittleEndian::write_u32(&mut bytes[5..], object);
    LittleEndian::write_u16(&mut bytes[9..], field);
    LittleEndian::write_u64(&mut bytes[11..], word);
    bytes
}

fn commit_bytes(t: u32) -> [u8; COMMIT_BYTES]
    ensures { result ≡ spelling (Commit t) }
{
    let mut bytes = [0u8; COMMIT_BYTES];
    bytes[0] = COMMIT;
    LittleEndian::write_u32(&mut bytes[1..], t);
    bytes
}

fn end_bytes(t: u32) -> [u8; END_BYTES]
    ensures { result ≡ spelling (End t) }
{
    let mut bytes = [0u8; END_BYTES];
    bytes[0] = END;
    LittleEndian::write_u32(&mut bytes[1..], t);
    bytes
}
