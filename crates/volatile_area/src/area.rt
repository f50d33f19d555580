//! A transaction's volatile area.
ghost use Rattle.std.specs.Prelude.{◌≡◌, ◌+◌, ◌≤◌, ◌<◌, ◌↔◌, length, slice_get, IsTrue, IfOk, OnErr, Err, All, Contains, Some, OnOk, ◌++◌, ◌∷◌, replicate, vec_len};
ghost use Rattle.heap_words.specs.declared.Header.TheVariants.{Length};
ghost use Rattle.heap_words.specs.Header.{header_bits};
ghost use Rattle.heap_words.specs.Word.{IsFieldWord};
ghost use Rattle.object_layout.specs.Layout.{object_at, field_words};
ghost use Rattle.volatile_area.specs.Area.{new_area, length_at, starts_of, with_object, with_field, HasField, IsArea, IsTranslated, IsTranslatedIn};
ghost use Rattle.relocation.specs.Relocation.{IsRelocation};

use crate::area_error::AreaError;
use heap_words::{FIELDS_AT, VOLATILE_WORDS, birth};
use relocation::translated_word;
use std::alloc::{AllocError, Global};
use std::marker::Model;

/// The word of a null field.
const NULL: u64 = 0;

/// The objects that one transaction has made, end to end in the order of making, in at most 4,096 words. Each is a header, the word of
/// its birth and its fields. An object is named by its index, the number of its first word.
#[derive(Debug, Drop)]
pub struct Area {
    transaction: u32,
    /// The index of each object.
    starts: Vec<u32>,
    words: Vec<u64>,
}

impl Model for Area {
    ghost use Rattle.volatile_area.specs.Area.{AreaState, area_of, AreItsStarts};

    ghost Value = { AreaState };

    ghost view = { λ a. area_of a.transaction a.starts.items a.words.items };

    ghost invariant = { λ a. AreItsStarts a.starts.items (area_of a.transaction a.starts.items a.words.items) };
}

impl Area {
    /// The area of transaction `t`, which has made no object. Does not allocate.
    pub fn new(alloc: Global, t: u32) -> Area
        ensures { result ≡ new_area t }
    {
        Area {
            transaction: t,
            starts: Vec::new(alloc),
            words: Vec::new(alloc),
        }
    }

    /// The number of the transaction.
    pub fn transaction(&self) -> u32
        ensures { result ≡ self.now.transaction }
    {
        self.transaction
    }

    /// How many objects the transaction has made.
    pub fn made(&self) -> u32
        ensures { result ≡ self.now.made }
    {
        self.starts.len() as u32
    }

    /// How many words these objects take.
    pub fn used(&self) -> u32
        ensures { result ≡ length self.now.words }
    {
        self.words.len() as u32
    }

    /// The words of these objects.
    pub fn words(&self) -> &[u64]
        ensures words { result.now ≡ self.now.words }
        ensures sound { IsArea self.now }
    {
        &self.words
    }

    /// The index of each object, in the order of making.
    pub fn starts(&self) -> &[u32]
        ensures { result.now ≡ starts_of self.now }
    {
        &self.starts
    }

    /// Makes an object with `fields` fields, at most 510, each null, and returns its index. An error changes nothing.
    pub fn new_object(&mut self, fields: u32) -> Result<u32, AreaError>
        requires { fields ≤ 510 }
        ensures index { IfOk result (λ object. object ≡ length self.old.words) }
        ensures made { IfOk result (λ object. self.new ≡ with_object self.old fields) }
        ensures full { (used : _) → (result ≡ Err (AreaError.VolatileFull used)) ↔ ((used ≡ length self.old.words) × (4096 < used + 2 + fields)) }
        ensures err { OnErr result (self.new ≡ self.old) }
    {
        let used = self.used();
        if used + FIELDS_AT + fields > VOLATILE_WORDS {
            return Err(AreaError::VolatileFull { used });
        }
        let birth = birth(self.transaction, self.made() + 1);
        self.starts.reserve(1)?;
        add_object(&mut self.words, birth, fields)?;
        self.starts.push_reserved(used);
        Ok(used)
    }

    /// Whether an object has this index.
    pub fn is_object(&self, at: u32) -> bool
        ensures { IsTrue result ↔ Contains (starts_of self.now) at }
    {
        self.starts.binary_search(&at).is_ok()
    }

    /// The number of an object's fields.
    pub fn length(&self, object: u32) -> u32
        requires { Contains (starts_of self.now) object }
        ensures length { result ≡ length_at self.now.words object }
        ensures object { object_at self.now.words object ≡ Some result }
        ensures few { result ≤ 510 }
    {
        // A header is four times the length, and 1.
        (self.words[object as usize] / 4) as u32
    }

    /// The words of an object's fields, in order.
    pub fn fields(&self, object: u32) -> &[u64]
        requires { Contains (starts_of self.now) object }
        ensures words { result.now ≡ field_words self.now.words object }
        ensures meant { All IsFieldWord result.now }
    {
        let words = self.words.as_slice();
        let from = (object + FIELDS_AT) as usize;
        let to = from + self.length(object) as usize;
        &words[from..to]
    }

    /// The word of an object's field.
    pub fn get(&self, object: u32, field: u32) -> u64
        requires { HasField self.now object field }
        ensures word { slice_get (field_words self.now.words object) field ≡ Some result }
        ensures meant { IsFieldWord result }
    {
        self.fields(object)[field as usize]
    }

    /// Puts a field's word into an object's field.
    pub fn set(&mut self, object: u32, field: u32, word: u64)
        requires there { HasField self.old object field }
        requires meant { IsFieldWord word }
        ensures { self.new ≡ with_field self.old object field word }
    {
        self.words[(object + FIELDS_AT + field) as usize] = word;
    }

    /// Objects of the heap have moved, as the pairs say: in each field of each object a reference to one of them leads to where it went. Does
    /// not allocate.
    pub fn translate(&mut self, pairs: &[(u32, u32)])
        requires { IsRelocation pairs.now }
        ensures { IsTranslated pairs.now self.old self.new }
    {
        for place in 0..self.starts.len() {
            let object = self.starts[place];
            self.translate_object(object, pairs);
        }
    }

    // The same in the fields of one object.
    fn translate_object(&mut self, object: u32, pairs: &[(u32, u32)])
        requires sound { IsArea self.old }
        requires starts { Contains (starts_of self.old) object }
        requires moves { IsRelocation pairs.now }
        ensures sound { IsArea self.new }
        ensures translated { IsTranslatedIn pairs.now object self.old self.new }
    {
        for field in 0..self.length(object) {
            let word = self.get(object, field);
            self.set(object, field, translated_word(pairs, word));
        }
    }
}

// Appends the words of an object of that birth, with that many null fields, to these words. An error changes nothing.
fn add_object(words: &mut Vec<u64>, birth: u64, fields: u32) -> Result<(), AllocError>
    requires few { fields ≤ 510 }
    requires fits { vec_len words.old + 2 + fields ≤ 4096 }
    ensures ok { OnOk result (words.new.items ≡ words.old.items ++ header_bits (Length fields) ∷ birth ∷ replicate fields 0) }
    ensures err { OnErr result (words.new.items ≡ words.old.items) }
{
    let at = words.len();
    words.resize(at + (FIELDS_AT + fields) as usize, NULL)?;
    words[at] = 4 * u64::from(fields) + 1;
    words[at + 1] = birth;
    Ok(())
}
