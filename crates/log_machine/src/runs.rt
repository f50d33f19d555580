//! What a record writes, as runs of words.
ghost use Rattle.std.specs.Prelude.{[], ◌≡◌, ◌∷◌, ◌<◌, ◌*◌, ◌^◌, IfSome, length, slice_get};
ghost use Rattle.heap_words.specs.Header.{header_bits};
ghost use Rattle.heap_words.specs.declared.Header.TheVariants.{Forward};
ghost use Rattle.log_machine.specs.Machine.{field_at};
ghost use Rattle.log_machine.specs.Runs.{runs, copy_runs, copies_runs, write_runs};

use heap_words::FIELDS_AT;
use log_records::{ObjectCopy, Record};
use std::marker::Model;

/// Words that are written one after the other, from an address on.
#[derive(Debug, Drop)]
pub struct Run<'a> {
    address: usize,
    words: RunWords<'a>,
}

// The words of a run: one that the record doesn't hold as a slice, or a slice of the record.
#[derive(Debug, Drop)]
enum RunWords<'a> {
    One([u64; 1]),
    Many(&'a [u64]),
}

impl<'a> Model for Run<'a> {
    ghost use Rattle.std.specs.Prelude.{ℕ, List};
    ghost use Rattle.log_machine.specs.RunWords.{words_of};

    ghost Value = { ℕ × List ℕ };

    ghost view = { λ run. (run.address, words_of run.words) };
}

impl<'a> Run<'a> {
    fn of_word(address: usize, word: u64) -> Run<'a>
        ensures { result ≡ (address, word ∷ []) }
    {
        Run {
            address,
            words: RunWords::One([word]),
        }
    }

    fn of_words(address: usize, words: &'a [u64]) -> Run<'a>
        ensures { result ≡ (address, words.now) }
    {
        Run {
            address,
            words: RunWords::Many(words),
        }
    }

    /// The address of the first of the words.
    pub fn address(&self) -> usize
        ensures { result ≡ self.now.0 }
    {
        self.address
    }

    /// The words.
    pub fn words(&self) -> &[u64]
        ensures { result.now ≡ self.now.1 }
    {
        match &self.words {
            RunWords::One(word) => word,
            RunWords::Many(words) => words,
        }
    }
}

/// The runs of words that a record writes, in their order.
#[derive(Debug, Drop)]
pub struct Runs<'a> {
    rec: &'a Record,
    // How many of its runs have been given.
    given: usize,
}

impl<'a> Runs<'a> {
    ghost use Rattle.log_machine.specs.RunsLeft.{runs_left};

    /// The runs of words that the record writes.
    pub fn of(rec: &'a Record) -> Runs<'a>
        ensures { runs_left result ≡ runs rec.now }
    {
        Runs { rec, given: 0 }
    }
}

impl<'a> Iterator for Runs<'a> {
    ghost use Rattle.std.specs.Iterator.{YieldsFirst, item_count};
    ghost use Rattle.log_machine.specs.RunsLeft.{runs_left};

    type Item = Run<'a>;

    ghost next_gives = { YieldsFirst runs_left };

    ghost remaining = { item_count runs_left };

    // Inlined, as is `run_of`: returned through memory, a run would take longer to make than its words to write.
    #[inline(always)]
    fn next(&mut self) -> Option<Run<'a>> {
        let run = run_of(self.rec, self.given)?;
        self.given += 1;
        Some(run)
    }
}

// The `i`th of the runs that the record writes.
#[inline(always)]
fn run_of(rec: &Record, i: usize) -> Option<Run<'_>>
    ensures run { result ≡ slice_get (runs rec.now) i }
    ensures few { IfSome result (λ _. i < 2 ^ 34) }
{
    match rec {
        Record::Update {
            object,
            field,
            word,
            ..
        }
        | Record::Fix {
            object,
            field,
            word,
            ..
        }
        | Record::Undo {
            object,
            field,
            word,
            ..
        } if i == 0 => Some(Run::of_word(field_address(*object, *field), *word)),
        Record::Base { address, words, .. } if i == 0 => {
            Some(Run::of_words(*address as usize, words.as_slice()))
        }
        Record::Copy { from, to, words } => run_of_copy(*from, *to, words.as_slice(), i),
        Record::Scan { writes, .. } => run_of_write(writes.as_slice(), i),
        Record::Flip { copies } => run_of_copies(copies.as_slice(), i),
        Record::Update { .. }
        | Record::Base { .. }
        | Record::Fix { .. }
        | Record::Undo { .. }
        | Record::Commit { .. }
        | Record::End { .. }
        | Record::Collected => None,
    }
}

// The `i`th of the two runs of a copy: its words, and the forwarding word where the object stood.
fn run_of_copy(from: u32, to: u32, words: &[u64], i: usize) -> Option<Run<'_>>
    ensures run { result ≡ slice_get (copy_runs from to words.now) i }
    ensures few { IfSome result (λ _. i < 2) }
{
    match i {
        0 => Some(Run::of_words(to as usize, words)),
        1 => Some(Run::of_word(from as usize, forwarding_word(to))),
        _ => None,
    }
}

// The `i`th of the runs of these copies.
fn run_of_copies(copies: &[ObjectCopy], i: usize) -> Option<Run<'_>>
    ensures run { result ≡ slice_get (copies_runs copies.now) i }
    ensures few { IfSome result (λ _. i < 2 * length copies.now) }
{
    let copy = copies.get(i / 2)?;
    run_of_copy(copy.from, copy.to, copy.words.as_slice(), i % 2)
}

// The `i`th of these writes, as a run of one word.
fn run_of_write(writes: &[(u32, u64)], i: usize) -> Option<Run<'_>>
    ensures run { result ≡ slice_get (write_runs writes.now) i }
    ensures few { IfSome result (λ _. i < length writes.now) }
{
    let (address, word) = writes.get(i)?;
    Some(Run::of_word(*address as usize, *word))
}

// The address of a field of the object at a word address.
fn field_address(object: u32, field: u16) -> usize
    ensures { result ≡ field_at object field }
{
    object as usize + FIELDS_AT as usize + field as usize
}

/// The word that stands at the address of an object that was copied: it leads to the copy.
pub fn forwarding_word(to: u32) -> u64
    ensures { result ≡ header_bits (Forward to) }
{
    4 * u64::from(to) + 2
}
