//! Where records write while a collection runs.
ghost use Rattle.std.specs.Prelude.{◌≡◌, ◌⊎◌, ℕ, List, slice_index, Some, true};
ghost use Rattle.log_records.specs.declared.Record.{Record};
ghost use Rattle.log_machine.specs.Collecting.{collecting_after};
ghost use Rattle.log_machine.specs.Machine.{State, after, put_record};
ghost use Rattle.log_machine.specs.Sound.{IsConsistent};
ghost use Rattle.collection_words.specs.Completed.{in_other_space};
ghost use Rattle.seen_laws.specs.Writing.{IsForwardingWord, WritesInPlace};

/// A record of a transaction that can follow writes used words of the current space, or words of it that were not used.
pub fn records_of_transactions_write_in_place()
    ensures { (s n : State) (rec : Record) → IsConsistent s → after s rec ≡ Some n → WritesInPlace s rec }
{}

/// A record of a collection that can follow writes there too, and besides only forwarding words in the from-space.
pub fn records_of_a_collection_write_in_place()
    ensures { (s n : State) (rec : Record) → IsConsistent s → collecting_after s rec ≡ Some n → WritesInPlace s rec }
{}

/// So after a record of either kind each word of the from-space is what it was, or a forwarding word.
pub fn from_space_words_stay_or_forward()
    ensures { (s n : State) (rec : Record) (words : List ℕ) (at : ℕ) → IsConsistent s → ((after s rec ≡ Some n) ⊎ (collecting_after s rec ≡ Some n)) → in_other_space n at ≡ true → (slice_index (put_record words rec) at ≡ slice_index words at) ⊎ IsForwardingWord (slice_index (put_record words rec) at) }
{}
