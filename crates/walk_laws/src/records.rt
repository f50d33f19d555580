//! What the records of a collection leave of births.
ghost use Rattle.std.specs.Prelude.{◌≡◌, ◌++◌, ℕ, List, Some};
ghost use Rattle.std.specs.List.{AllByRecursion};
ghost use Rattle.heap_spaces.specs.Collection.{Collection};
ghost use Rattle.heap_spaces.specs.Copying.{with_scanned};
ghost use Rattle.graph_model.specs.declared.id.Id.{Id};
ghost use Rattle.object_layout.specs.CollectionWalk.{AreAmong};
ghost use Rattle.log_machine.specs.Collecting.{other_base, with_copy};
ghost use Rattle.log_machine.specs.Machine.{State, put_all};
ghost use Rattle.graph_words.specs.Places.{Places, address_of, addresses};
ghost use Rattle.graph_words.specs.Stands.{AreNamedByBirth};
ghost use Rattle.collection_words.specs.Completed.{places_from, without};
ghost use Rattle.collection_words.specs.Copying.{words_after_copy, next_copy, with_place};
ghost use Rattle.collection_words.specs.Flipped.{HasBegun, IsFlipping, flipped_words};
ghost use Rattle.collection_words.specs.LaidOut.{IsUnderway};
ghost use Rattle.collection_words.specs.Placed.{HaveOwnNames};
ghost use Rattle.collection_words.specs.Writes.{IsScanWrite};
ghost use Rattle.walk_laws.specs.Heap.{TellsBirths};

/// A flip leaves words that give births, where births named the objects of a heap and only these count as copied.
pub fn flips_tell_births()
    ensures { (s n : State) (k : Collection) (places chosen remaining : Places) (words : List ℕ) → IsFlipping s places chosen remaining words → HasBegun s n k places chosen remaining words → AreAmong k.moved (addresses places) → HaveOwnNames places → AreNamedByBirth places words → AreNamedByBirth (chosen ++ remaining) words → TellsBirths n (places_from words chosen (other_base s)) remaining (flipped_words s words (addresses chosen)) }
{}

/// The copy of an object keeps births.
pub fn copies_keep_births()
    ensures { (s : State) (k : Collection) (places remaining : Places) (words : List ℕ) (id : Id) (from : ℕ) → IsUnderway s k places remaining words → HaveOwnNames (places ++ remaining) → address_of remaining id ≡ Some from → TellsBirths s places remaining words → TellsBirths (with_copy s k (next_copy s words from)) (with_place s places id) (without remaining from) (words_after_copy s words from) }
{}

/// So does the scan of a page.
pub fn scans_keep_births()
    ensures { (s : State) (k : Collection) (places remaining : Places) (words : List ℕ) (page : ℕ) (writes : List (ℕ × ℕ)) → IsUnderway s k places remaining words → AllByRecursion (IsScanWrite s places remaining words) writes → TellsBirths s places remaining words → TellsBirths (record s { collection = Some (with_scanned k page) }) places remaining (put_all words writes) }
{}
