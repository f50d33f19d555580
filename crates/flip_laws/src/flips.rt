//! What a flip from roots of a heap without a collection leaves.
ghost use Rattle.std.specs.Prelude.{◌≡◌, ℕ, List, [], Contains, Some, true};
ghost use Rattle.std.specs.FinSet.{contains};
ghost use Rattle.graph_model.specs.Graph.{Graph};
ghost use Rattle.log_machine.specs.Collecting.{collecting_after, pairs_of};
ghost use Rattle.log_machine.specs.Machine.{State, spaces_of};
ghost use Rattle.log_machine.specs.declared.UndoEntry.{UndoEntry};
ghost use Rattle.graph_words.specs.Places.{Places, addresses};
ghost use Rattle.flip_copy.specs.Copied.{flip_record};
ghost use Rattle.collection_words.specs.Completed.{StandsCompleted};
ghost use Rattle.collection_words.specs.Flipped.{WereTranslated};
ghost use Rattle.collection_words.specs.LaidOut.{IsUnderway};
ghost use Rattle.collection_words.specs.Placed.{HaveOwnNames};
ghost use Rattle.flip_laws.specs.Flip.{AreEntriesOf, CanFlip, collection_begun, copies_of, copy_places, entries_behind, left_places, state_behind, words_behind};

/// The objects of undo entries went along, and what these would put back leads to such.
pub fn flips_translate_entries()
    ensures { (s : State) (places : Places) (words roots : List ℕ) (us : List UndoEntry) → CanFlip s places words roots → HaveOwnNames places → AreEntriesOf s us → WereTranslated (pairs_of (copies_of s words roots)) places (copy_places s words roots places) us }
{}

/// The record of the flip can follow. After it a collection is under way with the words laid out and all copies gray, and each graph that
/// stood in the words stands in the completed ones, where the same writes are taken back, translated along with the objects.
pub fn flips_keep_heaps()
    ensures { (s : State) (places : Places) (words roots : List ℕ) (t made : ℕ) (g : Graph) (us : List UndoEntry) → CanFlip s places words roots → AreEntriesOf s us → StandsCompleted t made places [] g us words s → (collecting_after s (flip_record (spaces_of s) words roots) ≡ Some (state_behind s words roots)) × IsUnderway (state_behind s words roots) (collection_begun s words roots) (copy_places s words roots places) (left_places s words roots places) (words_behind s words roots) × ((at : ℕ) → Contains (addresses (copy_places s words roots places)) at → contains (collection_begun s words roots).gray at ≡ true) × StandsCompleted t made (copy_places s words roots places) (left_places s words roots places) g (entries_behind s words roots us) (words_behind s words roots) (state_behind s words roots) }
{}
