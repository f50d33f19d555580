//! What a reader finds in the words of a heap as they stand, other transactions' writes with them.
ghost use Rattle.std.specs.Prelude.{◌≡◌, ◌<◌, ℕ, List, length, map, Some, false};
ghost use Rattle.std.specs.List.{AllByRecursion};
ghost use Rattle.graph_model.specs.Graph.{Graph, fields};
ghost use Rattle.graph_model.specs.declared.id.Id.{Id};
ghost use Rattle.object_layout.specs.Layout.{field_words};
ghost use Rattle.log_machine.specs.Machine.{State, field_at};
ghost use Rattle.log_machine.specs.declared.UndoEntry.{UndoEntry};
ghost use Rattle.graph_words.specs.Places.{IsVisible, Places, address_of, bits_of, place_of};
ghost use Rattle.collection_words.specs.Completed.{StandsCompleted};
ghost use Rattle.collection_words.specs.LaidOut.{is_gray_field};
ghost use Rattle.collection_words.specs.Writes.{AreBacked};
ghost use Rattle.seen_laws.specs.Heap.{IsHeap, IsUnwritten};

/// An object each of whose fields is not gray, and that other transactions did not write, has the words of their values, which lead to current
/// objects, or to the transaction's own.
pub fn objects_that_are_not_gray_have_their_fields()
    ensures { (s : State) (places remaining : Places) (words : List ℕ) (t made : ℕ) (g : Graph) (us : List UndoEntry) (id : Id) (at : ℕ) → IsHeap s places remaining words → AreBacked places words us → StandsCompleted t made places remaining g us words s → address_of places id ≡ Some at → ((i : ℕ) → i < length (fields g id) → (is_gray_field s.collection at i ≡ false) × IsUnwritten us (field_at at i)) → (field_words words at ≡ map (bits_of (place_of places g)) (fields g id)) × AllByRecursion (IsVisible places t made) (fields g id) }
{}
