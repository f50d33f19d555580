//! The same of the writes that the state after records says may be taken back: the sealed graph is seen, and each transaction reads its own view.
ghost use Rattle.std.specs.Prelude.{◌≡◌, ◌<◌, ◌++◌, ℕ, List, length, Some, false};
ghost use Rattle.graph_model.specs.Graph.{Graph, fields};
ghost use Rattle.graph_model.specs.declared.id.Id.{Id};
ghost use Rattle.object_layout.specs.Layout.{IsSeen, object_at};
ghost use Rattle.log_machine.specs.Machine.{State, all_taken_back, field_at};
ghost use Rattle.graph_words.specs.Places.{Places, address_of};
ghost use Rattle.graph_words.specs.Stands.{AreNamedByBirth};
ghost use Rattle.collection_words.specs.Completed.{completed, future};
ghost use Rattle.collection_words.specs.LaidOut.{is_gray_field};
ghost use Rattle.seen_laws.specs.Heap.{AreAllBacked, IsFieldHere, IsHeap, IsUnwrittenByOthers, StandsSealed, StandsViewed};

/// The sealed graph is seen by births where these give the names in the completed words.
pub fn sealed_graphs_are_seen_by_birth()
    ensures { (s : State) (places remaining : Places) (words : List ℕ) (g : Graph) → IsHeap s places remaining words → AreAllBacked s places words → StandsSealed places remaining g words s → AreNamedByBirth (places ++ future s words remaining) (all_taken_back s (completed s places remaining words)) → IsSeen (all_taken_back s words) s.base g }
{}

/// A current object stands in the words with the length that a transaction sees.
pub fn transactions_find_lengths()
    ensures { (s : State) (places remaining : Places) (words : List ℕ) (t made : ℕ) (g : Graph) (id : Id) (at : ℕ) → IsHeap s places remaining words → AreAllBacked s places words → StandsViewed t made places remaining g words s → address_of places id ≡ Some at → object_at words at ≡ Some (length (fields g id)) }
{}

/// A field of it that is not gray, and that no other transaction wrote, has the word of the value that the transaction sees.
pub fn transactions_find_fields()
    ensures { (s : State) (places remaining : Places) (words : List ℕ) (t made : ℕ) (g : Graph) (id : Id) (at i : ℕ) → IsHeap s places remaining words → AreAllBacked s places words → StandsViewed t made places remaining g words s → address_of places id ≡ Some at → i < length (fields g id) → is_gray_field s.collection at i ≡ false → IsUnwrittenByOthers s t (field_at at i) → IsFieldHere t made places g words id at i }
{}
