//! The births of a heap's objects, and their names.
ghost use Rattle.std.specs.Prelude.{◌≡◌, ◌++◌, ℕ, List, Some};
ghost use Rattle.log_machine.specs.Machine.{State};
ghost use Rattle.graph_model.specs.declared.id.Id.{Id};
ghost use Rattle.object_layout.specs.Layout.{birth_at};
ghost use Rattle.graph_words.specs.Places.{Places, address_of};
ghost use Rattle.collection_words.specs.Completed.{completed, future};
ghost use Rattle.seen_laws.specs.Heap.{IsHeap};

/// Each object, current or not, has its birth where it stands in the completed words.
pub fn objects_have_their_births_in_the_completed_words()
    ensures { (s : State) (places remaining : Places) (words : List ℕ) (id : Id) (at : ℕ) → IsHeap s places remaining words → address_of (places ++ remaining) id ≡ Some at → (to : ℕ) × (address_of (places ++ future s words remaining) id ≡ Some to) × (birth_at (completed s places remaining words) to ≡ birth_at words at) }
{}
