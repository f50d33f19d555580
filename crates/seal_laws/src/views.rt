//! What active transactions see while a collection runs.
ghost use Rattle.std.specs.Prelude.{◌≡◌, ◌++◌, ◌≤◌, ℕ, List, None};
ghost use Rattle.std.specs.FinMap.{get};
ghost use Rattle.heap_spaces.specs.Collection.{Collection};
ghost use Rattle.graph_model.specs.Graph.{Graph};
ghost use Rattle.log_machine.specs.Machine.{State};
ghost use Rattle.log_machine.specs.declared.UndoEntry.{UndoEntry};
ghost use Rattle.graph_words.specs.Places.{Places, address_of, made_by};
ghost use Rattle.collection_words.specs.Completed.{StandsCompleted};
ghost use Rattle.collection_words.specs.LaidOut.{IsUnderway};
ghost use Rattle.collection_words.specs.Writes.{AreBacked};
ghost use Rattle.seal_laws.specs.Seal.{CanSealWithin, IsSeenThen, IsSeenWithin, Seal, begun, seen_behind, seen_by};

/// A transaction that begins sees the graph that stands committed, where no object has a name that it can give.
pub fn new_transactions_see_graphs()
    ensures { (s : State) (k : Collection) (places remaining : Places) (words : List ℕ) (g : Graph) (t : ℕ) (us : List UndoEntry) → IsUnderway s k places remaining words → AreBacked places words us → StandsCompleted 0 0 places remaining g us words s → ((i : ℕ) → address_of (places ++ remaining) (made_by t i) ≡ None) → IsSeenWithin (begun s k places remaining words g t us) }
{}

/// What another active transaction saw before a seal it sees after it, if it sees it after the seal of the completed words and what it made is
/// as it was.
pub fn seals_keep_views()
    ensures { (c : Seal) (u made : ℕ) (g h : Graph) (undo before behind : List UndoEntry) → CanSealWithin c → IsSeenWithin (seen_by c u made g undo before) → AreBacked c.places c.words behind → ((i : ℕ) → 1 ≤ i → i ≤ made → get h (made_by u i) ≡ get g (made_by u i)) → IsSeenThen c u made h undo behind → IsSeenWithin (seen_behind c u made h undo behind) }
{}
