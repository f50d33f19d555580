//! What a relocation keeps of a graph, and of objects when writes are taken back.
ghost use Rattle.std.specs.Prelude.{ℕ, List};
ghost use Rattle.graph_model.specs.Graph.{Graph};
ghost use Rattle.std.specs.List.{AllByRecursion};
ghost use Rattle.object_layout.specs.Walk.{AreEndToEnd};
ghost use Rattle.log_machine.specs.Machine.{taken_back};
ghost use Rattle.log_machine.specs.declared.UndoEntry.{UndoEntry};
ghost use Rattle.graph_words.specs.Places.{Places, addresses};
ghost use Rattle.graph_words.specs.Stands.{Stands};
ghost use Rattle.collection_words.specs.Placed.{ArePlacedIn};
ghost use Rattle.collection_words.specs.Relocated.{AreRelocatedEntries, IsRelocated};
ghost use Rattle.collection_words.specs.Writes.{IsCurrentField};

/// A graph stands where its objects were relocated, if they fill the used words of a space there.
pub fn relocated_graphs_stand()
    ensures { (t made : ℕ) (places others : Places) (g : Graph) (words moved : List ℕ) (base used new_base new_used : ℕ) → Stands t made places g words base used → ArePlacedIn others moved new_base new_used → IsRelocated places others words moved → Stands t made others g moved new_base new_used }
{}

/// Objects stay relocated when writes of their fields are taken back, in one list of words as they are and in the other as they are there.
pub fn relocations_survive_writes_taken_back()
    ensures { (places others : Places) (words moved : List ℕ) (from end to stop : ℕ) (us vs : List UndoEntry) → AreEndToEnd words from (addresses places) end → AreEndToEnd moved to (addresses others) stop → IsRelocated places others words moved → AreRelocatedEntries places others us vs → AllByRecursion (λ u. IsCurrentField places words u.object u.field) us → AreEndToEnd (taken_back vs moved) to (addresses others) stop × IsRelocated places others (taken_back us words) (taken_back vs moved) }
{}
