//! That the walk passes just where a heap is laid out in which a committed graph stands.
ghost use Rattle.std.specs.Prelude.{◌≡◌, ◌≤◌, ◌++◌, ℕ, List};
ghost use Rattle.graph_model.specs.Graph.{Graph, root};
ghost use Rattle.graph_model.specs.declared.id.Id.{Id};
ghost use Rattle.log_machine.specs.Machine.{State};
ghost use Rattle.graph_words.specs.Places.{AreOld};
ghost use Rattle.walk_laws.specs.Heap.{AreNamedApart, AreSpaces, HoldsWhole, IsStateWalked, address_name_beside, current_of, left_of, places_by};

/// Where the walk passes a graph stands, under any names that keep the objects apart and give the root's to the one at the base.
pub fn walked_heaps_hold_graphs()
    ensures { (s : State) (words : List ℕ) (name : ℕ → Id) → AreSpaces s words → (walked : IsStateWalked s words) → name s.base ≡ root → AreNamedApart name (current_of s words walked ++ left_of s words walked) → (g : Graph) × HoldsWhole s (places_by name (current_of s words walked)) (places_by name (left_of s words walked)) words g }
{}

/// Names by address are older than each transaction.
pub fn names_by_address_are_old()
    ensures { (s : State) (words : List ℕ) (next : ℕ) → AreSpaces s words → (walked : IsStateWalked s words) → 1 ≤ next → AreOld next (places_by (address_name_beside s) (current_of s words walked) ++ places_by (address_name_beside s) (left_of s words walked)) }
{}
