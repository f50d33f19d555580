//! That the births of a legal image are those by which the objects of a heap are named.
ghost use Rattle.std.specs.Prelude.{ℕ, List};
ghost use Rattle.graph_model.specs.Graph.{Graph};
ghost use Rattle.object_layout.specs.Layout.{id_at};
ghost use Rattle.log_machine.specs.Machine.{State};
ghost use Rattle.walk_laws.specs.Births.{AreBornBeside};
ghost use Rattle.walk_laws.specs.Heap.{AreSpaces, HoldsBorn, HoldsWhole, IsStateWalked, current_of, from_space, left_of, places_by};

/// Where births are legal a graph stands whose objects are named by their births.
pub fn legal_births_name_heaps()
    ensures { (s : State) (next : ℕ) (words : List ℕ) → AreSpaces s words → (walked : IsStateWalked s words) → AreBornBeside next words s.base s.used (from_space s) walked → (g : Graph) × HoldsBorn s next (places_by (id_at words) (current_of s words walked)) (places_by (id_at words) (left_of s words walked)) words g × HoldsWhole s (places_by (id_at words) (current_of s words walked)) (places_by (id_at words) (left_of s words walked)) words g }
{}
