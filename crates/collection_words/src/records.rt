//! What the copies of a flip are.
ghost use Rattle.std.specs.Prelude.{ℕ, List};
ghost use Rattle.log_machine.specs.Collecting.{other_base};
ghost use Rattle.log_machine.specs.Machine.{State};
ghost use Rattle.graph_words.specs.Places.{Places, addresses};
ghost use Rattle.collection_words.specs.Completed.{places_from};
ghost use Rattle.collection_words.specs.Flipped.{HasFlipped, HaveParted, IsFlipping, flipped_words};

/// The copies of a flip part the objects: each chosen one is copied with its words, and a forwarding word leads from where it stood to its copy;
/// each other one stays as it is.
pub fn flips_part_objects()
    ensures { (s n : State) (places chosen remaining : Places) (words : List ℕ) → IsFlipping s places chosen remaining words → HasFlipped s n → HaveParted n places (places_from words chosen (other_base s)) remaining words (flipped_words s words (addresses chosen)) }
{}
