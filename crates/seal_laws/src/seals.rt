//! What a seal leaves of a heap while a collection runs.
ghost use Rattle.std.specs.Prelude.{◌≡◌, ◌⊎◌, ◌+◌, ◌<◌, ◌≤◌, ◌++◌, ℕ, List, Some, fold, slice_index};
ghost use Rattle.std.specs.FinMap.{get};
ghost use Rattle.graph_model.specs.Graph.{Graph};
ghost use Rattle.graph_model.specs.declared.id.Id.{Id};
ghost use Rattle.log_machine.specs.Machine.{put_record, taken_back};
ghost use Rattle.log_machine.specs.declared.UndoEntry.{UndoEntry};
ghost use Rattle.graph_words.specs.Area.{HasMade};
ghost use Rattle.graph_words.specs.Places.{IsOwn, address_of, made_by};
ghost use Rattle.graph_words.specs.Stands.{AreNamedByBirth, AreOfFields, AreWritten};
ghost use Rattle.collection_words.specs.Completed.{completed, future};
ghost use Rattle.collection_words.specs.Writes.{AreBacked};
ghost use Rattle.seal_laws.specs.Seal.{AreWrittenWithin, CanSealWithin, IsBesideFields, Seal, all, asked, free_then, last, later_places, later_words, next_free, placed_then, records_then, seen_then, whole};

/// Births give the names of objects in the completed words after a seal, if they did in those before.
pub fn seals_keep_names()
    ensures { (c : Seal) → CanSealWithin c → AreNamedByBirth (all c) (seen_then c) → AreNamedByBirth (later_places c ++ future (last c) (later_words c) c.remaining) (taken_back c.others (completed (last c) (later_places c) c.remaining (later_words c))) }
{}

/// What has a place after a seal had it before, or the sealed transaction made it: among the current objects, and among those of the completed
/// words.
pub fn seals_promote_what_was_made()
    ensures { (c : Seal) (id : Id) (at : ℕ) → CanSealWithin c → (address_of (later_places c) id ≡ Some at → (address_of c.places id ≡ Some at) ⊎ IsOwn c.t c.made id) × (address_of (all c ++ placed_then c) id ≡ Some at → (address_of (all c) id ≡ Some at) ⊎ IsOwn c.t c.made id) }
{}

/// A word that is not free before a seal, and is of no field that its transaction wrote, stays: in all words and in the completed words.
pub fn seals_keep_other_words()
    ensures { (c : Seal) (x : ℕ) → CanSealWithin c → IsBesideFields c x → ((x < next_free c) ⊎ (next_free c + asked c ≤ x) → slice_index (later_words c) x ≡ slice_index c.words x) × (x < free_then c → slice_index (fold put_record (whole c) (records_then c)) x ≡ slice_index (whole c) x) }
{}

/// What another transaction has written is of fields of current objects after a seal, and has all that lead to its own objects, if it is so
/// after the seal of the completed words.
pub fn seals_keep_what_others_wrote()
    ensures { (c : Seal) (us : List UndoEntry) (g : Graph) → CanSealWithin c → AreBacked c.places c.words us → AreOfFields (all c ++ placed_then c) g us → AreWritten (all c ++ placed_then c) g us → AreOfFields (later_places c) g us × AreWrittenWithin (later_places c) c.remaining g us }
{}

/// What another transaction made leads to current objects after a seal or to its own, if it stays as it was and leads to objects of the
/// completed words after the seal of these.
pub fn seals_keep_what_others_made()
    ensures { (c : Seal) (u made : ℕ) (g h : Graph) → CanSealWithin c → HasMade c.places g u made → HasMade (all c ++ placed_then c) h u made → ((k : ℕ) → 1 ≤ k → k ≤ made → get h (made_by u k) ≡ get g (made_by u k)) → HasMade (later_places c) h u made }
{}
