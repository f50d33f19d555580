//! What a planned flip does to the record machine: each law is the contract of a function that does nothing, but for those that
//! proofs above need.
ghost use Rattle.std.specs.Prelude.{◌≡◌, ◌≤◌, ℕ, List, length, Contains, true};
ghost use Rattle.std.specs.FinSet.{contains};
ghost use Rattle.heap_spaces.specs.Copying.{begun, with_copies};
ghost use Rattle.heap_spaces.specs.Spaces.{SpacesState, IsSpaces};
ghost use Rattle.log_machine.specs.Machine.{State, words_in, put_record};
ghost use Rattle.log_machine.specs.Sound.{IsConsistent};
ghost use Rattle.log_records.specs.declared.copies.ObjectCopy.{ObjectCopy};
ghost use Rattle.flip_copy.specs.Copied.{root_copies, flip_record, moved_objects};
ghost use Rattle.flip_copy.specs.Flipped.{IsPlanned, with_flip};
ghost use Rattle.flip_copy.specs.Moved.{IsCopiedObject};
ghost use Rattle.flip_copy.specs.Plan.{AreCopiesOf};

/// The state after a planned flip is consistent: used and owed words have room, and the translated entries are of fields in the used words.
pub fn planned_flip_keeps_consistent()
    ensures { (s : State) (words roots : List ℕ) (copies : List ObjectCopy) → IsPlanned s words roots copies → IsConsistent (with_flip s copies) }
{}

/// Each copy of a flip is gray.
pub fn flip_copies_are_gray()
    ensures { (used : ℕ) (copies : List ObjectCopy) (copy : ObjectCopy) → Contains copies copy → contains (with_copies (begun used) (moved_objects copies)).gray copy.to ≡ true }
{}

/// After the record of a planned flip each object that it copies has moved: a forwarding word leads to the copy, which has the object's words.
pub fn planned_flip_moves_objects()
    ensures { (spaces : SpacesState) (words roots : List ℕ) (copy : ObjectCopy) → IsSpaces spaces → words_in spaces.pages ≤ length words → AreCopiesOf spaces (root_copies spaces words roots) → Contains (root_copies spaces words roots) copy → IsCopiedObject words (put_record words (flip_record spaces words roots)) copy }
{}
