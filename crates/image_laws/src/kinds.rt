//! Each image is of one kind, and so are its parts.
ghost use Rattle.std.specs.Prelude.{◌⊎◌, ℕ, ◌^◌, ◌<◌, List, length, Option};
ghost use Rattle.std.specs.List.{AllByRecursion};
ghost use Rattle.log_records.specs.declared.Record.{Record};
ghost use Rattle.log_records.specs.Record.{IsRecord};
ghost use Rattle.gated_log.specs.Log.{HoldsBatches, BreaksAt, records_of};
ghost use Rattle.object_layout.specs.CollectionWalk.{FromSpace, IsWalkedBeside, IsWalkFaultBeside};
ghost use Rattle.image_laws.specs.Kinds.{AreBytes, IsOfOneKind};

/// Each image is no heap's, damaged first at one place, or shaped, and one of these alone.
pub fn each_image_is_of_one_kind()
    ensures { (image : List ℕ) → AreBytes image → IsOfOneKind image }
{}

/// The bytes of each log hold batches of whole records, or break off at an offset.
pub fn each_log_holds_batches_or_breaks()
    ensures { (log : List ℕ) → AreBytes log → length log < 2 ^ 32 → 0 < length log → ((batches : List (List Record)) × AllByRecursion IsRecord (records_of batches) × HoldsBatches log batches) ⊎ ((offset : ℕ) × BreaksAt log offset) }
{}

/// The walk of each heap's spaces passes, or fails first at an address, whatever the words.
pub fn each_walk_passes_or_fails()
    ensures { (words : List ℕ) (base used : ℕ) (from : Option FromSpace) → IsWalkedBeside words base used from ⊎ ((at : ℕ) × IsWalkFaultBeside words base used from at) }
{}
