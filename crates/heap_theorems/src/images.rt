//! What bytes and images mean: one thing, or one fault.
ghost use Rattle.std.specs.List.{AllByRecursion};
ghost use Rattle.std.specs.Prelude.{◌≡◌, List, length, fold, ℕ, ◌+◌, ◌^◌, ◌<◌, Some, false};
ghost use Rattle.gated_log.specs.Log.{HoldsBatches, records_of, BreaksAt};
ghost use Rattle.graph_model.specs.Graph.{Graph};
ghost use Rattle.graph_words.specs.Places.{Places};
ghost use Rattle.heap_model.specs.Core.{Core};
ghost use Rattle.heap_model.specs.CoreCrash.{StandsForFirst};
ghost use Rattle.heap_model.specs.Image.{StoredHeap, IsLegal, IsShaped, IsShapedLog, StandsFor, state_in};
ghost use Rattle.heap_model.specs.Opening.{IsFound, IsLeftByOpening, rolled_back};
ghost use Rattle.heap_program.specs.Stored.{IsStored};
ghost use Rattle.heap_model.specs.Theorems.{SayingTheorem, OneMeaningTheorem};
ghost use Rattle.heap_recovery.specs.Faults.{IsFaultAt, IsNoHeap};
ghost use Rattle.heap_recovery.specs.declared.at.At.{At};
ghost use Rattle.image_laws.specs.Kinds.{AreBytes, IsOfOneKind};
ghost use Rattle.image_plan.specs.Super.{IsSuper, superblock};
ghost use Rattle.image_plan.specs.declared.superblock.Super.{Super};
ghost use Rattle.log_machine.specs.Machine.{State, commits, first_contents, put_record, spaces_of};
ghost use Rattle.log_records.specs.Record.{IsRecord, spellings};
ghost use Rattle.log_records.specs.declared.Record.{Record};
ghost use Rattle.page_redo.specs.Origin.{Origin, heap_origin, state_from, commits_in};
ghost use Rattle.page_redo.specs.Pages.{Pages};
ghost use Rattle.page_redo.specs.Prefix.{HasAllWords, EachHoldsPrefix};
ghost use Rattle.page_redo.specs.Redo.{EachLacks, redone, words_from};

/// A superblock spells the numbers of one heap.
pub fn one_superblock()
    ensures { (a b : Super) → IsSuper a → IsSuper b → superblock a ≡ superblock b → a ≡ b }
{}

/// Bytes spell one list of records.
pub fn one_list_of_records()
    ensures { (first second : List Record) → AllByRecursion IsRecord first → AllByRecursion IsRecord second → spellings first ≡ spellings second → first ≡ second }
{}

/// The bytes of a log hold one list of batches.
pub fn one_list_of_batches()
    ensures { (log : List ℕ) (short : length log < 2 ^ 32) → (first second : List (List Record)) → AllByRecursion IsRecord (records_of first) → AllByRecursion IsRecord (records_of second) → HoldsBatches log first → HoldsBatches log second → first ≡ second }
{}

/// The bytes of a log break at one offset.
pub fn one_broken_batch()
    ensures { (log : List ℕ) (short : length log < 2 ^ 32) → (first second : ℕ) → BreaksAt log first → BreaksAt log second → first ≡ second }
{}

/// The bytes of a log never both hold batches and break.
pub fn log_holds_or_breaks()
    ensures { (log : List ℕ) (short : length log < 2 ^ 32) → (batches : List (List Record)) (offset : ℕ) → AllByRecursion IsRecord (records_of batches) → HoldsBatches log batches → ¬ BreaksAt log offset }
{}

/// An image has one fault at most.
pub fn one_fault()
    ensures { (image : List ℕ) (at other : At) → IsFaultAt at image → IsFaultAt other image → at ≡ other }
{}

/// An image that is no heap has no fault.
pub fn no_fault_without_a_heap()
    ensures { (at : At) (image : List ℕ) → IsNoHeap image → IsFaultAt at image → ⊥ }
{}

/// A shaped image has no fault.
pub fn no_fault_in_a_shaped_image()
    ensures { (stored : StoredHeap) (image : List ℕ) (at : At) → IsShaped stored image → IsFaultAt at image → ⊥ }
{}

/// Redo of a log on stored pages, each of which holds its records up to its LSN, leaves the words of the whole log, wherever the log begins.
pub fn redo_makes_pages_present()
    ensures { (o : Origin) → HasAllWords o → (records : List Record) (stored : Pages) → EachHoldsPrefix o records stored → (redone o stored records).words ≡ words_from o records }
{}

/// Where the pages in front of a log lack all of its records, the words that these leave are those with the effect of each, one after the other.
pub fn words_of_a_log()
    ensures { (o : Origin) (records : List Record) → EachLacks o.lsn o.pages → words_from o records ≡ fold put_record o.pages.words records }
{}

/// So they are in the log of a new heap.
pub fn words_of_a_new_log()
    ensures { (pages first : ℕ) (records : List Record) → words_from (heap_origin pages first) records ≡ fold put_record (first_contents pages) records }
{}

/// Redo of a log on stored pages, repeated, changes nothing.
pub fn redo_repeats_without_effect()
    ensures { (o : Origin) → HasAllWords o → (records : List Record) (stored : Pages) → EachHoldsPrefix o records stored → redone o (redone o stored records) records ≡ redone o stored records }
{}

/// Where the records of a log follow one another, the transactions that are committed after them are those of the log's origin, and one more
/// for each record of a commit.
pub fn commits_of_a_log()
    ensures { (o : Origin) (state : State) (records : List Record) → state_from o records ≡ Some state → commits_in (state_from o records) ≡ o.state.commits + commits records }
{}

/// An image that is no heap is not shaped.
pub fn no_heap_is_not_shaped()
    ensures { (stored : StoredHeap) (image : List ℕ) → IsNoHeap image → IsShaped stored image → ⊥ }
{}

/// Each image is no heap's, or damaged, at one place first, or shaped, and one of these alone.
pub fn each_image_is_of_one_kind()
    ensures { (image : List ℕ) → AreBytes image → IsOfOneKind image }
{}

/// Each legal image is one that the theorems on runs are about: a graph stands in it, each object under the name of its birth.
pub fn legal_image_is_stored()
    ensures { (stored : StoredHeap) (image : List ℕ) → IsLegal stored image → IsStored image }
{}

/// In a legal log that is redone on its pages a graph is found, with the canon of each that the log shows.
pub fn legal_log_shows_its_graph()
    ensures { SayingTheorem }
{}

/// In a shaped log that is redone on its pages a graph is found, under names by address.
pub fn shaped_log_shows_a_graph()
    ensures { (stored : StoredHeap) (shaped : IsShapedLog stored) → (places : Places) × (g : Graph) × IsFound stored shaped false places g }
{}

/// An image stands for one graph, up to renaming objects, and for one number of commits.
pub fn one_meaning()
    ensures { OneMeaningTheorem }
{}

/// What an opening leaves, at any moment of it, stands for the same graph and number of commits as the image that it opened.
pub fn openings_keep_the_meaning()
    ensures { (g : Graph) (k : ℕ) (image : List ℕ) (stands : StandsFor g k image) (new : List ℕ) → IsLeftByOpening stands.stored new → StandsFor g k new }
{}

/// What an opening leaves, at any moment of it, stands for the same commit prefix as the image that it opened.
pub fn rolled_back_images_mean_the_same()
    ensures { (c : Core) (k : ℕ) (image : List ℕ) (first : StandsForFirst c k image) (new : List ℕ) → IsLeftByOpening first.stands.stored new → StandsForFirst c k new }
{}

/// An opening leaves a collection where it was: what the log says once its transactions are rolled back has the same spaces, and the same objects
/// copied and gray.
pub fn openings_leave_collections()
    ensures { (stored : StoredHeap) (shaped : IsShapedLog stored) (n : State) → state_in (rolled_back stored) ≡ Some n → (spaces_of n ≡ spaces_of shaped.state) × (n.collection ≡ shaped.state.collection) }
{}
