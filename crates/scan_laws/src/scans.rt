//! What the records of the scan of a page leave.
ghost use Rattle.std.specs.Prelude.{◌≡◌, ℕ, List, Some};
ghost use Rattle.heap_spaces.specs.Collection.{Collection};
ghost use Rattle.graph_model.specs.Graph.{Graph};
ghost use Rattle.log_records.specs.declared.Record.{Record};
ghost use Rattle.log_machine.specs.declared.UndoEntry.{UndoEntry};
ghost use Rattle.log_machine.specs.Machine.{State, spaces_of};
ghost use Rattle.graph_words.specs.Places.{Places};
ghost use Rattle.collection_words.specs.Completed.{StandsCompleted};
ghost use Rattle.collection_words.specs.LaidOut.{IsUnderway};
ghost use Rattle.collection_words.specs.Writes.{AreBacked};
ghost use Rattle.page_scanner.specs.Scan.{scan_records};
ghost use Rattle.scan_laws.specs.Scanned.{KeepHeap};

/// The records of the scan of a page of a heap in a collection can follow, one after another. After them objects stand where the records move
/// them, births are known as before, the words are laid out, no object that starts in the page is gray, and the graph that stood in the
/// completed words stands there, where the same writes are taken back.
pub fn scans_keep_heaps()
    ensures { (s : State) (k : Collection) (places remaining : Places) (words : List ℕ) (page t made : ℕ) (records : List Record) (g : Graph) (us : List UndoEntry) → IsUnderway s k places remaining words → AreBacked places words us → StandsCompleted t made places remaining g us words s → scan_records (spaces_of s) k words page ≡ Some records → KeepHeap s places remaining words page records t made g us }
{}
