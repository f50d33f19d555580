//! Graphs up to renaming objects, and the words in which they are seen.
ghost use Rattle.std.specs.Prelude.{Bool, IsTrue, ◌≡◌, ◌↔◌, List, ℕ, length, ◌^◌, ◌<◌};
ghost use Rattle.graph_model.specs.Canon.{canon, numbered};
ghost use Rattle.graph_model.specs.ClosedGraph.{IsWhole};
ghost use Rattle.graph_model.specs.Graph.{Graph};
ghost use Rattle.graph_model.specs.Isomorphism.{AreRenamed, IsIsomorphism};
ghost use Rattle.graph_model.specs.NewNumbers.{HaveNewNumbers, HaveOwnNumbers};
ghost use Rattle.graph_model.specs.Numbering.{IsNumbering};
ghost use Rattle.graph_model.specs.Printable.{IsPrintable};
ghost use Rattle.graph_model.specs.Text.{canon_text};
ghost use Rattle.graph_model.specs.Transaction.{Transaction, serial, serial_replies};
ghost use Rattle.graph_model.specs.declared.id.Id.{Id};
ghost use Rattle.object_layout.specs.Layout.{IsSeenAs, IsSeen};
ghost use Rattle.object_layout.specs.Walk.{HaveOwnBirths, IsWalked};

/// Two whole graphs have one canon exactly where they are the same up to renaming objects.
pub fn canon_tells_renaming()
    ensures { (g h : Graph) → IsWhole g → IsWhole h → (canon g ≡ canon h) ↔ AreRenamed g h }
{}

/// Two whole graphs have one canon where some match of their ids is an isomorphism.
pub fn isomorphic_graphs_have_one_canon()
    ensures { (g h : Graph) (R : Id → Id → Bool) → IsWhole g → IsWhole h → IsIsomorphism (λ a b. IsTrue (R a b)) g h → canon g ≡ canon h }
{}

/// Where numbers are below 2^64, two whole graphs have one text exactly where they are the same up to renaming objects.
pub fn text_tells_renaming()
    ensures { (g h : Graph) → IsWhole g → IsWhole h → IsPrintable g → IsPrintable h → (canon_text (canon g) ≡ canon_text (canon h)) ↔ AreRenamed g h }
{}

/// The numbering of a canon has all that is reached, each object once, the root first, in breadth-first order.
pub fn numbering_is_breadth_first()
    ensures { (g : Graph) → IsWhole g → IsNumbering g (numbered g) }
{}

/// Transactions with new numbers, run on whole graphs that are the same up to renaming objects, are answered the same and leave such graphs.
pub fn serial_runs_keep_renamings()
    ensures { (g h : Graph) (ts : List Transaction) → IsWhole g → IsWhole h → AreRenamed g h → HaveOwnNumbers ts → HaveNewNumbers g ts → HaveNewNumbers h ts → (serial_replies g ts ≡ serial_replies h ts) × AreRenamed (serial g ts) (serial h ts) }
{}

/// Transactions that are run on a whole graph leave a whole graph.
pub fn serial_runs_keep_graphs_whole()
    ensures { (g : Graph) (ts : List Transaction) → IsWhole g → IsWhole (serial g ts) }
{}

/// Graphs that are seen in words from one address have one canon, whatever names their objects bear.
pub fn one_canon_is_seen()
    ensures { (name other : ℕ → Id) (words : List ℕ) (start : ℕ) (g h : Graph) → IsSeenAs name words start g → IsSeenAs other words start h → canon g ≡ canon h }
{}

/// The text of a graph that is seen in words is that of exactly those whole graphs, of numbers below 2^64, that are the same up to renaming objects.
pub fn seen_text_tells_renaming()
    ensures { (name : ℕ → Id) (words : List ℕ) (start : ℕ) (g h : Graph) → IsSeenAs name words start g → length words < 2 ^ 64 → IsWhole h → IsPrintable h → (canon_text (canon g) ≡ canon_text (canon h)) ↔ AreRenamed g h }
{}

/// Where the walk of the words passes and births differ, a graph is seen.
pub fn walked_words_show_a_graph()
    ensures { (words : List ℕ) (base used : ℕ) (walked : IsWalked words base used) → HaveOwnBirths words walked.starts → (g : Graph) × IsSeen words base g }
{}
