//! Printed events.
ghost use Rattle.std.specs.Prelude.{List, Ok, Some, length, map, ◌≡◌, ◌≤◌};
ghost use Rattle.std.specs.List.{AllByRecursion};
ghost use Rattle.graph_model.specs.History.{IsOfSession};
ghost use Rattle.graph_model.specs.Text.{event_text};
ghost use Rattle.graph_model.specs.declared.event.Event.{Event};
ghost use Rattle.heap_theorems.specs.PrintedScript.{IsPrintedEvent, printed_script};
ghost use Rattle.script_text.specs.Line.{read_text};
ghost use Rattle.script_text.specs.Printed.{AreSpellable, spelled_numbers};
ghost use Rattle.script_text.specs.Script.{script};
ghost use Rattle.script_text.specs.declared.line.Line.TheVariants.{One};

/// A printed event is a line of the grammar, and is read as that event.
pub fn printed_events_are_read()
    ensures { (event : Event) → IsOfSession event → AreSpellable (spelled_numbers event) → read_text (event_text event) ≡ Some (One event) }
{}

/// Printed events, each on a line of its own, are a script of just these events, if their text is not too long for a script.
pub fn printed_scripts_are_read()
    ensures { (events : List Event) → AllByRecursion IsPrintedEvent events → length (printed_script events) ≤ 1048576 → script (printed_script events) ≡ Ok (map One events) }
{}
