//! The entries of a history, one after another.
ghost use Rattle.std.specs.Prelude.{List, ◌≡◌};
ghost use Rattle.std.specs.Iterator.{YieldsFirst, item_count};

use brief_entries::KeptEntry;
use graph_model::Entry;
use std::marker::Model;

/// The entries of a history that are left, oldest first. Clauses see exactly these.
#[derive(Debug, Drop)]
pub struct Entries<'a> {
    kept: &'a [KeptEntry],
    whole: &'a [Entry],
}

impl<'a> Model for Entries<'a> {
    ghost use Rattle.std.specs.Prelude.{List};
    ghost use Rattle.graph_model.specs.declared.reply.Entry.{Entry};
    ghost use Rattle.heap_history.specs.Kept.{AreWithin, entries_in};

    ghost Value = { List Entry };

    ghost view = { λ left. entries_in left.whole.now left.kept.now };

    ghost invariant = { λ left. AreWithin left.whole.now left.kept.now };
}

impl<'a> Entries<'a> {
    ghost use Rattle.heap_history.specs.Kept.{AreWithin, entries_in};

    /// All that these lists stand for.
    pub(crate) fn new(kept: &'a [KeptEntry], whole: &'a [Entry]) -> Entries<'a>
        requires { AreWithin whole.now kept.now }
        ensures { result ≡ entries_in whole.now kept.now }
    {
        Entries { kept, whole }
    }
}

impl Iterator for Entries<'_> {
    type Item = Entry;

    ghost next_gives = { YieldsFirst (λ left. left) };

    ghost remaining = { item_count (λ left. left) };

    fn next(&mut self) -> Option<Entry> {
        let (first, others) = self.kept.split_first()?;
        self.kept = others;
        Some(first.entry(self.whole))
    }
}
