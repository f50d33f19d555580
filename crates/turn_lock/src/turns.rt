//! What a value under the lock models of the turns that were made on it.
ghost use Rattle.std.specs.Prelude.{ℕ, List};

/// A value that keeps a history of the turns that were made on it.
///
/// A turn adds one entry at the end of the history, or one to the count of empty turns. The lock knows nothing else of the value.
pub trait Turns {
    /// One entry of the history.
    type Entry;

    /// The history, oldest entry first.
    ghost entries: { Self → List Self.Entry };

    /// How many entries stood in the history when the lock was made.
    ghost stood: { Self → ℕ };

    /// The number that an entry acknowledges, 0 if it acknowledges none. It is below 2^64.
    ghost front: { Self.Entry → ℕ };

    /// How many turns added no entry, modulo 2^64.
    ghost empty_turns: { Self → ℕ };

    /// What a value that was handed to the lock may become. Each turn keeps it, between that value and the one that is put back.
    ghost follows: { Self → Self → Type 0 };
}
