//! How long a collection lasts, how many bytes of the log it takes, and what it copies.
ghost use Rattle.limit_laws.specs.Copies.{ExactTheorem, UndisturbedTheorem, UsedTheorem};

/// A collection that no session disturbs copies just what is reached from the root, and its reply gives as many used words as that takes.
pub fn undisturbed_collections_copy_what_is_reached()
    ensures { UndisturbedTheorem }
{}

/// A collection is answered `collected` with the words that its copies take, and the objects that became stable meanwhile.
pub fn collected_says_the_words_in_use()
    ensures { UsedTheorem }
{}

/// A collection copies just what is reached from the root at its flip, whichever transactions are active then, and whatever sessions do while it is
/// under way.
pub fn collections_copy_just_what_is_reached()
    ensures { ExactTheorem }
{}
