//! What a core is limited to: the room of its log, and how long collections last, how many bytes they take, and what they copy.
ghost use Rattle.limit_laws.specs.Bytes.{BytesTheorem};
ghost use Rattle.limit_laws.specs.Copies.{ExactTheorem, NoGarbageTheorem, UndisturbedTheorem, UsedTheorem};
ghost use Rattle.limit_laws.specs.Progress.{EndTheorem, PagesTheorem};
ghost use Rattle.limit_laws.specs.Room.{EndsTheorem, FitsTheorem, RollbackTheorem};

/// What the log uses and keeps lies within it.
pub fn log_keeps_room()
    ensures { FitsTheorem }
{}

/// The ends of transactions never lack room.
pub fn ends_have_room()
    ensures { EndsTheorem }
{}

/// An opening has room to take back what had not ended.
pub fn rollbacks_have_room()
    ensures { RollbackTheorem }
{}

/// A collection goes once through the pages.
pub fn pages_are_scanned_once()
    ensures { PagesTheorem }
{}

/// And then it ends.
pub fn collections_end()
    ensures { EndTheorem }
{}

/// Collections take few bytes of the log for each word that they copy.
pub fn collections_take_few_bytes()
    ensures { BytesTheorem }
{}

/// At no moment has a collection copied garbage.
pub fn collections_copy_no_garbage()
    ensures { NoGarbageTheorem }
{}

/// It copies just what is reached at its flip, whichever transactions are active then.
pub fn collections_copy_just_what_is_reached()
    ensures { ExactTheorem }
{}

/// One that no session disturbs copies all that is reached.
pub fn undisturbed_collections_copy_all_else()
    ensures { UndisturbedTheorem }
{}

/// `collected` says the words in use.
pub fn collected_says_the_words_in_use()
    ensures { UsedTheorem }
{}
