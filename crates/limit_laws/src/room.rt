//! The room of the log.
ghost use Rattle.limit_laws.specs.Room.{FitsTheorem, RollbackTheorem};

/// What the log uses, and what it keeps for the ends of active transactions, lies within it, whichever events were made.
pub fn logs_keep_room_for_all_ends()
    ensures { FitsTheorem }
{}

/// The batch in which an opening takes back what had not ended has room.
pub fn openings_have_room_to_roll_back()
    ensures { RollbackTheorem }
{}
