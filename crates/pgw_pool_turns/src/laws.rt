//! What holds of any list of calls of a desk.
ghost use Rattle.std.specs.Prelude.{ℕ, List, ◌≤◌};
ghost use Rattle.pgw_pool_turns.specs.Standings.{TurnDesk, IsWithinRoom};
ghost use Rattle.pgw_pool_turns.specs.Steps.{TurnDeed, TurnCourse, IsFair};

/// First come, first served: whatever calls were made of a desk, the tickets that were served
/// ascend in the order in which they were, and those of all who wait are above them. A ticket is
/// given behind all others, so who was served had come before all of these.
pub fn first_come_is_first_served()
    ensures { (room ready places : ℕ) (deeds : List TurnDeed) (d : TurnDesk) →
        TurnCourse room ready places deeds d → IsFair deeds d }
{}

/// No more things are ready or out than there is room for.
pub fn no_more_than_there_is_room_for()
    ensures { (room ready places : ℕ) (deeds : List TurnDeed) (d : TurnDesk) → ready ≤ room →
        TurnCourse room ready places deeds d → IsWithinRoom d }
{}
