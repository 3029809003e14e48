//! Laws over the definitions: functions that do nothing, and whose contracts are the laws.
ghost use Rattle.stow_message.specs.Laws.{PlacedRises, AllPlacedRise, AllPlacedHold, RangeAndRest, MoveKeepsAll, TakenAndRest, RestsRise, SizesAddUp, OldestAreHeld};

/// A rising list with a new message rises.
pub fn placed_rises()
    ensures { PlacedRises }
{}

/// A rising list with new messages that rise rises.
pub fn all_placed_rise()
    ensures { AllPlacedRise }
{}

/// A message is in the list with more messages exactly where it was there or is one of them.
pub fn all_placed_hold()
    ensures { AllPlacedHold }
{}

/// The messages of an interval and those of the other keys make up the list.
pub fn range_and_rest()
    ensures { RangeAndRest }
{}

/// Where an interval of a list moves into another, both together hold what they held.
pub fn move_keeps_all()
    ensures { MoveKeepsAll }
{}

/// A batch that was taken out and what is left make up the list.
pub fn taken_and_rest()
    ensures { TakenAndRest }
{}

/// What is left of a rising list rises.
pub fn rests_rise()
    ensures { RestsRise }
{}

/// The size of a list with more messages is that of the list and that of the messages.
pub fn sizes_add_up()
    ensures { SizesAddUp }
{}

/// A batch whose messages are the oldest of their keys is held.
pub fn oldest_are_held()
    ensures { OldestAreHeld }
{}
