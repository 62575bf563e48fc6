// Attempts with windows of slots: when each can have a slot of its own, and why the deadline-driven rule finds out.
// Definitions and laws alone; the crate `schedule` decides by them.
#![tactic(auto)]

ghost use Rattle.windows.specs.Lanes.{EarliestBlockIsTheRule, LanesFitExactlyWhenAssigned};
ghost use Rattle.windows.specs.Windows.{RuleKeepsOverfullEnds, NoneOverfullNoEndHasCome, NoneOverfullExactlyWhenAssigned, FirstMissIsLeastOverfullEnd, TryingDecides};

// The laws of windows. It does nothing: its contract has each law proved.
pub fn laws_of_windows()
    ensures step { RuleKeepsOverfullEnds }
    ensures timely { NoneOverfullNoEndHasCome }
    ensures hall { NoneOverfullExactlyWhenAssigned }
    ensures miss { FirstMissIsLeastOverfullEnd }
    ensures trying { TryingDecides }
{}

// The laws of lanes, whose blocks are windows that count more than once.
pub fn laws_of_lanes()
    ensures hall { LanesFitExactlyWhenAssigned }
    ensures rule { EarliestBlockIsTheRule }
{}
