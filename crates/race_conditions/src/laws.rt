//! What a condition speaks of.

ghost use Rattle.race_conditions.specs.Laws.{LeavesCountsOut, ReadsTheState, SeesTheWorld};

/// A condition of a state is one of the state: it reads no more than the shown state and the words of what the configuration has, a memory
/// shows the model and the words of its state, and so it does without the counts of sections. Does nothing: its contract is the law.
pub fn conditions_speak_of_the_world()
    ensures reads { ReadsTheState }
    ensures sees { SeesTheWorld }
    ensures counts { LeavesCountsOut }
{}
