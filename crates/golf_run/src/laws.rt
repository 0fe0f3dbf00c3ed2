//! Laws that follow from the clause of a run.

ghost use Rattle.golf_run.specs.Laws.{FaultsLeavePrefixes, LeaksAreReported, WritesAreTexts};

/// States that the writes of a run, for each sink, are its two texts.
pub fn writes_are_texts()
    ensures { WritesAreTexts }
{}

/// States that each sink got a prefix of its text, if a write failed or memory ran out.
pub fn faults_leave_prefixes()
    ensures { FaultsLeavePrefixes }
{}

/// States that a run reports a goroutine, if it takes turns and then collects a state with a dead
/// goroutine.
pub fn leaks_are_reported()
    ensures { LeaksAreReported }
{}
