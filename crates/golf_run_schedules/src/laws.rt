//! A law on the events of a run.

ghost use Rattle.golf_run_schedules.specs.Laws.{ChoicesThenCollect};

/// States the events of a run with N written choices and a collection after each N-th turn. The run takes
/// the turns of these numbers, and then collects once.
pub fn choices_then_collect()
    ensures { ChoicesThenCollect }
{}
