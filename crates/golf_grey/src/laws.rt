//! A law on the limits of the rule.

ghost use Rattle.golf_grey.specs.Laws.{TellsNothingNew};

/// States that `GreyPool::take` tells a hand nothing new if it finds a deque empty: the hand knew it
/// before. So no later knowledge of a hand depends on it.
pub fn none_law()
    ensures { TellsNothingNew }
{}
