//! Laws that tie the computed definitions to the derived ones.
//!
//! A derived definition is a relation, such as `Live`. A computed definition is a function, such as
//! `live_list`. Each law says that the two agree.

ghost use Rattle.golf_model.specs.Laws.{DeadComputed, FirstInOrder, KeepsComputed, LeastComputed, LiveComputed};
ghost use Rattle.golf_model.specs.Laws.{ReachComputed, RetainedComputed, WaitersInOrder};

/// States that the computed objects are exactly the reached ones.
pub fn reach_law()
    ensures reached { ReachComputed }
{}

/// States that the computed live set is exactly the derived one.
pub fn live_law()
    ensures live { LiveComputed }
{}

/// States that the computed dead goroutines are exactly the blocked ones outside the live set.
pub fn dead_law()
    ensures dead { DeadComputed }
{}

/// States that the waiters of an object come in rising order of ticket, and that `first` is the
/// first of them.
pub fn waiters_law()
    ensures waiters { WaitersInOrder }
    ensures first { FirstInOrder }
{}

/// States that the computed least closed set of a graph is exactly the derived one.
pub fn least_law()
    ensures least { LeastComputed }
{}

/// States that the computed keep rule and the computed retained objects are exactly the derived
/// ones.
pub fn collection_law()
    ensures keeps { KeepsComputed }
    ensures retained { RetainedComputed }
{}
