//! Laws on levels and reasons.

ghost use Rattle.golf_cert.specs.Laws.{OrderComputed, OneReason, ReasonsComputed};

/// States that a place has at most one reason.
pub fn reasons_are_unique()
    ensures once { OneReason }
{}

/// States that the computed list is the one reason of each place of the least closed set. For any other
/// place it is empty.
pub fn reasons_are_computed()
    ensures computed { ReasonsComputed }
{}

/// States that the computed places are those of the least closed set, each once.
pub fn least_is_computed()
    ensures computed { OrderComputed }
{}
