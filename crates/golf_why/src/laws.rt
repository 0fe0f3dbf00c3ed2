//! Laws on explanations.

ghost use Rattle.golf_why.specs.Laws.{LiveAreTold};

/// States that an explanation has a way to a blocked goroutine other than goroutine 0 exactly when the
/// goroutine is live. It says how the goroutine is blocked, and names the members of its one reason.
pub fn live_are_told()
    ensures told { LiveAreTold }
{}
