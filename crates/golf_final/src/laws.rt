//! A law on the keep rule on the graph of a state.

ghost use Rattle.golf_final.specs.KeepRule.{KeepsAlike};

/// States when a sleeper is kept, on the marked live graph of a state. It is kept exactly when its
/// goroutine is dead and the keep rule of the definitions keeps it.
pub fn keeps_law()
    ensures { KeepsAlike }
{}
