//! Equality of bodies, as a test.

ghost use Rattle.std.specs.Prelude.{◌≡◌, ◌↔◌, IsTrue};

use crate::code::CodeLine;

/// Returns whether two bodies have the same lines.
#[tactic(auto, using(crate::proofs::Equal::lines_decide))]
pub fn same_lines(lines: &[CodeLine], others: &[CodeLine]) -> bool
    ensures { IsTrue result ↔ (lines.now ≡ others.now) }
{
    lines == others
}
