//! Facts that count those after them.
//!
//! Such a fact comes before the facts that it counts. So a place is kept for it, and filled once these facts are there.

ghost use Rattle.std.specs.Prelude.{◌≡◌, ◌-◌, ◌<◌, ◌++◌, length, slice_set, OnOk};
ghost use Rattle.golf_check_bodies.specs.Spines.{kept};

use golf_base::{List, Memory};
use golf_check_types::{Fact, Operand, copy_operand};
use std::alloc::Global;

/// Adds `count` places that are kept for facts of expressions.
pub(crate) fn keep(count: usize, facts: &mut List<Fact>) -> Result<(), Memory>
    ensures { OnOk result (facts.new ≡ facts.old ++ kept count) }
{
    for _ in 0..count {
        facts.push(Fact::Part(0))?;
    }
    Ok(())
}

/// Fills the place that was kept for the fact of an expression: what it is, and how many facts follow.
pub(crate) fn fill(
    alloc: Global,
    at: usize,
    operand: &Operand,
    facts: &mut List<Fact>,
) -> Result<(), Memory>
    requires { at < length facts.old }
    ensures { OnOk result (facts.new ≡ slice_set facts.old at (Fact.Expression operand.now (length facts.old - at - 1))) }
{
    let own = copy_operand(alloc, operand)?;
    let parts = facts.len() - at - 1;
    facts.set(
        at,
        Fact::Expression {
            operand: own,
            parts,
        },
    );
    Ok(())
}

/// Stores at a place the number of the facts after it.
pub(crate) fn count_part(facts: &mut List<Fact>, at: usize)
    requires { at < length facts.old }
    ensures { facts.new ≡ slice_set facts.old at (Fact.Part (length facts.old - at - 1)) }
{
    let count = facts.len() - at - 1;
    facts.set(at, Fact::Part(count));
}
