//! The targets around a statement.

ghost use Rattle.std.specs.Prelude.{◌≡◌, ◌+◌, IfOk};

use golf_base::Memory;

/// The targets of `break` and `continue` around a statement, counted from the innermost target.
#[derive(Clone, Copy, Debug, PartialEq, Eq)]
pub struct Targets {
    pub breaks: u32,
    pub continues: u32,
}

/// Returns the targets inside `count` more targets.
pub fn within(targets: Targets, count: u32) -> Result<Targets, Memory>
    ensures { IfOk result (λ u. u ≡ record { breaks = targets.breaks + count; continues = targets.continues + count }) }
{
    Ok(Targets {
        breaks: targets.breaks.checked_add(count).ok_or(Memory)?,
        continues: targets.continues.checked_add(count).ok_or(Memory)?,
    })
}

/// Returns the targets inside a clause of `select` that `later` clauses follow.
pub fn in_clause(targets: Targets, later: u32) -> Result<Targets, Memory>
    ensures { IfOk result (λ u. u ≡ record { breaks = later; continues = targets.continues + (later + 1) }) }
{
    let further = later.checked_add(1).ok_or(Memory)?;
    Ok(Targets {
        breaks: later,
        continues: targets.continues.checked_add(further).ok_or(Memory)?,
    })
}

/// Returns a count plus one.
pub fn one_more(count: usize) -> Result<usize, Memory>
    ensures { IfOk result (λ n. n ≡ count + 1) }
{
    Ok(count.checked_add(1).ok_or(Memory)?)
}
