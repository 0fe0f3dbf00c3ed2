//! The path of a visit: the turns that reach it from the opening state.

ghost use Rattle.std.specs.Prelude.{◌≡◌, ◌<◌, ◌++◌, length, reverse, IfOk, OnOk};
ghost use Rattle.golf_explore.specs.VisitLists.{IsPathTo, ParentsBelow};

use crate::visits::Visit;
use golf_base::{List, Memory};
use std::alloc::Global;

/// Returns these numbers, and then more.
pub(crate) fn joined(alloc: Global, numbers: &[u64], more: &[u64]) -> Result<List<u64>, Memory>
    ensures { IfOk result (λ all. all ≡ numbers.now ++ more.now) }
{
    let mut all = List::new(alloc);
    all.extend_from_slice(numbers)?;
    all.extend_from_slice(more)?;
    Ok(all)
}

/// Adds numbers at the end, the last one first.
pub(crate) fn add_backwards(path: &mut Vec<u64>, numbers: &[u64]) -> Result<(), Memory>
    ensures { OnOk result (path.new.items ≡ path.old.items ++ reverse numbers.now) }
{
    let mut at = numbers.len();
    while at > 0 {
        at -= 1;
        path.push(numbers[at])?;
    }
    Ok(())
}

/// Returns the numbers of the turns that reach a visit from the opening state.
pub(crate) fn path_to(alloc: Global, visits: &[Visit], at: usize) -> Result<List<u64>, Memory>
    requires at { at < length visits.now }
    requires below { ParentsBelow visits.now }
    ensures { IfOk result (IsPathTo visits.now at) }
{
    let mut path = Vec::new(alloc);
    let mut here = at;
    while let Some(came) = &visits[here].came {
        add_backwards(&mut path, came.numbers.as_slice())?;
        here = came.parent as usize;
    }
    path.reverse();
    Ok(List::from_vec(path))
}
