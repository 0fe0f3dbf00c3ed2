//! Membership of a goroutine in a list of rising numbers, by binary search.
//!
//! The ledger of reports and the retained graph use it.

ghost use Rattle.std.specs.Prelude.{◌≡◌, not, map, IfOk};
ghost use Rattle.std.specs.List.Sorted.{IsNonDecreasingBy};
ghost use Rattle.golf_theory.specs.Membership.{is_in};

use golf_base::{GoroutineId, List, Memory};
use std::alloc::Global;

/// Returns whether the goroutine is in this list, whose numbers rise.
pub fn is_among(g: GoroutineId, goroutines: &[GoroutineId]) -> bool
    requires { IsNonDecreasingBy (λ h. h.0) goroutines.now }
    ensures { result ≡ is_in g.0 (map (λ h. h.0) goroutines.now) }
{
    goroutines.binary_search(&g).is_ok()
}

/// Returns for each of these goroutines whether it is absent from the others, whose numbers rise.
pub fn outside(
    alloc: Global,
    goroutines: &[GoroutineId],
    others: &[GoroutineId],
) -> Result<List<bool>, Memory>
    requires { IsNonDecreasingBy (λ h. h.0) others.now }
    ensures { IfOk result (λ flags. flags ≡ map (λ g. not (is_in g.0 (map (λ h. h.0) others.now))) goroutines.now) }
{
    let mut flags = List::new(alloc);
    for g in goroutines {
        flags.push(!is_among(*g, others))?;
    }
    Ok(flags)
}
