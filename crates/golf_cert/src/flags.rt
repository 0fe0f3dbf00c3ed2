//! Flags by place.

ghost use Rattle.std.specs.Prelude.{◌≡◌, ◌<◌, ◌↔◌, ℕ, IfOk, IsTrue, length};
ghost use Rattle.golf_theory.specs.Membership.{In, Every};
ghost use Rattle.golf_marks.specs.Flags.{IsSet};

use golf_base::{List, Memory};
use std::alloc::Global;

/// Returns whether a flag is set. A number past the last flag counts as not set.
pub(crate) fn is_set(flags: &[bool], at: u32) -> bool
    ensures { IsTrue result ↔ IsSet flags.now at }
{
    flags.get(at as usize) == Some(&true)
}

/// Returns `count` flags, of which those of these places are set.
pub(crate) fn flags_of(alloc: Global, count: u32, places: &[u32]) -> Result<List<bool>, Memory>
    requires { Every (λ p. p < count) places.now }
    ensures length { IfOk result (λ flags. length flags ≡ count) }
    ensures members { IfOk result (λ flags. (p : ℕ) → IsSet flags p ↔ In p places.now) }
{
    let mut flags = List::new(alloc);
    flags.extend_with(count as usize, false)?;
    for place in places {
        flags.set(*place as usize, true);
    }
    Ok(flags)
}

/// Returns whether the flags of all these places are set.
pub(crate) fn are_set(flags: &[bool], places: &[u32]) -> bool
    ensures { IsTrue result ↔ Every (IsSet flags.now) places.now }
{
    for place in places {
        if !is_set(flags, *place) {
            return false;
        }
    }
    true
}
