//! Names left of `:=` and `=`, beside a receive.
//!
//! Left of `:=` a name that is not declared in the innermost block is new. Any other name is assigned.

ghost use Rattle.std.specs.Prelude.{◌≡◌, IfOk};
ghost use Rattle.golf_check_types.specs.Statements.{is_new as is_new_of, assigned_name as assigned_name_of};

use crate::operands::Operand;
use crate::scopes::{Scope, is_blank, is_here, meaning_at};
use golf_base::Memory;
use std::alloc::Global;

/// Returns whether `:=` would declare a name.
pub fn is_new(scope: &Scope, name: &[u8]) -> bool
    ensures { result ≡ is_new_of scope.now name.now }
{
    !is_blank(name) && !is_here(scope, name)
}

/// Returns what `=` assigns to if a name is on its left, or `None` if the name is not known.
#[tactic(auto, unfolding(crate::specs::Statements::assigned_name))]
pub fn assigned_name(alloc: Global, scope: &Scope, name: &[u8]) -> Result<Option<Operand>, Memory>
    ensures { IfOk result (λ m. m ≡ assigned_name_of scope.now name.now) }
{
    if is_blank(name) {
        return Ok(Some(Operand::Blank));
    }
    meaning_at(alloc, scope, name)
}
