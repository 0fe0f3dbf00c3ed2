//! The faults that stop a check.
//!
//! A check stops at the first broken rule in the order of the walk, or because it is out of memory.
//! No clause ties the second to a cause.

ghost use Rattle.std.specs.Prelude.{◌≡◌};
ghost use Rattle.golf_check_types.specs.declared.fault.TypeFault.TheVariants as faults;
ghost use Rattle.golf_check_types.specs.Faults.{AnswersOrFault, broken as broken_of};

use golf_base::Memory;

/// Why a file is not accepted.
#[derive(Clone, Copy, Debug, PartialEq, Eq)]
pub enum TypeFault {
    /// Out of memory.
    Memory,
    /// The first broken rule in the order of the walk, and its line.
    At { line: u32, rule: u32 },
}

impl From<Memory> for TypeFault {
    ghost from_gives = { λ _ e. e ≡ faults.Memory };

    fn from(_: Memory) -> Self {
        TypeFault::Memory
    }
}

/// Returns `Ok` if the test holds, and otherwise the fault of this rule on this line.
pub fn require(line: u32, rule: u32, holds: bool) -> Result<(), TypeFault>
    ensures { AnswersOrFault result (broken_of line rule holds) (λ _. Unit {0}) }
{
    if holds {
        Ok(())
    } else {
        Err(TypeFault::At { line, rule })
    }
}
