//! The reason for which a run stops early.

ghost use Rattle.std.specs.Prelude.{◌≡◌};
ghost use Rattle.golf_run.specs.declared.fault.RunFault.TheVariants as faults;

use golf_base::{Memory, WriteFault};

/// The reason for which a run stops early.
#[derive(Clone, Copy, Debug, PartialEq, Eq)]
pub enum RunFault {
    /// Out of memory.
    Memory,
    /// A write to one of the sinks failed.
    Write,
}

impl From<Memory> for RunFault {
    ghost from_gives = { λ _ e. e ≡ faults.Memory };

    fn from(_: Memory) -> Self {
        RunFault::Memory
    }
}

impl From<WriteFault> for RunFault {
    ghost from_gives = { λ _ e. e ≡ faults.Write };

    fn from(_: WriteFault) -> Self {
        RunFault::Write
    }
}
