//! The reason for which a file is refused.
//!
//! It names the first fault of the file. `Memory` says nothing of the file.

ghost use Rattle.std.specs.Prelude.{◌≡◌};

use golf_base::Memory;

/// The reason for which a file is refused. Lines count from 1, bytes from 0.
#[derive(Clone, Copy, Debug, PartialEq, Eq)]
pub enum Refusal {
    /// The bytes do not lex. `byte` is the first place such that no text that lexes begins with the bytes
    /// up to and including this one. If there is no such place, `byte` is the length.
    Lexical { line: u32, byte: u32 },
    /// No file has these tokens. `line` is the line of the fault.
    Syntax { line: u32 },
    /// The file parses, and breaks a rule of types. `rule` is the first broken rule, and `line` its line.
    Untyped { line: u32, rule: u32 },
    /// Out of memory.
    Memory,
}

impl From<Memory> for Refusal {
    ghost use Rattle.golf_reader.specs.declared.refusal.Refusal.TheVariants as refusals;

    ghost from_gives = { λ _ refusal. refusal ≡ refusals.Memory };

    fn from(_: Memory) -> Self {
        Refusal::Memory
    }
}
