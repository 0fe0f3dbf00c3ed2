//! The status with which the program ends, and its fixed lines on standard error.
//!
//! `constants_law` says that the texts are those of the definitions.

ghost use Rattle.std.specs.Prelude.{◌≡◌};
ghost use Rattle.golf_run_texts.specs.Codes.{code_of};
ghost use Rattle.golf_run_texts.specs.Fixed.{AreFixed};

/// The most bytes of a file.
pub const LIMIT: u32 = 1_048_576;

/// The usage, for words that are no command line.
pub const USAGE: &[u8; 160] =
    b"usage: golf run [--schedule S] [--turns N] [--every N] [--markers N] [--recover] [--why]\n       golf run --threads N\n       golf generate N\n       golf meaning\n";

/// The line of a source that fails.
pub const READ_FAULT: &[u8; 11] = b"read fault\n";

/// The line of a file of more than `LIMIT` bytes.
pub const TOO_LONG: &[u8; 33] = b"refused: more than 1048576 bytes\n";

/// The line of a program that is out of memory.
pub const NO_MEMORY: &[u8; 14] = b"out of memory\n";

/// States that the limit of a file and the texts above are those of the definitions.
pub fn constants_law()
    ensures { AreFixed }
{}

/// The status with which the program ends.
#[derive(Clone, Copy, Debug, PartialEq, Eq)]
pub enum Status {
    /// The run returned, and no goroutine was reported.
    Clean,
    /// The run returned, and a goroutine was reported.
    Found,
    /// The run ended by a panic, by a fatal error or asleep.
    Crashed,
    /// The run has not ended after its turns or its choices.
    Spent,
    /// The file is too long, or is refused.
    Refused,
    /// The words are no command line.
    Usage,
    /// The source failed.
    ReadFault,
    /// A sink failed.
    WriteFault,
    /// Memory has run out.
    Memory,
}

/// Returns the number with which the program exits (profile).
pub fn code(status: Status) -> u8
    ensures { result ≡ code_of status }
{
    match status {
        Status::Clean => 0,
        Status::Found => 1,
        Status::Crashed => 2,
        Status::Spent => 3,
        Status::Refused => 4,
        Status::Usage => 5,
        Status::ReadFault => 6,
        Status::WriteFault => 7,
        Status::Memory => 8,
    }
}
