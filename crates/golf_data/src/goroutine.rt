//! Goroutines: their frames, how they wait, and how a program ends.
//!
//! A goroutine holds its frames, the innermost one last, and its waits. The wait queues of objects
//! are elsewhere. `Fault` and `Ending` say why a frame unwinds and how a program has ended.

ghost use Rattle.std.specs.Prelude.{◌≡◌};
ghost use Rattle.golf_data.specs.Fatal.{is_fatal};

use crate::deferred_calls::DeferredCalls;
use crate::frame_values::FrameValues;
use crate::value::Value;
use crate::waits::Waits;
use golf_base::{GoroutineId, List, ObjectId};

/// A call that has not returned.
#[derive(Debug, Drop)]
pub struct Frame {
    pub function: u32,
    /// The place of the next instruction.
    pub at: u32,
    /// The slots, and the operands, the last one on top.
    pub values: FrameValues,
    /// The deferred calls, the last one on top.
    pub deferred: DeferredCalls,
    pub leaving: Leaving,
    /// Whether its value is discarded. This is true for the frame of a deferred call and for a
    /// first frame.
    pub discards: bool,
}

/// A call that runs when its frame leaves.
#[derive(Debug, Drop)]
pub struct Deferred {
    pub function: u32,
    pub arguments: List<Value>,
}

/// Whether and how a frame is leaving.
#[derive(Clone, Copy, Debug, PartialEq, Eq)]
pub enum Leaving {
    No,
    /// With the value that it returns, if it has one.
    Returning(Option<Value>),
    Unwinding(Fault),
}

/// A panic or a fatal error, and the line of its instruction.
#[derive(Clone, Copy, Debug, PartialEq, Eq)]
pub struct Fault {
    pub kind: PanicKind,
    pub line: u32,
}

/// Why a goroutine panics, or why the program ends with a fatal error.
#[derive(Clone, Copy, Debug, PartialEq, Eq)]
pub enum PanicKind {
    /// `panic` of a text of the code's table.
    Custom(u32),
    NilPointer,
    Index { at: i64, length: u32 },
    DivideByZero,
    SliceSize,
    ChanSize,
    SendClosed,
    CloseClosed,
    CloseNil,
    NegativeGroup,
    /// Fatal.
    UnlockUnlocked,
    /// Fatal.
    UnlockUnlockedRw,
    /// Fatal.
    RUnlockUnlocked,
    /// Fatal.
    ReaderLimit,
    /// Fatal.
    FinalizerSet,
    /// Fatal.
    StackOverflow,
}

impl PanicKind {
    /// Returns whether it is a fatal error. A fatal error ends the program at once, and no deferred
    /// call runs (this runtime's rule).
    pub fn is_fatal(self) -> bool
        ensures { result ≡ is_fatal self }
    {
        matches!(
            self,
            PanicKind::UnlockUnlocked
                | PanicKind::UnlockUnlockedRw
                | PanicKind::RUnlockUnlocked
                | PanicKind::ReaderLimit
                | PanicKind::FinalizerSet
                | PanicKind::StackOverflow
        )
    }
}

/// A goroutine that has not ended.
#[derive(Debug, Drop)]
pub struct Goroutine {
    /// The frames, the innermost one last.
    pub frames: List<Frame>,
    pub mode: Mode,
    /// The line of the `go` statement, or of `func main` for goroutine 1.
    pub started: u32,
}

/// Whether a goroutine runs.
#[derive(Debug, Drop)]
pub enum Mode {
    /// Runnable, or goroutine 0 without a frame.
    Running,
    Blocked {
        kind: WaitKind,
        /// The line of the instruction that blocked.
        line: u32,
        /// In the source order of the cases.
        waits: Waits,
        ticket: u64,
    },
}

/// How a blocked goroutine waits, as a report says it.
#[derive(Clone, Copy, Debug, PartialEq, Eq)]
pub enum WaitKind {
    Receive,
    ReceiveNil,
    Send,
    SendNil,
    Select,
    SelectNone,
    Lock,
    Group,
    ReadLock,
    WriteLock,
    Condition,
}

/// One object that a blocked goroutine waits on.
#[derive(Clone, Copy, Debug, PartialEq, Eq)]
pub struct Wait {
    /// The value to send; nil for any other wait.
    pub value: Value,
    pub object: ObjectId,
    /// Where the goroutine goes on when this wait is served. `None` means where it stands.
    pub target: Option<u32>,
    pub side: Side,
    /// Whether a receive also gives whether the value was sent.
    pub with_ok: bool,
}

/// On which side of an object a goroutine waits.
#[derive(Clone, Copy, Debug, PartialEq, Eq)]
pub enum Side {
    Receive,
    Send,
    Lock,
    Group,
    Read,
    Write,
    Cond,
}

/// How a program has ended.
#[derive(Clone, Copy, Debug, PartialEq, Eq)]
pub enum Ending {
    /// Goroutine 1 has returned.
    Returned,
    /// The last frame of a goroutine was unwound, or there was a fatal error.
    Panicked {
        kind: PanicKind,
        goroutine: GoroutineId,
        line: u32,
    },
    /// No goroutine can run.
    Asleep,
}

/// A queued finaliser: its function, and the object that the function is to be called with.
#[derive(Clone, Copy, Debug, PartialEq, Eq)]
pub struct Queued {
    pub object: ObjectId,
    pub function: u32,
}
