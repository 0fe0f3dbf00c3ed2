//! The data of a running program: code, values and objects, goroutines, reports.
#![tactic(auto)]

mod code;
mod copies;
mod deferred_calls;
mod effects;
mod equality;
mod frame_values;
mod goroutine;
mod report;
mod value;
mod waits;
mod zeros;

pub use code::{CaseKind, Code, CodeLine, Function, Instr, SelectCase};
pub use copies::copied_list;
pub use deferred_calls::DeferredCalls;
pub use effects::{Effect, case_left, case_taken, effect_of};
pub use equality::same_lines;
pub use frame_values::FrameValues;
pub use goroutine::{
    Deferred, Ending, Fault, Frame, Goroutine, Leaving, Mode, PanicKind, Queued, Side, Wait,
    WaitKind,
};
pub use report::{Book, Entry, Report};
pub use value::{Channel, Object, Value};
pub use waits::Waits;
