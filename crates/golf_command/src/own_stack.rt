//! A call on a thread whose stack is taken beforehand.
//!
//! A top call recurses into the nesting of a file. The stack of a process grows page by page. If the system
//! refuses a page, or the limit of the stack is small, it kills the process. The stack of this thread is
//! taken whole before anything is read. So a lack of memory for the stack is an answer.

ghost use Rattle.std.specs.Prelude.{IfOk};

use golf_base::Memory;
use golf_run_texts::Status;
use std::thread::{Builder, Promise, Threads};

/// The bytes of the stack: as many as the stack of a process has by default. The deepest nesting that a
/// file may have needs about 2 MB of them.
const STACK: usize = 8 * 1024 * 1024;

/// The status of a call, and its streams after it.
#[derive(Drop)]
pub struct Ended<S, O, E> {
    pub status: Status,
    pub source: S,
    pub out: O,
    pub err: E,
}

/// Makes a call on its own thread, and returns its result, of which the promise holds. The error is `Memory`
/// if the thread cannot be made; then nothing is called.
pub fn on_own_stack<
    R: Threads,
    P: Promise<T> + Drop,
    T: Send + Drop + 'static,
    F: FnOnce() -> T + Send + 'static,
>(rt: &R, promise: P, call: F) -> Result<T, Memory>
    requires runs { F.pre call }
    requires keeps { (r : T) → F.post call r → P.kept_by promise r }
    ensures kept { IfOk result (λ t. P.kept_by promise t) }
{
    match Builder::new()
        .stack_size(STACK)
        .spawn_with(rt, promise, call)
    {
        Ok(thread) => Ok(thread.join(rt)),
        Err(_) => Err(Memory),
    }
}
