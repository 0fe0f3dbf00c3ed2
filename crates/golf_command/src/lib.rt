//! The whole program, over any source and any two sinks.
//!
//! - `golf`: the top call, which does all that the program does.
//! - `serve`: the same without the right to wait, so it returns; a run by threads it leaves to `golf`.
//! - `arguments`, `on_own_stack`: the words of the process, and a call on a thread whose stack is taken beforehand.
//! - `load`, `turns_by_threads`, `end`: the code of a source, the turns of its run by threads, and a last line with its
//!   status, for other programs.
#![tactic(auto)]

mod ends;
mod generated;
mod meaning;
mod own_stack;
mod process_words;
mod source_file;
mod texts;
mod threads;
mod top;

pub use ends::end;
pub use own_stack::{Ended, on_own_stack};
pub use process_words::arguments;
pub use source_file::load;
pub use threads::turns_by_threads;
pub use top::{Served, golf, serve};
