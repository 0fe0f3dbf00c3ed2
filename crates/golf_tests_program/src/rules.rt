//! Tests of the rules of the language and of this runtime, and of refused files.

pub mod finalisers;
pub mod language;
pub mod panics;
pub mod refusals;
pub mod slots;
