//! The writer: the code so far, the tables that it looks up, and the facts that are still to be
//! used.

use crate::facts::Facts;
use golf_base::List;
use golf_code_layout::Emitted;
use golf_code_of::{Making, Tables};
use std::alloc::Global;

/// The code so far, and the tables that it looks up.
#[derive(Drop)]
pub struct Draft<'a> {
    /// Texts and constants by their numbers.
    pub tables: &'a Tables,
    pub emitted: List<Emitted>,
    /// The functions to be made for `go` and `defer`.
    pub made: List<Making>,
    /// The number of functions before the next one that is made.
    pub functions: u32,
    pub alloc: Global,
}

/// The code so far, and the facts that are still to be used.
#[derive(Drop)]
pub struct Writer<'a> {
    pub facts: Facts<'a>,
    pub draft: Draft<'a>,
}
