//! Tests of files at the limits of the program. The tests make these files.

pub mod depths;
pub mod generated;
pub mod sizes;
