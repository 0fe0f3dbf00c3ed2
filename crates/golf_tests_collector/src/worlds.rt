//! Tests of programs that several threads step.

pub mod one_pass;
pub mod plain;
pub mod workers;
