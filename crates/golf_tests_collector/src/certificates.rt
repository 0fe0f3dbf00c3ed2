//! Tests of certificates and of reasons.

pub mod reasons;
pub mod verdicts;
