//! The results of the analysis of terminating statements.
//!
//! `golf_check_bodies/src/statements/endings.rt` computes them for a tree, as `specs/Endings.antt` defines them.

/// Whether an expression is the name `panic`, and whether it is a call of that name.
#[derive(Clone, Copy, Debug, PartialEq, Eq)]
pub struct Panics {
    pub named: bool,
    pub called: bool,
}

/// Whether a statement is terminating, and whether it has a `break` that leaves the statement
/// around it.
#[derive(Clone, Copy, Debug, PartialEq, Eq)]
pub struct Terminates {
    pub ends: bool,
    pub breaks: bool,
}
