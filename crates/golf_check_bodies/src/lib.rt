//! The checker of bodies: whether expressions and statements keep the rules of types, and the facts of their parts.
//!
//! It runs on the bodies of functions and on the initialisers of globals, when the names of the file are known. The
//! main word is `Checker`: each of its methods walks over one construct, in the order of the walk.
#![tactic(auto)]

mod checker;
mod expressions;
mod facts;
mod statements;

pub use checker::{Checker, is_nil};
pub use statements::endings::all_ending;
