//! The texts of a file: one walk over the tree, in the order in which it is printed, adds them to a
//! table.
#![tactic(auto)]

mod expressions;
mod files;
mod simple;
mod statements;

pub use files::texts_of_decls;
