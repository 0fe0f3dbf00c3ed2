//! Reads a file from its tokens.
//!
//! `specs/` defines by the first tokens as what imports and declarations are read. By `laws` the
//! reader agrees with the grammar. A construct that is found is well formed and printed there. A
//! construct that is printed is found, if the token that ends it follows.
#![tactic(auto)]

mod constants;
mod declarations;
mod fields;
mod imports;
mod laws;
mod parser;

pub use declarations::decl_at;
pub use imports::import_at;
pub use laws::{
    declarations_found, declarations_read, imports_found, imports_read, one_reads, one_tree,
};
pub use parser::{SyntaxFault, parse};
