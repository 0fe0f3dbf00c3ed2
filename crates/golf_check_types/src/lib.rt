//! Types, operands, scopes and facts, and the definitions of the rules of names and types.
//!
//! `specs/` defines which rules a file breaks, from a written type (`Written`) to a whole file (`Files`). The crates
//! above judge by these definitions; the generator reads the facts.
#![tactic(auto)]

mod assigned;
mod endings;
mod facts;
mod fault;
mod locals;
mod operands;
pub mod rules;
mod scopes;
mod table;
mod types;

pub use assigned::{assigned_name, is_new};
pub use endings::{Panics, Terminates};
pub use facts::Fact;
pub use fault::{TypeFault, require};
pub use locals::{Local, Locals};
pub use operands::{
    BuiltIn, Given, Operand, Package, Signature, Where, copy_operand, given_type, type_of, value_of,
};
pub use scopes::{
    Entity, FileScope, Imports, Member, Members, Naming, Scope, begin, copy_name, declare, end,
    hide, is_blank, is_here, is_reserved, kind_at, may_be_declared, meaning_at, member_at, type_at,
};
pub use table::Table;
pub use types::{
    Base, GoType, Layer, copy_optional, plain, same_base, same_layers, same_type, with_layer,
};
