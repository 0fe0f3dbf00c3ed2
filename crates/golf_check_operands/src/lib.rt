//! Judgments of operands, operators, names, literals, selectors and calls.
//!
//! Nothing here looks into a tree. The checker of bodies (`golf_check_bodies`) finds the operands, and asks here what
//! is made of them. Each call returns the first broken rule of its construct, in the order of the walk.
#![tactic(auto)]

mod calls;
mod literals;
mod operators;
mod selectors;
mod values;
mod written_types;

pub use calls::{built_in_result, call, finalises, keeps_steady, rule_unless, sets_finaliser};
pub use literals::{
    all_fit, elements_fit, field_place, fields_differ, int_value, made, made_sized, made_struct,
    named, struct_of,
};
pub use operators::{
    binary, index, is_name, is_value, late, result_base, unary, value, without_package,
};
pub use selectors::select;
pub use values::{
    assignable, assignable_to, begins_channel, begins_slice, can_give, can_take, element, has_any,
    has_base, has_channel,
};
pub use written_types::{
    made_base, made_sync, plain_type, pointer_to, type_is_there, written, written_type,
};
