//! The walks over a file before any body is judged: imports, declared names, written types, `main`, and the types of
//! globals by the forms of their initialisers.
//!
//! After them the scope outside all functions is complete: what the names of the file are, and which types they have.
#![tactic(auto)]

mod declared;
mod forms;
mod globals;
mod imports;
mod names;
mod types;

pub use declared::{
    add_methods, declares_main, line_of, main_is_there, names_are_good, types_are_there,
};
pub use globals::{form_globals, next_global};
pub use imports::imported;
pub use names::naming_of;
pub use types::{TypedName, function_types, global_types, result_type, struct_types, typed_names};
