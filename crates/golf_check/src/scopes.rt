//! The scope outside all functions.
//!
//! It has the names of the file. Their types are added once the names are judged. It has no locals.

ghost use Rattle.std.specs.Prelude.{◌≡◌, IfOk, OnOk};
ghost use Rattle.golf_check_types.specs.Files.{bare_file, with_types, with_forms, outside as outside_of};

use golf_base::Memory;
use golf_check_names::{
    add_methods, form_globals, function_types, global_types, naming_of, struct_types,
};
use golf_check_types::{FileScope, Imports, Locals, Scope};
use golf_syntax_trees::Decl;
use std::alloc::Global;

// Returns the scope outside all functions of a file.
fn outside(alloc: Global, file: FileScope) -> Scope
    ensures { result ≡ outside_of file }
{
    Scope {
        file,
        locals: Locals::new(alloc),
        depth: 0,
        result: None,
        breaks: false,
        loops: false,
        next: 0,
        initialises: None,
    }
}

/// Returns the scope of the names of a file without types.
pub fn bare_scope(alloc: Global, imports: Imports, decls: &[Decl]) -> Result<Scope, Memory>
    ensures { IfOk result (λ s. s ≡ outside_of (bare_file imports decls.now)) }
{
    let mut naming = naming_of(alloc, decls)?;
    add_methods(alloc, &mut naming, decls)?;
    Ok(outside(alloc, naming.into_file_scope(alloc, imports)))
}

// Adds the written types. On `Err` nothing is said of the scope.
fn add_written_types(alloc: Global, scope: &mut Scope, decls: &[Decl]) -> Result<(), Memory>
    requires { scope.old ≡ outside_of scope.old.file }
    ensures { OnOk result (scope.new ≡ outside_of (with_types scope.old.file decls.now)) }
{
    let fields = struct_types(alloc, scope, decls)?;
    let globals = global_types(alloc, scope, decls)?;
    let functions = function_types(alloc, scope, decls)?;
    scope.file.fields = fields;
    scope.file.globals = globals;
    scope.file.functions = functions;
    Ok(())
}

/// Adds the types of fields, globals and functions. On `Err` nothing is said of the scope.
pub fn add_types(alloc: Global, scope: &mut Scope, decls: &[Decl]) -> Result<(), Memory>
    requires { scope.old ≡ outside_of scope.old.file }
    ensures { OnOk result (scope.new ≡ outside_of (with_forms (with_types scope.old.file decls.now) 0 decls.now)) }
{
    add_written_types(alloc, scope, decls)?;
    form_globals(alloc, scope, decls)
}
