//! The types of globals without a written type.
//!
//! They are computed before any body is judged, since a function may use a global that is declared below it. Each such
//! global has the type of the form of its initialiser, computed with the types of the globals above it.

ghost use Rattle.std.specs.Prelude.{◌≡◌, slice_set, IfOk, OnOk};
ghost use Rattle.golf_check_types.specs.Types.{type_given};
ghost use Rattle.golf_check_types.specs.Expressions.{given_by};
ghost use Rattle.golf_check_types.specs.Judgments.{judge};
ghost use Rattle.golf_check_types.specs.Files.{outside, formed_content, globals_above, with_forms};
ghost use Rattle.golf_check_names.specs.Forms.{formed_decl};

use crate::forms::form;
use golf_base::Memory;
use golf_check_types::{GoType, Scope, type_of};
use golf_syntax_trees::{Decl, Expr, VarContent};
use std::alloc::Global;

// Returns the type of an expression by its form, or `None` if it has none.
#[tactic(auto, using(crate::proofs::Laws::same_given, crate::proofs::Laws::type_of_given))]
fn form_type(alloc: Global, line: u32, scope: &Scope, e: &Expr) -> Result<Option<GoType>, Memory>
    ensures { IfOk result (λ t. t ≡ type_given (given_by (judge e.now line scope.now))) }
{
    let operand = form(alloc, line, scope, e)?;
    type_of(alloc, &operand)
}

// Gives the global of this number this type, if there is such a global.
#[tactic(auto, using(crate::proofs::Laws::set_past))]
fn set_global(scope: &mut Scope, global: u32, t: Option<GoType>)
    ensures { scope.new ≡ record scope.old { file = record scope.old.file { globals = slice_set scope.old.file.globals global t } } }
{
    let place = global as usize;
    if place < scope.file.globals.len() {
        scope.file.globals.set(place, t);
    }
}

// Gives the global of this number the type of its initialiser's form, if it has no written type.
fn form_content(
    alloc: Global,
    line: u32,
    scope: &mut Scope,
    global: u32,
    content: &VarContent,
) -> Result<(), Memory>
    requires { scope.old ≡ outside scope.old.file }
    ensures { OnOk result (scope.new ≡ outside (formed_content scope.old.file line global content.now)) }
{
    match content {
        VarContent::Untyped(e) => {
            let t = form_type(alloc, line, scope, e.get())?;
            set_global(scope, global, t);
            Ok(())
        }
        VarContent::Zero(_) | VarContent::Typed(_, _) => Ok(()),
    }
}

// Does the same for a declaration. `global` is the number of globals above it.
fn form_decl(alloc: Global, scope: &mut Scope, global: u32, decl: &Decl) -> Result<(), Memory>
    requires { scope.old ≡ outside scope.old.file }
    ensures { OnOk result (scope.new ≡ outside (formed_decl scope.old.file global decl.now)) }
{
    match decl {
        Decl::Var(var) => {
            let var = var.get();
            form_content(alloc, var.line, scope, global, var.content.get())
        }
        Decl::Const(_, _, _) | Decl::Struct(_, _, _) | Decl::Func(_) => Ok(()),
    }
}

/// Returns how many globals are above the next declaration.
pub fn next_global(global: u32, decl: &Decl) -> Result<u32, Memory>
    ensures { IfOk result (λ n. n ≡ globals_above global decl.now) }
{
    match decl {
        Decl::Var(_) => global.checked_add(1).ok_or(Memory),
        Decl::Const(_, _, _) | Decl::Struct(_, _, _) | Decl::Func(_) => Ok(global),
    }
}

/// Gives globals without a written type the types of their initialisers' forms. On `Err` nothing is said of the scope.
#[tactic(auto, using(crate::proofs::Laws::with_forms_step))]
pub fn form_globals(alloc: Global, scope: &mut Scope, decls: &[Decl]) -> Result<(), Memory>
    requires { scope.old ≡ outside scope.old.file }
    ensures { OnOk result (scope.new ≡ outside (with_forms scope.old.file 0 decls.now)) }
{
    let mut global = 0u32;
    for decl in decls {
        form_decl(alloc, scope, global, decl)?;
        global = next_global(global, decl)?;
    }
    Ok(())
}
