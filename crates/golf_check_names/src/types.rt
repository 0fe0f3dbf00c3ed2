//! The written types of fields, globals and functions.
//!
//! `types_are_there` checks before that the language has these types, so nothing here reports a fault. A type that is
//! not known is `None`.

ghost use Rattle.std.specs.Prelude.{◌≡◌, ◌++◌, flat_map, IfOk, OnOk};
ghost use Rattle.golf_check_types.specs.Written.{write_at};
ghost use Rattle.golf_check_types.specs.Files.{typed_names as typed_names_of, all_typed_names};
ghost use Rattle.golf_check_types.specs.Files.{types_alone as types_alone_of, struct_types as struct_types_of};
ghost use Rattle.golf_check_types.specs.Files.{content_type as content_type_of, global_types as global_types_of};
ghost use Rattle.golf_check_types.specs.Files.{result_type as result_type_of, signature_of as signature_of_of};
ghost use Rattle.golf_check_types.specs.Files.{function_types as function_types_of};

use golf_base::{List, Memory};
use golf_check_operands::written_type;
use golf_check_types::{GoType, Scope, Signature, copy_name, copy_optional};
use golf_syntax_trees::{Decl, Field, Func, Name, OwnedType, VarContent};
use std::alloc::Global;

/// A name of a field or parameter, and its type. The type is `None` if it is not known.
pub type TypedName = (Name, Option<GoType>);

// Returns a name of a field or parameter with its type.
fn typed_name(alloc: Global, scope: &Scope, name: &[u8], field: &Field) -> Result<TypedName, Memory>
    ensures { IfOk result (λ p. p ≡ (name.now, (write_at 0 scope.now field.now.of_type).type)) }
{
    let copy = copy_name(alloc, name)?;
    let of_type = written_type(alloc, 0, scope, field.of_type.get())?;
    Ok((copy, of_type))
}

// Adds the names of one declaration of fields, each with its type.
fn add_typed_names(
    alloc: Global,
    scope: &Scope,
    names: &mut List<TypedName>,
    field: &Field,
) -> Result<(), Memory>
    ensures { OnOk result (names.new ≡ names.old ++ typed_names_of scope.now field.now) }
{
    names.push(typed_name(alloc, scope, field.first.as_slice(), field)?)?;
    for name in field.more.as_slice() {
        names.push(typed_name(alloc, scope, name.as_slice(), field)?)?;
    }
    Ok(())
}

/// Returns each name of fields or parameters with its type.
pub fn typed_names(
    alloc: Global,
    scope: &Scope,
    fields: &[Field],
) -> Result<List<TypedName>, Memory>
    ensures { IfOk result (λ ps. ps ≡ all_typed_names scope.now fields.now) }
{
    let mut names = List::new(alloc);
    for field in fields {
        add_typed_names(alloc, scope, &mut names, field)?;
    }
    Ok(names)
}

// Returns the types of these names.
fn types_alone(alloc: Global, names: &[TypedName]) -> Result<List<Option<GoType>>, Memory>
    ensures { IfOk result (λ ts. ts ≡ types_alone_of names.now) }
{
    let mut types = List::new(alloc);
    for name in names {
        types.push(copy_optional(alloc, &name.1)?)?;
    }
    Ok(types)
}

// Returns the types of fields or parameters.
fn field_types(
    alloc: Global,
    scope: &Scope,
    fields: &[Field],
) -> Result<List<Option<GoType>>, Memory>
    ensures { IfOk result (λ ts. ts ≡ types_alone_of (all_typed_names scope.now fields.now)) }
{
    let names = typed_names(alloc, scope, fields)?;
    types_alone(alloc, names.as_slice())
}

/// Returns the type of a result, or `None` if there is none or it is not known.
pub fn result_type(
    alloc: Global,
    scope: &Scope,
    t: &Option<OwnedType>,
) -> Result<Option<GoType>, Memory>
    ensures { IfOk result (λ r. r ≡ result_type_of scope.now t.now) }
{
    match t {
        None => Ok(None),
        Some(t) => written_type(alloc, 0, scope, t.get()),
    }
}

// Returns the types of the parameters and of the result.
fn signature_of(alloc: Global, scope: &Scope, func: &Func) -> Result<Signature, Memory>
    ensures { IfOk result (λ f. f ≡ signature_of_of scope.now func.now) }
{
    let parameters = field_types(alloc, scope, func.parameters.as_slice())?;
    let result = result_type(alloc, scope, &func.result)?;
    Ok(Signature { parameters, result })
}

// Adds the types of the fields, if the declaration is a struct.
fn add_struct_types(
    alloc: Global,
    scope: &Scope,
    all: &mut List<List<Option<GoType>>>,
    decl: &Decl,
) -> Result<(), Memory>
    ensures { OnOk result (all.new ≡ all.old ++ struct_types_of scope.now decl.now) }
{
    match decl {
        Decl::Struct(_, _, fields) => {
            let types = field_types(alloc, scope, fields.as_slice())?;
            all.push(types)?;
            Ok(())
        }
        Decl::Const(_, _, _) | Decl::Var(_) | Decl::Func(_) => Ok(()),
    }
}

/// Returns the types of the fields of each struct.
pub fn struct_types(
    alloc: Global,
    scope: &Scope,
    decls: &[Decl],
) -> Result<List<List<Option<GoType>>>, Memory>
    ensures { IfOk result (λ ts. ts ≡ flat_map (struct_types_of scope.now) decls.now) }
{
    let mut all = List::new(alloc);
    for decl in decls {
        add_struct_types(alloc, scope, &mut all, decl)?;
    }
    Ok(all)
}

// Returns the written type of a variable, or `None` if there is none or it is not known.
fn content_type(
    alloc: Global,
    scope: &Scope,
    content: &VarContent,
) -> Result<Option<GoType>, Memory>
    ensures { IfOk result (λ t. t ≡ content_type_of scope.now content.now) }
{
    match content {
        VarContent::Zero(t) => written_type(alloc, 0, scope, t.get()),
        VarContent::Typed(t, _) => written_type(alloc, 0, scope, t.get()),
        VarContent::Untyped(_) => Ok(None),
    }
}

// Adds the written type, if the declaration is a global.
fn add_global_type(
    alloc: Global,
    scope: &Scope,
    all: &mut List<Option<GoType>>,
    decl: &Decl,
) -> Result<(), Memory>
    ensures { OnOk result (all.new ≡ all.old ++ global_types_of scope.now decl.now) }
{
    match decl {
        Decl::Var(var) => {
            let t = content_type(alloc, scope, var.get().content.get())?;
            all.push(t)?;
            Ok(())
        }
        Decl::Const(_, _, _) | Decl::Struct(_, _, _) | Decl::Func(_) => Ok(()),
    }
}

/// Returns the written types of globals. The type is `None` if none is written.
pub fn global_types(
    alloc: Global,
    scope: &Scope,
    decls: &[Decl],
) -> Result<List<Option<GoType>>, Memory>
    ensures { IfOk result (λ ts. ts ≡ flat_map (global_types_of scope.now) decls.now) }
{
    let mut all = List::new(alloc);
    for decl in decls {
        add_global_type(alloc, scope, &mut all, decl)?;
    }
    Ok(all)
}

// Adds the types of parameters and result, if the declaration is a function or method.
fn add_function_type(
    alloc: Global,
    scope: &Scope,
    all: &mut List<Signature>,
    decl: &Decl,
) -> Result<(), Memory>
    ensures { OnOk result (all.new ≡ all.old ++ function_types_of scope.now decl.now) }
{
    match decl {
        Decl::Func(func) => {
            let signature = signature_of(alloc, scope, func)?;
            all.push(signature)?;
            Ok(())
        }
        Decl::Const(_, _, _) | Decl::Var(_) | Decl::Struct(_, _, _) => Ok(()),
    }
}

/// Returns the types of functions and methods.
pub fn function_types(
    alloc: Global,
    scope: &Scope,
    decls: &[Decl],
) -> Result<List<Signature>, Memory>
    ensures { IfOk result (λ fs. fs ≡ flat_map (function_types_of scope.now) decls.now) }
{
    let mut all = List::new(alloc);
    for decl in decls {
        add_function_type(alloc, scope, &mut all, decl)?;
    }
    Ok(all)
}
