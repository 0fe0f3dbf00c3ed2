//! The rules for the names that a file declares, the types that it writes, and its `main`.
//!
//! Each check is one walk over the declarations in source order, before any body. Before these walks, methods are
//! added after the fields of their structs, so that a name that comes twice is found at its second place.

ghost use Rattle.std.specs.Prelude.{◌≡◌, flat_map, slice_get, OnOk, option_and_then};
ghost use Rattle.golf_check_types.specs.Faults.{AnswersOrFault, broken as broken_of};
ghost use Rattle.golf_check_types.specs.Scopes.{meaning_in};
ghost use Rattle.golf_check_types.specs.Names.{number_of, is_number as is_number_of};
ghost use Rattle.golf_check_types.specs.Files.{struct_number as struct_number_of};
ghost use Rattle.golf_check_types.specs.Files.{receiver_struct as receiver_struct_of, with_method, method_added};
ghost use Rattle.golf_check_types.specs.Files.{methods_added, may_be_named as may_be_named_of, kind_of as kind_of_of};
ghost use Rattle.golf_check_types.specs.Files.{is_field as is_field_of, is_method as is_method_of};
ghost use Rattle.golf_check_types.specs.Files.{fields_are as fields_are_of, method_is as method_is_of, function_faults};
ghost use Rattle.golf_check_types.specs.Files.{name_faults, names_faults, none_above, names_in as names_in_of};
ghost use Rattle.golf_check_types.specs.Files.{structs_in as structs_in_of, functions_in as functions_in_of};
ghost use Rattle.golf_check_types.specs.Files.{field_fault, content_faults, result_fault, type_faults};
ghost use Rattle.golf_check_types.specs.Files.{is_main as is_main_of, fits_main as fits_main_of};
ghost use Rattle.golf_check_types.specs.Files.{declares_main as declares_main_of, line_of as line_of_of, main_faults};

use crate::names::names_of;
use golf_base::{List, Memory};
use golf_check_operands::type_is_there;
use golf_check_types::rules::{NO_MAIN, NOT_DECLARABLE, WRONG_MEMBER};
use golf_check_types::{
    Entity, FileScope, Member, Members, Naming, Scope, Table, TypeFault, is_blank, is_reserved,
    kind_at, require,
};
use golf_syntax_trees::{Decl, Field, Func, Name, OwnedType, Receiver, VarContent};
use std::alloc::Global;

// Returns the number of the struct of the file with this name, or `None`.
fn struct_named(names: &Table, entities: &[Entity], name: &[u8]) -> Option<u32>
    ensures { result ≡ struct_number_of (option_and_then (slice_get entities.now) (number_of names.now name.now)) }
{
    match names.number_of(name) {
        None => None,
        Some(number) => match entities.get(number) {
            None => None,
            Some(meaning) => match meaning {
                Entity::Struct(number) => Some(*number),
                _ => None,
            },
        },
    }
}

// Returns the struct of the file to which a receiver points, or `None`.
fn receiver_struct(naming: &Naming, receiver: &Option<Receiver>) -> Option<u32>
    ensures { result ≡ receiver_struct_of naming.now receiver.now }
{
    match receiver {
        None => None,
        Some(receiver) => struct_named(
            &naming.names,
            naming.entities.as_slice(),
            receiver.type_name.as_slice(),
        ),
    }
}

// Adds a method of this number after the present members.
fn add_method(alloc: Global, members: &mut Members, name: &[u8], number: u32) -> Result<(), Memory>
    ensures { OnOk result (members.new ≡ with_method members.old name.now number) }
{
    let place = members.kinds.len();
    members.names.add(alloc, name, place)?;
    members.kinds.push(Member::Method(number))?;
    Ok(())
}

// Adds a method to the struct that owns it, if there is one.
fn put_method(
    alloc: Global,
    structs: &mut List<Members>,
    owner: Option<u32>,
    name: &[u8],
    number: u32,
) -> Result<(), Memory>
    ensures { OnOk result (structs.new ≡ method_added structs.old owner name.now number) }
{
    let Some(owner) = owner else {
        return Ok(());
    };
    let place = owner as usize;
    if place < structs.len() {
        add_method(alloc, structs.item_mut(place), name, number)?;
    }
    Ok(())
}

/// Adds the methods after the fields of their structs. On `Err` nothing is said of the names.
pub fn add_methods(alloc: Global, naming: &mut Naming, decls: &[Decl]) -> Result<(), Memory>
    ensures { OnOk result (naming.new ≡ record naming.old { structs = methods_added naming.old 0 naming.old.structs decls.now }) }
{
    let mut number = 0u32;
    for decl in decls {
        if let Decl::Func(func) = decl {
            let owner = receiver_struct(naming, &func.receiver);
            put_method(
                alloc,
                &mut naming.structs,
                owner,
                func.name.as_slice(),
                number,
            )?;
            number = number.checked_add(1).ok_or(Memory)?;
        }
    }
    Ok(())
}

// Returns whether a name was found at this number.
fn is_number(found: Option<usize>, number: usize) -> bool
    ensures { result ≡ is_number_of found number }
{
    match found {
        None => false,
        Some(found) => found == number,
    }
}

// Returns whether the declaration at this place may have the name: it must be the first of that name.
#[tactic(auto, unfolding(golf_check_types::specs::Files::may_be_named))]
fn may_be_named(file: &FileScope, at: usize, name: &[u8]) -> bool
    ensures { result ≡ may_be_named_of file.now at name.now }
{
    !is_blank(name) && !is_reserved(name) && is_number(file.names.number_of(name), at)
}

// Returns the kind of a name among the members of the struct of this number, or `None`.
fn kind_of(structs: &[Members], number: usize, name: &[u8]) -> Option<Member>
    ensures { result ≡ kind_of_of structs.now number name.now }
{
    match structs.get(number) {
        None => None,
        Some(members) => kind_at(members, name),
    }
}

// Returns whether a member is the field at this place.
fn is_field(kind: Option<Member>, place: usize) -> bool
    ensures { result ≡ is_field_of kind place }
{
    match kind {
        None => false,
        Some(kind) => match kind {
            Member::Field(found) => found as usize == place,
            Member::Method(_) => false,
        },
    }
}

// Returns whether a member is the method of this number.
fn is_method(kind: Option<Member>, number: u32) -> bool
    ensures { result ≡ is_method_of kind number }
{
    match kind {
        None => false,
        Some(kind) => match kind {
            Member::Field(_) => false,
            Member::Method(found) => found == number,
        },
    }
}

// Returns whether each name is the field of its own place.
fn fields_are(structs: &[Members], number: usize, names: &[Name]) -> bool
    ensures { result ≡ fields_are_of structs.now number 0 names.now }
{
    for (i, name) in names.iter().enumerate() {
        if !is_field(kind_of(structs, number, name.as_slice()), i) {
            return false;
        }
    }
    true
}

// Returns whether the name is this method in the struct that owns it.
fn method_is(structs: &[Members], owner: Option<u32>, name: &[u8], number: u32) -> bool
    ensures { result ≡ method_is_of structs.now owner name.now number }
{
    match owner {
        None => false,
        Some(owner) => is_method(kind_of(structs, owner as usize, name), number),
    }
}

// Checks that a method has a struct of the file and a name that is new to it.
fn method_is_named(
    file: &FileScope,
    line: u32,
    receiver: &Receiver,
    name: &[u8],
    number: u32,
) -> Result<(), TypeFault>
    ensures { AnswersOrFault result (broken_of line WRONG_MEMBER (method_is_of file.now.structs (struct_number_of (meaning_in file.now receiver.now.type_name)) name.now number)) (λ _. Unit {0}) }
{
    let owner = struct_named(
        &file.names,
        file.entities.as_slice(),
        receiver.type_name.as_slice(),
    );
    require(
        line,
        WRONG_MEMBER,
        method_is(file.structs.as_slice(), owner, name, number),
    )
}

// Checks that a function or method may have its name.
fn function_is_named(
    file: &FileScope,
    names: usize,
    number: u32,
    func: &Func,
) -> Result<(), TypeFault>
    ensures { AnswersOrFault result (function_faults file.now (record { names = names; structs = 0; functions = number }) func.now func.now.receiver) (λ _. Unit {0}) }
{
    let name = func.name.as_slice();
    match &func.receiver {
        None => require(
            func.line,
            NOT_DECLARABLE,
            may_be_named(file, names, name) && name != b"init".as_slice(),
        ),
        Some(receiver) => method_is_named(file, func.line, receiver, name, number),
    }
}

// Checks that a struct may have its name, and that it has at most 64 fields of different names.
fn struct_is_named(
    alloc: Global,
    file: &FileScope,
    line: u32,
    names: usize,
    number: usize,
    name: &[u8],
    fields: &[Field],
) -> Result<(), TypeFault>
    ensures { AnswersOrFault result (name_faults file.now (record { names = names; structs = number; functions = 0 }) (Decl.Struct line name.now fields.now)) (λ _. Unit {0}) }
{
    require(line, NOT_DECLARABLE, may_be_named(file, names, name))?;
    let all = names_of(alloc, fields)?;
    require(
        line,
        WRONG_MEMBER,
        fields_are(file.structs.as_slice(), number, all.as_slice()) && all.len() <= 64,
    )
}

// Checks that a declaration may have its names. The numbers say how many names, structs and functions are above it.
fn is_named(
    alloc: Global,
    file: &FileScope,
    names: usize,
    structs: usize,
    functions: u32,
    decl: &Decl,
) -> Result<(), TypeFault>
    ensures { AnswersOrFault result (name_faults file.now (record { names = names; structs = structs; functions = functions }) decl.now) (λ _. Unit {0}) }
{
    match decl {
        Decl::Const(line, name, _) => {
            require(
                *line,
                NOT_DECLARABLE,
                may_be_named(file, names, name.as_slice()),
            )
        }
        Decl::Var(var) => require(
            var.get().line,
            NOT_DECLARABLE,
            may_be_named(file, names, var.get().name.as_slice()),
        ),
        Decl::Struct(line, name, fields) => struct_is_named(
            alloc,
            file,
            *line,
            names,
            structs,
            name.as_slice(),
            fields.as_slice(),
        ),
        Decl::Func(func) => function_is_named(file, names, functions, func),
    }
}

// Returns how many names of the file a declaration has. A method has none.
fn names_in(decl: &Decl) -> usize
    ensures { result ≡ names_in_of decl.now }
{
    match decl {
        Decl::Const(_, _, _) | Decl::Var(_) | Decl::Struct(_, _, _) => 1,
        Decl::Func(func) => match func.receiver {
            None => 1,
            Some(_) => 0,
        },
    }
}

// Returns how many structs a declaration has: one or none.
fn structs_in(decl: &Decl) -> usize
    ensures { result ≡ structs_in_of decl.now }
{
    match decl {
        Decl::Struct(_, _, _) => 1,
        Decl::Const(_, _, _) | Decl::Var(_) | Decl::Func(_) => 0,
    }
}

// Returns how many functions or methods a declaration has: one or none.
fn functions_in(decl: &Decl) -> u32
    ensures { result ≡ functions_in_of decl.now }
{
    match decl {
        Decl::Func(_) => 1,
        Decl::Const(_, _, _) | Decl::Var(_) | Decl::Struct(_, _, _) => 0,
    }
}

/// Checks the declared names: `NOT_DECLARABLE` and `WRONG_MEMBER`.
pub fn names_are_good(alloc: Global, file: &FileScope, decls: &[Decl]) -> Result<(), TypeFault>
    ensures { AnswersOrFault result (names_faults file.now none_above decls.now) (λ _. Unit {0}) }
{
    let mut names = 0usize;
    let mut structs = 0usize;
    let mut functions = 0u32;
    for decl in decls {
        is_named(alloc, file, names, structs, functions, decl)?;
        names = names.checked_add(names_in(decl)).ok_or(Memory)?;
        structs = structs.checked_add(structs_in(decl)).ok_or(Memory)?;
        functions = functions.checked_add(functions_in(decl)).ok_or(Memory)?;
    }
    Ok(())
}

// Checks that the language has the types of fields or parameters.
fn fields_are_typed(
    alloc: Global,
    line: u32,
    scope: &Scope,
    fields: &[Field],
) -> Result<(), TypeFault>
    ensures { AnswersOrFault result (flat_map (field_fault line scope.now) fields.now) (λ _. Unit {0}) }
{
    for field in fields {
        type_is_there(alloc, line, scope, field.of_type.get())?;
    }
    Ok(())
}

// Checks that the language has the written type of a variable, if there is one.
fn content_is_typed(
    alloc: Global,
    line: u32,
    scope: &Scope,
    content: &VarContent,
) -> Result<(), TypeFault>
    ensures { AnswersOrFault result (content_faults line scope.now content.now) (λ _. Unit {0}) }
{
    match content {
        VarContent::Zero(t) => type_is_there(alloc, line, scope, t.get()),
        VarContent::Typed(t, _) => type_is_there(alloc, line, scope, t.get()),
        VarContent::Untyped(_) => Ok(()),
    }
}

// Checks that the language has the written type of a result, if there is one.
fn result_is_typed(
    alloc: Global,
    line: u32,
    scope: &Scope,
    t: &Option<OwnedType>,
) -> Result<(), TypeFault>
    ensures { AnswersOrFault result (result_fault line scope.now t.now) (λ _. Unit {0}) }
{
    match t {
        None => Ok(()),
        Some(t) => type_is_there(alloc, line, scope, t.get()),
    }
}

// Checks that the language has the types of parameters and result.
fn func_is_typed(alloc: Global, scope: &Scope, func: &Func) -> Result<(), TypeFault>
    ensures { AnswersOrFault result (type_faults scope.now (Decl.Func func.now)) (λ _. Unit {0}) }
{
    fields_are_typed(alloc, func.line, scope, func.parameters.as_slice())?;
    result_is_typed(alloc, func.line, scope, &func.result)
}

// Checks that the language has all types that a declaration writes outside bodies.
fn decl_is_typed(alloc: Global, scope: &Scope, decl: &Decl) -> Result<(), TypeFault>
    ensures { AnswersOrFault result (type_faults scope.now decl.now) (λ _. Unit {0}) }
{
    match decl {
        Decl::Const(_, _, _) => Ok(()),
        Decl::Var(var) => content_is_typed(alloc, var.get().line, scope, var.get().content.get()),
        Decl::Struct(line, _, fields) => fields_are_typed(alloc, *line, scope, fields.as_slice()),
        Decl::Func(func) => func_is_typed(alloc, scope, func),
    }
}

/// Checks the written types: `UNKNOWN_NAME` and `UNKNOWN_TYPE`.
pub fn types_are_there(alloc: Global, scope: &Scope, decls: &[Decl]) -> Result<(), TypeFault>
    ensures { AnswersOrFault result (flat_map (type_faults scope.now) decls.now) (λ _. Unit {0}) }
{
    for decl in decls {
        decl_is_typed(alloc, scope, decl)?;
    }
    Ok(())
}

// Returns whether a name is `main`.
#[tactic(auto, unfolding(golf_check_types::specs::Files::is_main))]
fn is_main(name: &[u8]) -> bool
    ensures { result ≡ is_main_of name.now }
{
    name == b"main".as_slice()
}

// Returns whether a declaration is a function without receiver, parameters and result.
fn fits_main(decl: &Decl) -> bool
    ensures { result ≡ fits_main_of decl.now }
{
    match decl {
        Decl::Func(func) => {
            func.receiver.is_none() && func.parameters.is_empty() && func.result.is_none()
        }
        _ => false,
    }
}

/// Returns whether a declaration declares `main`.
pub fn declares_main(decl: &Decl) -> bool
    ensures { result ≡ declares_main_of decl.now }
{
    match decl {
        Decl::Const(_, name, _) => is_main(name.as_slice()),
        Decl::Var(var) => is_main(var.get().name.as_slice()),
        Decl::Struct(_, name, _) => is_main(name.as_slice()),
        Decl::Func(func) => func.receiver.is_none() && is_main(func.name.as_slice()),
    }
}

/// Returns the line of a declaration.
pub fn line_of(decl: &Decl) -> u32
    ensures { result ≡ line_of_of decl.now }
{
    match decl {
        Decl::Const(line, _, _) => *line,
        Decl::Var(var) => var.get().line,
        Decl::Struct(line, _, _) => *line,
        Decl::Func(func) => func.line,
    }
}

/// Checks `main`: `NO_MAIN`. Without a `main` the fault is on line 1.
pub fn main_is_there(decls: &[Decl]) -> Result<(), TypeFault>
    ensures { AnswersOrFault result (main_faults decls.now) (λ _. Unit {0}) }
{
    for decl in decls {
        if declares_main(decl) {
            return require(line_of(decl), NO_MAIN, fits_main(decl));
        }
    }
    Err(TypeFault::At {
        line: 1,
        rule: NO_MAIN,
    })
}
