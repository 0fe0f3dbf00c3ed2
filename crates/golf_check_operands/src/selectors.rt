//! Selectors: fields, methods, and members of packages.
//!
//! A package is before the dot, or a value whose type says which names may follow. `select` is the only entry. A
//! selected method is an operand that can only be called.

ghost use Rattle.std.specs.Prelude.{◌≡◌};
ghost use Rattle.golf_check_types.specs.Judgments.{AnswersJudged};
ghost use Rattle.golf_check_types.specs.Expressions.{fmt_member as fmt_member_of, runtime_member as runtime_member_of};
ghost use Rattle.golf_check_types.specs.Expressions.{sync_member as sync_member_of};
ghost use Rattle.golf_check_types.specs.Expressions.{package_member as package_member_of, has_type as has_type_of};
ghost use Rattle.golf_check_types.specs.Expressions.{package_selected as package_selected_of};
ghost use Rattle.golf_check_types.specs.Expressions.{called_name as called_name_of, mutex_method as mutex_method_of};
ghost use Rattle.golf_check_types.specs.Expressions.{group_method as group_method_of, write_method as write_method_of};
ghost use Rattle.golf_check_types.specs.Expressions.{read_method as read_method_of};
ghost use Rattle.golf_check_types.specs.Expressions.{condition_method as condition_method_of};
ghost use Rattle.golf_check_types.specs.Expressions.{condition_member as condition_member_of};
ghost use Rattle.golf_check_types.specs.Expressions.{struct_member as struct_member_of, base_member as base_member_of};
ghost use Rattle.golf_check_types.specs.Expressions.{value_member as value_member_of, selected_from};

use crate::literals::type_of_field;
use crate::operators::{as_value, value};
use crate::written_types::sync_base;
use golf_check_types::rules::{UNKNOWN_NAME, WRONG_OPERAND};
use golf_check_types::{
    Base, BuiltIn, FileScope, Given, Member, Operand, Package, TypeFault, member_at,
};
use std::alloc::Global;

// Returns the function of package fmt of this name, or `None`.
#[tactic(auto, unfolding(golf_check_types::specs::Expressions::fmt_member))]
fn fmt_member(name: &[u8]) -> Option<BuiltIn>
    ensures { result ≡ fmt_member_of name.now }
{
    if name == b"Println".as_slice() {
        return Some(BuiltIn::Print);
    }
    None
}

// Returns the function of package runtime of this name, or `None`.
#[tactic(auto, unfolding(golf_check_types::specs::Expressions::runtime_member))]
fn runtime_member(name: &[u8]) -> Option<BuiltIn>
    ensures { result ≡ runtime_member_of name.now }
{
    if name == b"GC".as_slice() {
        return Some(BuiltIn::Collect);
    }
    if name == b"SetFinalizer".as_slice() {
        return Some(BuiltIn::SetFinalizer);
    }
    None
}

// Returns the function of package sync of this name, or `None`.
#[tactic(auto, unfolding(golf_check_types::specs::Expressions::sync_member))]
fn sync_member(name: &[u8]) -> Option<BuiltIn>
    ensures { result ≡ sync_member_of name.now }
{
    if name == b"NewCond".as_slice() {
        return Some(BuiltIn::NewCondition);
    }
    None
}

// Returns the function of a package of this name, or `None`.
fn package_member(from: Package, name: &[u8]) -> Option<BuiltIn>
    ensures { result ≡ package_member_of from name.now }
{
    match from {
        Package::Fmt => fmt_member(name),
        Package::Runtime => runtime_member(name),
        Package::Sync => sync_member(name),
    }
}

// Returns whether a package has a type of this name.
fn has_type(from: Package, name: &[u8]) -> bool
    ensures { result ≡ has_type_of from name.now }
{
    match from {
        Package::Sync => sync_base(name).is_some(),
        Package::Fmt | Package::Runtime => false,
    }
}

// Returns the operand of a built-in, or reports `UNKNOWN_NAME` if there is none.
fn called_name(line: u32, name: Option<BuiltIn>) -> Result<Operand, TypeFault>
    ensures { AnswersJudged result (called_name_of line name) }
{
    match name {
        None => Err(TypeFault::At {
            line,
            rule: UNKNOWN_NAME,
        }),
        Some(built_in) => Ok(Operand::BuiltIn(built_in)),
    }
}

// Returns a member of a package: a type, which is no value, or a function. It checks `UNKNOWN_NAME`.
fn package_selected(line: u32, from: Package, name: &[u8]) -> Result<Operand, TypeFault>
    ensures { AnswersJudged result (package_selected_of line from name.now) }
{
    if has_type(from, name) {
        return Ok(Operand::TypeName);
    }
    called_name(line, package_member(from, name))
}

// Returns the method of a mutex of this name, or `None`.
#[tactic(auto, unfolding(golf_check_types::specs::Expressions::mutex_method))]
fn mutex_method(name: &[u8]) -> Option<BuiltIn>
    ensures { result ≡ mutex_method_of name.now }
{
    if name == b"Lock".as_slice() {
        return Some(BuiltIn::Lock);
    }
    if name == b"Unlock".as_slice() {
        return Some(BuiltIn::Unlock);
    }
    None
}

// Returns the method of a wait group of this name, or `None`.
#[tactic(auto, unfolding(golf_check_types::specs::Expressions::group_method))]
fn group_method(name: &[u8]) -> Option<BuiltIn>
    ensures { result ≡ group_method_of name.now }
{
    if name == b"Add".as_slice() {
        return Some(BuiltIn::Add);
    }
    if name == b"Done".as_slice() {
        return Some(BuiltIn::Done);
    }
    if name == b"Wait".as_slice() {
        return Some(BuiltIn::WaitGroup);
    }
    None
}

// Returns the method of a reader and writer mutex for a writer, or `None`.
#[tactic(auto, unfolding(golf_check_types::specs::Expressions::write_method))]
fn write_method(name: &[u8]) -> Option<BuiltIn>
    ensures { result ≡ write_method_of name.now }
{
    if name == b"Lock".as_slice() {
        return Some(BuiltIn::WriteLock);
    }
    if name == b"Unlock".as_slice() {
        return Some(BuiltIn::WriteUnlock);
    }
    None
}

// Returns the method of a reader and writer mutex, for readers or for a writer, or `None`.
#[tactic(auto, unfolding(golf_check_types::specs::Expressions::read_method))]
fn read_method(name: &[u8]) -> Option<BuiltIn>
    ensures { result ≡ read_method_of name.now }
{
    if name == b"RLock".as_slice() {
        return Some(BuiltIn::ReadLock);
    }
    if name == b"RUnlock".as_slice() {
        return Some(BuiltIn::ReadUnlock);
    }
    write_method(name)
}

// Returns the method of a condition of this name, or `None`.
#[tactic(auto, unfolding(golf_check_types::specs::Expressions::condition_method))]
fn condition_method(name: &[u8]) -> Option<BuiltIn>
    ensures { result ≡ condition_method_of name.now }
{
    if name == b"Wait".as_slice() {
        return Some(BuiltIn::WaitCondition);
    }
    if name == b"Signal".as_slice() {
        return Some(BuiltIn::Signal);
    }
    if name == b"Broadcast".as_slice() {
        return Some(BuiltIn::Broadcast);
    }
    None
}

// Returns the member of a condition of this name: its mutex, or a method.
#[tactic(auto, unfolding(golf_check_types::specs::Expressions::condition_member))]
fn condition_member(alloc: Global, line: u32, name: &[u8]) -> Result<Operand, TypeFault>
    ensures { AnswersJudged result (condition_member_of line name.now) }
{
    if name == b"L".as_slice() {
        return Ok(value(alloc, Base::Mutex));
    }
    called_name(line, condition_method(name))
}

// Returns a field or method of the struct of this number, if the name is one.
fn struct_member(
    alloc: Global,
    line: u32,
    file: &FileScope,
    number: u32,
    member: Option<Member>,
) -> Result<Operand, TypeFault>
    ensures { AnswersJudged result (struct_member_of line file.now number member) }
{
    match member {
        None => Err(TypeFault::At {
            line,
            rule: UNKNOWN_NAME,
        }),
        Some(member) => match member {
            Member::Field(place) => Ok(Operand::Field(
                place,
                type_of_field(alloc, file, number, place)?,
            )),
            Member::Method(method) => Ok(Operand::Method(method)),
        },
    }
}

// Returns a member of a value whose type has no layers.
fn base_member(
    alloc: Global,
    line: u32,
    file: &FileScope,
    name: &[u8],
    base: Base,
) -> Result<Operand, TypeFault>
    ensures { AnswersJudged result (base_member_of line file.now name.now base) }
{
    match base {
        Base::Pointer(number) => {
            struct_member(alloc, line, file, number, member_at(file, number, name))
        }
        Base::Mutex => called_name(line, mutex_method(name)),
        Base::Group => called_name(line, group_method(name)),
        Base::ReadWriteMutex => called_name(line, read_method(name)),
        Base::Condition => condition_member(alloc, line, name),
        Base::Int | Base::Bool | Base::Text | Base::Unit => Err(TypeFault::At {
            line,
            rule: WRONG_OPERAND,
        }),
    }
}

// Returns a member of a value. A value whose type is not known may have any member.
fn value_member(
    alloc: Global,
    line: u32,
    file: &FileScope,
    name: &[u8],
    given: &Given,
) -> Result<Operand, TypeFault>
    ensures { AnswersJudged result (value_member_of line file.now name.now given.now) }
{
    match given {
        Given::Typed(t) => match t.layers.as_slice() {
            [] => base_member(alloc, line, file, name, t.base),
            [_, ..] => Err(TypeFault::At {
                line,
                rule: WRONG_OPERAND,
            }),
        },
        Given::Nil => Err(TypeFault::At {
            line,
            rule: WRONG_OPERAND,
        }),
        Given::Unknown => Ok(Operand::Unknown),
    }
}

/// Returns the member of a package or a value. It checks `UNKNOWN_NAME`, `WRONG_OPERAND` and `WRONG_USE`.
pub fn select(
    alloc: Global,
    line: u32,
    file: &FileScope,
    name: &[u8],
    operand: Operand,
) -> Result<Operand, TypeFault>
    ensures { AnswersJudged result (selected_from line file.now name.now operand) }
{
    match &operand {
        Operand::Package(from) => package_selected(line, *from, name),
        _ => {
            let given = as_value(alloc, line, operand)?;
            value_member(alloc, line, file, name, &given)
        }
    }
}
