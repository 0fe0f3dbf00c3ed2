//! Written types (Go specification, "Types").
//!
//! `written_type` returns the type, `type_is_there` checks that the language has it, and `written` does both. A type
//! that the language does not have is `None`, and a value of it has no type.

ghost use Rattle.std.specs.Prelude.{◌≡◌, IfOk, option_map};
ghost use Rattle.golf_check_types.specs.Faults.{AnswersOrFault};
ghost use Rattle.golf_check_types.specs.Types.{plain as plain_of};
ghost use Rattle.golf_check_types.specs.Written.{named_base as named_base_of, made_base as made_base_of};
ghost use Rattle.golf_check_types.specs.Written.{sync_base as sync_base_of, pointer_to as pointer_to_of, of_sync};
ghost use Rattle.golf_check_types.specs.Written.{write};
ghost use Rattle.golf_check_types.specs.Expressions.{made_sync as made_sync_of};
ghost use Rattle.golf_check_types.specs.Judgments.{AnswersJudged};

use golf_base::Memory;
use golf_check_types::rules::{UNKNOWN_NAME, UNKNOWN_TYPE};
use golf_check_types::{
    Base, GoType, Layer, Operand, Scope, TypeFault, meaning_at, plain, require, with_layer,
};
use golf_syntax_trees::TypeExpr;
use std::alloc::Global;

// Returns the base of a predeclared type name, or `None`.
#[tactic(auto, unfolding(golf_check_types::specs::Written::named_base))]
fn named_base(name: &[u8]) -> Option<Base>
    ensures { result ≡ named_base_of name.now }
{
    if name == b"int".as_slice() {
        return Some(Base::Int);
    }
    if name == b"bool".as_slice() {
        return Some(Base::Bool);
    }
    if name == b"string".as_slice() {
        return Some(Base::Text);
    }
    None
}

/// Returns the type of package sync of this name that `new` makes, or `None`.
#[tactic(auto, unfolding(golf_check_types::specs::Written::made_base))]
pub fn made_base(name: &[u8]) -> Option<Base>
    ensures { result ≡ made_base_of name.now }
{
    if name == b"Mutex".as_slice() {
        return Some(Base::Mutex);
    }
    if name == b"WaitGroup".as_slice() {
        return Some(Base::Group);
    }
    if name == b"RWMutex".as_slice() {
        return Some(Base::ReadWriteMutex);
    }
    None
}

/// Returns the type of package sync of this name, or `None`.
#[tactic(auto, unfolding(golf_check_types::specs::Written::sync_base))]
pub fn sync_base(name: &[u8]) -> Option<Base>
    ensures { result ≡ sync_base_of name.now }
{
    if name == b"Cond".as_slice() {
        return Some(Base::Condition);
    }
    made_base(name)
}

/// Returns the pointer to a struct of the file, or `None` if the name means no struct.
pub fn pointer_to(meaning: Option<Operand>) -> Option<Base>
    ensures { result ≡ pointer_to_of meaning }
{
    match meaning {
        None => None,
        Some(operand) => match &operand {
            Operand::Struct(number) => Some(Base::Pointer(*number)),
            _ => None,
        },
    }
}

/// Returns a type without layers, if there is a base.
pub fn plain_type(alloc: Global, base: Option<Base>) -> Option<GoType>
    ensures { result ≡ option_map plain_of base }
{
    match base {
        None => None,
        Some(base) => Some(plain(alloc, base)),
    }
}

/// Returns the written type, or `None` if the language does not have it.
#[tactic(auto, unfolding(golf_check_types::specs::Written::write))]
pub fn written_type(
    alloc: Global,
    line: u32,
    scope: &Scope,
    t: &TypeExpr,
) -> Result<Option<GoType>, Memory>
    ensures { IfOk result (λ r. r ≡ (write t.now line scope.now).type) }
{
    match t {
        TypeExpr::Named(name) => Ok(plain_type(alloc, named_base(name.as_slice()))),
        TypeExpr::Pointer(name) => {
            let meaning = meaning_at(alloc, scope, name.as_slice())?;
            Ok(plain_type(alloc, pointer_to(meaning)))
        }
        TypeExpr::SyncPointer(name) => Ok(plain_type(alloc, sync_base(name.as_slice()))),
        TypeExpr::Slice(t) => with_layer(
            alloc,
            Layer::Slice,
            written_type(alloc, line, scope, t.get())?,
        ),
        TypeExpr::Chan(t) => with_layer(
            alloc,
            Layer::Chan,
            written_type(alloc, line, scope, t.get())?,
        ),
        TypeExpr::SendChan(t) => with_layer(
            alloc,
            Layer::SendChan,
            written_type(alloc, line, scope, t.get())?,
        ),
        TypeExpr::ReceiveChan(t) => with_layer(
            alloc,
            Layer::ReceiveChan,
            written_type(alloc, line, scope, t.get())?,
        ),
        TypeExpr::EmptyStruct => Ok(Some(plain(alloc, Base::Unit))),
    }
}

// Checks that package sync is imported and has such a type.
fn sync_type_is_there(line: u32, imported: bool, base: Option<Base>) -> Result<(), TypeFault>
    ensures { AnswersOrFault result (of_sync line imported base).faults (λ _. Unit {0}) }
{
    require(line, UNKNOWN_NAME, imported)?;
    require(line, UNKNOWN_TYPE, base.is_some())
}

/// Checks that the language has a written type: `UNKNOWN_NAME` and `UNKNOWN_TYPE`.
#[tactic(auto, unfolding(golf_check_types::specs::Written::write))]
pub fn type_is_there(alloc: Global, line: u32, scope: &Scope, t: &TypeExpr) -> Result<(), TypeFault>
    ensures { AnswersOrFault result (write t.now line scope.now).faults (λ _. Unit {0}) }
{
    match t {
        TypeExpr::Named(name) => require(line, UNKNOWN_TYPE, named_base(name.as_slice()).is_some()),
        TypeExpr::Pointer(name) => {
            let meaning = meaning_at(alloc, scope, name.as_slice())?;
            require(line, UNKNOWN_TYPE, pointer_to(meaning).is_some())
        }
        TypeExpr::SyncPointer(name) => sync_type_is_there(
            line,
            scope.file.imports.sync,
            sync_base(name.as_slice()),
        ),
        TypeExpr::Slice(t) => type_is_there(alloc, line, scope, t.get()),
        TypeExpr::Chan(t) => type_is_there(alloc, line, scope, t.get()),
        TypeExpr::SendChan(t) => type_is_there(alloc, line, scope, t.get()),
        TypeExpr::ReceiveChan(t) => type_is_there(alloc, line, scope, t.get()),
        TypeExpr::EmptyStruct => Ok(()),
    }
}

/// Returns the written type. It checks `UNKNOWN_NAME` and `UNKNOWN_TYPE`.
pub fn written(
    alloc: Global,
    line: u32,
    scope: &Scope,
    t: &TypeExpr,
) -> Result<Option<GoType>, TypeFault>
    ensures { AnswersOrFault result (write t.now line scope.now).faults (λ r. r ≡ (write t.now line scope.now).type) }
{
    type_is_there(alloc, line, scope, t)?;
    Ok(written_type(alloc, line, scope, t)?)
}

/// Returns what `&sync.T{}` and `new(sync.T)` give. It checks that package sync is imported and has the type.
pub fn made_sync(alloc: Global, line: u32, scope: &Scope, name: &[u8]) -> Result<Operand, TypeFault>
    ensures { AnswersJudged result (made_sync_of line scope.now name.now) }
{
    let base = made_base(name);
    sync_type_is_there(line, scope.file.imports.sync, base)?;
    Ok(Operand::Value(plain_type(alloc, base)))
}
