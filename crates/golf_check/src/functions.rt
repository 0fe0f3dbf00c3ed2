//! The check of functions and methods.
//!
//! Receiver and parameters take the first slots, and the body takes the slots after them. After a function the scope is
//! again the one outside all functions.

ghost use Rattle.std.specs.Prelude.{◌≡◌, [], map, IfOk, OnOk};
ghost use Rattle.golf_check_types.specs.Faults.{AnswersOrFault};
ghost use Rattle.golf_check_types.specs.Statements.{behind, in_order};
ghost use Rattle.golf_check_types.specs.Files.{parameter as parameter_of, parameter_walk, end_faults, func_walk};
ghost use Rattle.golf_check_types.specs.Files.{outside as outside_of};
ghost use Rattle.golf_check_bodies.specs.CheckerClauses.{Walks};
ghost use Rattle.golf_check.specs.Heads.{receiver_name as receiver_name_of};
ghost use Rattle.golf_check.specs.Heads.{optional_parameter as optional_parameter_of, body_walks, inner_walks};
ghost use Rattle.golf_check.specs.Heads.{head_walks, arguments as arguments_of, function_walked, Counts, Stays};

use golf_base::Memory;
use golf_check_bodies::{Checker, all_ending};
use golf_check_names::{TypedName, result_type, typed_names};
use golf_check_operands::{plain_type, pointer_to};
use golf_check_types::rules::{NOT_DECLARABLE, NOT_TERMINATING};
use golf_check_types::{
    Fact, GoType, Scope, TypeFault, copy_name, copy_optional, declare, may_be_declared, meaning_at,
    require,
};
use golf_syntax_trees::{Func, Receiver};
use std::alloc::Global;

// Walks over a receiver or parameter. It has no fact.
fn parameter(
    checker: &mut Checker,
    line: u32,
    name: &[u8],
    t: Option<GoType>,
) -> Result<(), TypeFault>
    ensures { Walks result (parameter_of line t name.now checker.old.scope) checker.old checker.new }
{
    require(line, NOT_DECLARABLE, may_be_declared(&checker.scope, name))?;
    declare(checker.alloc, &mut checker.scope, name, t)?;
    Ok(())
}

// Walks over a receiver or parameter with its type.
fn typed_parameter(checker: &mut Checker, line: u32, named: &TypedName) -> Result<(), TypeFault>
    ensures { Walks result (parameter_walk line named.now checker.old.scope) checker.old checker.new }
{
    let t = copy_optional(checker.alloc, &named.1)?;
    parameter(checker, line, named.0.as_slice(), t)
}

// Walks over a receiver, if there is one.
#[tactic(auto, using(golf_check_types::proofs::WalkLaws::stays))]
fn optional_parameter(
    checker: &mut Checker,
    line: u32,
    named: &Option<TypedName>,
) -> Result<(), TypeFault>
    ensures { Walks result (optional_parameter_of line named.now checker.old.scope) checker.old checker.new }
{
    match named {
        None => Ok(()),
        Some(named) => typed_parameter(checker, line, named),
    }
}

// Walks over parameters, from left to right.
fn parameters(checker: &mut Checker, line: u32, names: &[TypedName]) -> Result<(), TypeFault>
    ensures { Walks result (in_order (map (parameter_walk line) names.now) checker.old.scope) checker.old checker.new }
{
    for named in names {
        typed_parameter(checker, line, named)?;
    }
    Ok(())
}

// Checks that a function with a result ends in a terminating statement.
fn ends(func: &Func) -> Result<(), TypeFault>
    ensures { AnswersOrFault result (end_faults func.now) (λ _. Unit {0}) }
{
    let holds = func.result.is_none() || all_ending(func.body.as_slice()).ends;
    require(func.line, NOT_TERMINATING, holds)
}

// Walks over a body, and checks how it ends.
fn body(checker: &mut Checker, func: &Func) -> Result<(), TypeFault>
    ensures { Walks result (in_order (body_walks func.now) checker.old.scope) checker.old checker.new }
{
    checker.statements(func.body.as_slice())?;
    ends(func)
}

// Walks over parameters and a body. Returns how many slots receiver and parameters have.
fn after_receiver(checker: &mut Checker, func: &Func, names: &[TypedName]) -> Result<u32, TypeFault>
    ensures { Counts result (in_order (inner_walks func.now names.now) checker.old.scope) (behind checker.old.scope (in_order (map (parameter_walk func.now.line) names.now) checker.old.scope)).next checker.old checker.new }
{
    parameters(checker, func.line, names)?;
    let arguments = checker.scope.next;
    body(checker, func)?;
    Ok(arguments)
}

// Walks over a head and a body. Returns how many slots receiver and parameters have.
fn head(
    checker: &mut Checker,
    func: &Func,
    receiver: &Option<TypedName>,
    names: &[TypedName],
) -> Result<u32, TypeFault>
    ensures { Counts result (in_order (head_walks func.now receiver.now names.now) checker.old.scope) (arguments_of func.now receiver.now names.now checker.old.scope) checker.old checker.new }
{
    optional_parameter(checker, func.line, receiver)?;
    after_receiver(checker, func, names)
}

// Returns the name of a receiver with its type.
fn named_receiver(alloc: Global, scope: &Scope, receiver: &Receiver) -> Result<TypedName, Memory>
    ensures { IfOk result (λ p. Some p ≡ receiver_name_of scope.now (Some receiver.now)) }
{
    let name = copy_name(alloc, receiver.name.as_slice())?;
    let meaning = meaning_at(alloc, scope, receiver.type_name.as_slice())?;
    Ok((name, plain_type(alloc, pointer_to(meaning))))
}

// Returns the name of a receiver with its type, if there is one.
fn receiver_name(
    alloc: Global,
    scope: &Scope,
    receiver: &Option<Receiver>,
) -> Result<Option<TypedName>, Memory>
    ensures { IfOk result (λ p. p ≡ receiver_name_of scope.now receiver.now) }
{
    match receiver {
        None => Ok(None),
        Some(receiver) => Ok(Some(named_receiver(alloc, scope, receiver)?)),
    }
}

// Restores the scope outside all functions. On `Err` nothing is said of the scope.
fn leave(alloc: Global, scope: &mut Scope) -> Result<(), Memory>
    ensures { OnOk result (scope.new ≡ record scope.old { locals = []; result = None; next = 0 }) }
{
    scope.locals.truncate(alloc, 0)?;
    scope.result = None;
    scope.next = 0;
    Ok(())
}

// Walks over a function of these types. The fact that counts its slots and facts is added before them.
#[tactic(auto, using(crate::proofs::Laws::left_scope, golf_check_types::proofs::Seams::function_filled))]
fn typed_function(
    checker: &mut Checker,
    func: &Func,
    receiver: &Option<TypedName>,
    names: &[TypedName],
    result_type: Option<GoType>,
) -> Result<(), TypeFault>
    requires { checker.old.scope ≡ outside_of checker.old.scope.file }
    ensures { Stays result (function_walked func.now receiver.now names.now (record checker.old.scope { result = result_type })) checker.old checker.new }
{
    checker.scope.result = result_type;
    let at = checker.facts.len();
    checker.facts.push(Fact::Part(0))?;
    let arguments = head(checker, func, receiver, names)?;
    let slots = checker.scope.next;
    let parts = checker.facts.len() - at - 1;
    checker.facts.set(
        at,
        Fact::Function {
            arguments,
            slots,
            parts,
        },
    );
    leave(checker.alloc, &mut checker.scope)?;
    Ok(())
}

/// Walks over a function or method. After an error nothing is said of the checker.
pub fn function(checker: &mut Checker, func: &Func) -> Result<(), TypeFault>
    requires { checker.old.scope ≡ outside_of checker.old.scope.file }
    ensures { Stays result (func_walk func.now checker.old.scope) checker.old checker.new }
{
    let parameters = func.parameters.as_slice();
    let receiver = receiver_name(checker.alloc, &checker.scope, &func.receiver)?;
    let names = typed_names(checker.alloc, &checker.scope, parameters)?;
    let result_type = result_type(checker.alloc, &checker.scope, &func.result)?;
    let typed = names.as_slice();
    typed_function(checker, func, &receiver, typed, result_type)
}
