//! Calls: the rules for their arguments, and what they give.
//!
//! The arguments are judged before. A rule that the arguments of `Println`, `panic` or `SetFinalizer` break is not
//! reported here. It is carried in what the call gives (`Operand::Nothing`), since a call without a result that is used
//! as a value breaks another rule before it.

ghost use Rattle.std.specs.Prelude.{◌≡◌, slice_get, IfOk};
ghost use Rattle.std.specs.List.{list_all};
ghost use Rattle.golf_check_types.specs.Faults.{AnswersOrFault};
ghost use Rattle.golf_check_types.specs.Types.{type_given as type_given_of, has_base as has_base_of, has_layer, is_any};
ghost use Rattle.golf_check_types.specs.Types.{takes};
ghost use Rattle.golf_check_types.specs.Calls.{argument_faults, same_number as same_number_of, parameter_faults};
ghost use Rattle.golf_check_types.specs.Calls.{signature_faults, of_result as of_result_of, signature_result};
ghost use Rattle.golf_check_types.specs.Calls.{parameters_of as parameters_of_of, all_first, built_in_faults};
ghost use Rattle.golf_check_types.specs.Calls.{rule_unless as rule_unless_of, prints as prints_of};
ghost use Rattle.golf_check_types.specs.Calls.{is_struct_base as is_struct_base_of};
ghost use Rattle.golf_check_types.specs.Calls.{is_struct_type as is_struct_type_of};
ghost use Rattle.golf_check_types.specs.Calls.{is_struct_pointer as is_struct_pointer_of, same_known as same_known_of};
ghost use Rattle.golf_check_types.specs.Calls.{takes_alone as takes_alone_of, signature_takes};
ghost use Rattle.golf_check_types.specs.Calls.{finalises_by as finalises_by_of, finalises as finalises_of};
ghost use Rattle.golf_check_types.specs.Calls.{late_rule as late_rule_of, built_in_result as built_in_result_of};
ghost use Rattle.golf_check_types.specs.Calls.{is_steady as is_steady_of, is_steady_call as is_steady_call_of};
ghost use Rattle.golf_check_types.specs.Calls.{steady_faults};
ghost use Rattle.golf_check_types.specs.Calls.{sets_finaliser as sets_finaliser_of, call_faults, called as called_of};

use crate::values::{assignable, can_take, has_any, has_base};
use golf_base::{List, Memory};
use golf_check_types::rules::{
    NOT_ASSIGNABLE, NOT_PRINTABLE, NOT_STEADY, WRONG_CALL, WRONG_CHANNEL, WRONG_OPERAND,
};
use golf_check_types::{
    Base, BuiltIn, FileScope, Given, GoType, Layer, Operand, Signature, TypeFault, copy_optional,
    plain, require, same_type,
};
use std::alloc::Global;

// Checks that each value is assignable to its parameter, if it has one.
fn arguments_fit(
    line: u32,
    parameters: &[Option<GoType>],
    values: &[Given],
) -> Result<(), TypeFault>
    ensures { AnswersOrFault result (argument_faults line parameters.now values.now) (λ _. Unit {0}) }
{
    let mut rest = values;
    for p in parameters {
        match rest {
            [] => return Ok(()),
            [v, vs @ ..] => {
                require(line, NOT_ASSIGNABLE, assignable(v, p))?;
                rest = vs;
            }
        }
    }
    Ok(())
}

fn same_number(parameters: &[Option<GoType>], values: &[Given]) -> bool
    ensures { result ≡ same_number_of parameters.now values.now }
{
    parameters.len() == values.len()
}

// Checks that the values fit the parameters and that there are as many: `NOT_ASSIGNABLE` and `WRONG_CALL`.
fn fit(line: u32, parameters: &[Option<GoType>], values: &[Given]) -> Result<(), TypeFault>
    ensures { AnswersOrFault result (parameter_faults line parameters.now values.now) (λ _. Unit {0}) }
{
    arguments_fit(line, parameters, values)?;
    require(line, WRONG_CALL, same_number(parameters, values))
}

// Returns what a call of a function with this result gives.
fn of_result(result_type: Option<GoType>) -> Operand
    ensures { result ≡ of_result_of result_type }
{
    match result_type {
        None => Operand::Nothing(None),
        Some(t) => Operand::Outcome(Some(t)),
    }
}

// Judges a call of the function or method of this number.
fn call_function(
    alloc: Global,
    line: u32,
    file: &FileScope,
    number: u32,
    values: &[Given],
) -> Result<Operand, TypeFault>
    ensures { AnswersOrFault result (signature_faults line (slice_get file.now.functions number) values.now) (λ m. m ≡ signature_result (slice_get file.now.functions number)) }
{
    match file.functions.as_slice().get(number as usize) {
        None => Ok(Operand::Outcome(None)),
        Some(signature) => {
            fit(line, signature.parameters.as_slice(), values)?;
            Ok(of_result(copy_optional(alloc, &signature.result)?))
        }
    }
}

// Returns the types of the parameters of a built-in. `None` is a parameter that takes any type.
fn parameters_of(alloc: Global, built_in: BuiltIn) -> Result<List<Option<GoType>>, Memory>
    ensures { IfOk result (λ ps. ps ≡ parameters_of_of built_in) }
{
    let mut parameters = List::new(alloc);
    match built_in {
        BuiltIn::Length | BuiltIn::Close | BuiltIn::Panic => parameters.push(None)?,
        BuiltIn::SetFinalizer => {
            parameters.push(None)?;
            parameters.push(None)?;
        }
        BuiltIn::NewCondition => parameters.push(Some(plain(alloc, Base::Mutex)))?,
        BuiltIn::Add => parameters.push(Some(plain(alloc, Base::Int)))?,
        BuiltIn::Print
        | BuiltIn::Collect
        | BuiltIn::Lock
        | BuiltIn::Unlock
        | BuiltIn::Done
        | BuiltIn::WaitGroup
        | BuiltIn::WriteLock
        | BuiltIn::WriteUnlock
        | BuiltIn::ReadLock
        | BuiltIn::ReadUnlock
        | BuiltIn::WaitCondition
        | BuiltIn::Signal
        | BuiltIn::Broadcast => {}
    }
    Ok(parameters)
}

fn first_is_measured(values: &[Given]) -> bool
    ensures { result ≡ all_first (has_layer is_any) values.now }
{
    match values {
        [] => true,
        [v, ..] => has_any(v),
    }
}

fn first_is_closed(values: &[Given]) -> bool
    ensures { result ≡ all_first (has_layer takes) values.now }
{
    match values {
        [] => true,
        [v, ..] => can_take(v),
    }
}

fn first_is_text(values: &[Given]) -> bool
    ensures { result ≡ all_first (has_base_of Base.Text) values.now }
{
    match values {
        [] => true,
        [v, ..] => has_base(Base::Text, v),
    }
}

// Checks that the values can be the arguments of a built-in: `WRONG_OPERAND`, `NOT_ASSIGNABLE`, `WRONG_CALL` and
// `WRONG_CHANNEL`.
fn built_in_fits(
    alloc: Global,
    line: u32,
    built_in: BuiltIn,
    values: &[Given],
) -> Result<(), TypeFault>
    ensures { AnswersOrFault result (built_in_faults line built_in values.now) (λ _. Unit {0}) }
{
    let parameters = parameters_of(alloc, built_in)?;
    match built_in {
        BuiltIn::Length => {
            require(line, WRONG_OPERAND, first_is_measured(values))?;
            fit(line, parameters.as_slice(), values)
        }
        BuiltIn::Close => {
            fit(line, parameters.as_slice(), values)?;
            require(line, WRONG_CHANNEL, first_is_closed(values))
        }
        BuiltIn::Print => Ok(()),
        BuiltIn::Panic
        | BuiltIn::Collect
        | BuiltIn::SetFinalizer
        | BuiltIn::NewCondition
        | BuiltIn::Lock
        | BuiltIn::Unlock
        | BuiltIn::Add
        | BuiltIn::Done
        | BuiltIn::WaitGroup
        | BuiltIn::WriteLock
        | BuiltIn::WriteUnlock
        | BuiltIn::ReadLock
        | BuiltIn::ReadUnlock
        | BuiltIn::WaitCondition
        | BuiltIn::Signal
        | BuiltIn::Broadcast => fit(line, parameters.as_slice(), values),
    }
}

/// Returns the rule, or `None` if the test holds.
pub fn rule_unless(rule: u32, holds: bool) -> Option<u32>
    ensures { result ≡ rule_unless_of rule holds }
{
    if holds { None } else { Some(rule) }
}

fn prints(given: &Given) -> bool
    ensures { result ≡ prints_of given.now }
{
    has_base(Base::Int, given) || has_base(Base::Bool, given) || has_base(Base::Text, given)
}

fn all_print(values: &[Given]) -> bool
    ensures { result ≡ list_all prints_of values.now }
{
    values.iter().all(|v| prints(v))
}

fn late_rule(built_in: BuiltIn, values: &[Given]) -> Option<u32>
    ensures { result ≡ late_rule_of built_in values.now }
{
    match built_in {
        BuiltIn::Print => rule_unless(NOT_PRINTABLE, all_print(values)),
        BuiltIn::Panic => rule_unless(NOT_PRINTABLE, first_is_text(values)),
        BuiltIn::Length
        | BuiltIn::Close
        | BuiltIn::Collect
        | BuiltIn::SetFinalizer
        | BuiltIn::NewCondition
        | BuiltIn::Lock
        | BuiltIn::Unlock
        | BuiltIn::Add
        | BuiltIn::Done
        | BuiltIn::WaitGroup
        | BuiltIn::WriteLock
        | BuiltIn::WriteUnlock
        | BuiltIn::ReadLock
        | BuiltIn::ReadUnlock
        | BuiltIn::WaitCondition
        | BuiltIn::Signal
        | BuiltIn::Broadcast => None,
    }
}

/// Returns what a call of a built-in operation gives, with the rule that it breaks later.
pub fn built_in_result(alloc: Global, built_in: BuiltIn, late: Option<u32>) -> Operand
    ensures { result ≡ built_in_result_of built_in late }
{
    match built_in {
        BuiltIn::Length => Operand::Value(Some(plain(alloc, Base::Int))),
        BuiltIn::NewCondition => Operand::Value(Some(plain(alloc, Base::Condition))),
        BuiltIn::Close
        | BuiltIn::Panic
        | BuiltIn::Print
        | BuiltIn::Collect
        | BuiltIn::SetFinalizer
        | BuiltIn::Lock
        | BuiltIn::Unlock
        | BuiltIn::Add
        | BuiltIn::Done
        | BuiltIn::WaitGroup
        | BuiltIn::WriteLock
        | BuiltIn::WriteUnlock
        | BuiltIn::ReadLock
        | BuiltIn::ReadUnlock
        | BuiltIn::WaitCondition
        | BuiltIn::Signal
        | BuiltIn::Broadcast => Operand::Nothing(late),
    }
}

// Returns whether the initialiser of a global may call this built-in operation.
fn is_steady_call(built_in: BuiltIn) -> bool
    ensures { result ≡ is_steady_call_of built_in }
{
    match built_in {
        BuiltIn::Length | BuiltIn::NewCondition => true,
        BuiltIn::Close
        | BuiltIn::Panic
        | BuiltIn::Print
        | BuiltIn::Collect
        | BuiltIn::SetFinalizer
        | BuiltIn::Lock
        | BuiltIn::Unlock
        | BuiltIn::Add
        | BuiltIn::Done
        | BuiltIn::WaitGroup
        | BuiltIn::WriteLock
        | BuiltIn::WriteUnlock
        | BuiltIn::ReadLock
        | BuiltIn::ReadUnlock
        | BuiltIn::WaitCondition
        | BuiltIn::Signal
        | BuiltIn::Broadcast => false,
    }
}

// Returns whether the initialiser of a global may call this.
fn is_steady(callee: &Operand) -> bool
    ensures { result ≡ is_steady_of callee.now }
{
    match callee {
        Operand::BuiltIn(built_in) => is_steady_call(*built_in),
        _ => false,
    }
}

/// Checks that the initialiser of a global may call this: `NOT_STEADY`. Elsewhere any call is allowed.
pub fn keeps_steady(line: u32, initialises: Option<u32>, callee: &Operand) -> Result<(), TypeFault>
    ensures { AnswersOrFault result (steady_faults line initialises callee.now) (λ _. Unit {0}) }
{
    require(line, NOT_STEADY, initialises.is_none() || is_steady(callee))
}

/// Returns whether an operand is `runtime.SetFinalizer`.
pub fn sets_finaliser(callee: &Operand) -> bool
    ensures { result ≡ sets_finaliser_of callee.now }
{
    match callee {
        Operand::BuiltIn(built_in) => match built_in {
            BuiltIn::SetFinalizer => true,
            _ => false,
        },
        _ => false,
    }
}

/// Returns what a call of an operand gives. The arguments are judged already. It checks `WRONG_OPERAND`,
/// `NOT_ASSIGNABLE`, `WRONG_CALL` and `WRONG_CHANNEL`.
pub fn call(
    alloc: Global,
    line: u32,
    file: &FileScope,
    callee: &Operand,
    values: &[Given],
) -> Result<Operand, TypeFault>
    ensures { AnswersOrFault result (call_faults line file.now callee.now values.now) (λ m. m ≡ called_of file.now callee.now values.now) }
{
    match callee {
        Operand::Function(number) => call_function(alloc, line, file, *number, values),
        Operand::Method(number) => call_function(alloc, line, file, *number, values),
        Operand::BuiltIn(built_in) => {
            built_in_fits(alloc, line, *built_in, values)?;
            Ok(built_in_result(alloc, *built_in, late_rule(*built_in, values)))
        }
        Operand::Unknown => Ok(Operand::Outcome(None)),
        _ => Err(TypeFault::At {
            line,
            rule: WRONG_CALL,
        }),
    }
}

fn is_struct_base(base: Base) -> bool
    ensures { result ≡ is_struct_base_of base }
{
    matches!(base, Base::Pointer(_))
}

fn is_struct_type(layers: &[Layer], base: Base) -> bool
    ensures { result ≡ is_struct_type_of layers.now base }
{
    match layers {
        [] => is_struct_base(base),
        [_, ..] => false,
    }
}

fn is_struct_pointer(given: &Given) -> bool
    ensures { result ≡ is_struct_pointer_of given.now }
{
    match given {
        Given::Typed(t) => is_struct_type(t.layers.as_slice(), t.base),
        Given::Nil => false,
        Given::Unknown => true,
    }
}

// Returns whether the types of a parameter and a value are the same. A type that is not known is the same as any.
fn same_known(parameter: &Option<GoType>, given: &Given) -> bool
    ensures { result ≡ same_known_of parameter.now (type_given_of given.now) }
{
    match parameter {
        None => true,
        Some(a) => match given {
            Given::Typed(b) => same_type(a, b),
            _ => true,
        },
    }
}

fn takes_alone(parameters: &[Option<GoType>], given: &Given) -> bool
    ensures { result ≡ takes_alone_of (type_given_of given.now) parameters.now }
{
    match parameters {
        [p] => same_known(p, given),
        _ => false,
    }
}

fn function_takes(file: &FileScope, number: u32, given: &Given) -> bool
    ensures { result ≡ signature_takes (type_given_of given.now) (slice_get file.now.functions number) }
{
    match file.functions.as_slice().get(number as usize) {
        None => false,
        Some(signature) => takes_alone(signature.parameters.as_slice(), given),
    }
}

fn finalises_by(file: &FileScope, given: &Given, finaliser: &Operand) -> bool
    ensures { result ≡ finalises_by_of file.now (type_given_of given.now) finaliser.now }
{
    match finaliser {
        Operand::Nil => true,
        Operand::Function(number) => function_takes(file, *number, given),
        _ => false,
    }
}

/// Returns whether the value can have this finaliser: `WRONG_FINALISER` if not.
pub fn finalises(file: &FileScope, given: &Given, finaliser: &Operand) -> bool
    ensures { result ≡ finalises_of file.now given.now finaliser.now }
{
    is_struct_pointer(given) && finalises_by(file, given, finaliser)
}
