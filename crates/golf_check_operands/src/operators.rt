//! Uses of operands, and what operators give.
//!
//! An operand can be used as a value (`is_value`) or as a name of any kind (`is_name`). Operators take values.

ghost use Rattle.std.specs.Prelude.{◌≡◌, ◌&&◌};
ghost use Rattle.golf_check_types.specs.Faults.{AnswersOrFault, broken as broken_of};
ghost use Rattle.golf_check_types.specs.Types.{given as given_of, has_base as has_base_of, has_layer, is_slice};
ghost use Rattle.golf_check_types.specs.Types.{element as element_of};
ghost use Rattle.golf_check_types.specs.Expressions.{late_faults, value_faults, name_faults, value as value_of_base};
ghost use Rattle.golf_check_types.specs.Expressions.{unary_faults, unary_meaning, result_base as result_base_of};
ghost use Rattle.golf_check_types.specs.Expressions.{operand_base as operand_base_of, binary_fits as binary_fits_of};
ghost use Rattle.golf_check_types.specs.Expressions.{without_package as without_package_of};

use crate::values::{can_give, comparable, element, has_base, has_slice};
use golf_check_types::rules::{NOT_STEADY, UNKNOWN_NAME, WRONG_CHANNEL, WRONG_OPERAND, WRONG_USE};
use golf_check_types::{Base, Given, Operand, Scope, TypeFault, plain, require, value_of};
use golf_syntax_trees::{BinaryOperator, UnaryOperator};
use std::alloc::Global;

/// Reports the rule that the arguments of a call without a result break, if there is one.
pub fn late(line: u32, rule: Option<u32>) -> Result<(), TypeFault>
    ensures { AnswersOrFault result (late_faults line rule) (λ _. Unit {0}) }
{
    match rule {
        None => Ok(()),
        Some(rule) => Err(TypeFault::At { line, rule }),
    }
}

/// Checks that an operand is a value: `UNKNOWN_NAME` and `WRONG_USE`.
pub fn is_value(line: u32, operand: &Operand) -> Result<(), TypeFault>
    ensures { AnswersOrFault result (value_faults line operand.now) (λ _. Unit {0}) }
{
    match operand {
        Operand::Value(_)
        | Operand::Outcome(_)
        | Operand::Constant(_, _)
        | Operand::Truth(_)
        | Operand::Variable(_, _)
        | Operand::Field(_, _)
        | Operand::Element(_)
        | Operand::Unknown
        | Operand::Nil => Ok(()),
        Operand::Nothing(_) => Err(TypeFault::At {
            line,
            rule: WRONG_USE,
        }),
        Operand::Blank
        | Operand::Function(_)
        | Operand::Method(_)
        | Operand::BuiltIn(_)
        | Operand::Package(_)
        | Operand::Struct(_)
        | Operand::TypeName => Err(TypeFault::At {
            line,
            rule: UNKNOWN_NAME,
        }),
    }
}

/// Checks that an operand can be used as a name of any kind: `UNKNOWN_NAME` and `WRONG_USE`.
pub fn is_name(line: u32, operand: &Operand) -> Result<(), TypeFault>
    ensures { AnswersOrFault result (name_faults line operand.now) (λ _. Unit {0}) }
{
    match operand {
        Operand::Blank => Err(TypeFault::At {
            line,
            rule: UNKNOWN_NAME,
        }),
        Operand::Nothing(_) => Err(TypeFault::At {
            line,
            rule: WRONG_USE,
        }),
        _ => Ok(()),
    }
}

/// Returns what an operand gives as a value, if it is one.
pub(crate) fn as_value(alloc: Global, line: u32, operand: Operand) -> Result<Given, TypeFault>
    ensures { AnswersOrFault result (value_faults line operand) (λ v. v ≡ given_of operand) }
{
    is_value(line, &operand)?;
    Ok(value_of(alloc, operand))
}

/// Returns a value of a type without layers.
pub fn value(alloc: Global, base: Base) -> Operand
    ensures { result ≡ value_of_base base }
{
    Operand::Value(Some(plain(alloc, base)))
}

/// Returns the operand of an expression in parentheses. A package in parentheses cannot be a qualifier.
pub fn without_package(operand: Operand) -> Operand
    ensures { result ≡ without_package_of operand }
{
    match operand {
        Operand::Package(..) => Operand::TypeName,
        _ => operand,
    }
}

/// Returns what a unary operator gives. It checks the rules of its operand.
pub fn unary(
    alloc: Global,
    line: u32,
    scope: &Scope,
    operator: UnaryOperator,
    x: Given,
) -> Result<Operand, TypeFault>
    ensures { AnswersOrFault result (unary_faults line scope.now operator x) (λ m. m ≡ unary_meaning operator x) }
{
    match operator {
        UnaryOperator::Negate => {
            require(line, WRONG_OPERAND, has_base(Base::Int, &x))?;
            Ok(value(alloc, Base::Int))
        }
        UnaryOperator::Not => {
            require(line, WRONG_OPERAND, has_base(Base::Bool, &x))?;
            Ok(value(alloc, Base::Bool))
        }
        UnaryOperator::Receive => {
            require(line, NOT_STEADY, scope.initialises.is_none())?;
            require(line, WRONG_CHANNEL, can_give(&x))?;
            Ok(Operand::Outcome(element(x)))
        }
    }
}

/// Returns the base of the type that a binary operator gives.
pub fn result_base(operator: BinaryOperator) -> Base
    ensures { result ≡ result_base_of operator }
{
    match operator {
        BinaryOperator::Add
        | BinaryOperator::Subtract
        | BinaryOperator::Multiply
        | BinaryOperator::Divide
        | BinaryOperator::Remainder => Base::Int,
        _ => Base::Bool,
    }
}

// Returns the base of both operands of a binary operator that is no `==` or `!=`.
fn operand_base(operator: BinaryOperator) -> Base
    ensures { result ≡ operand_base_of operator }
{
    match operator {
        BinaryOperator::Or | BinaryOperator::And => Base::Bool,
        _ => Base::Int,
    }
}

// Returns whether two values can be the operands of a binary operator.
fn binary_fits(operator: BinaryOperator, x: &Given, y: &Given) -> bool
    ensures { result ≡ binary_fits_of operator x.now y.now }
{
    match operator {
        BinaryOperator::Equal | BinaryOperator::NotEqual => comparable(x, y),
        _ => {
            let base = operand_base(operator);
            has_base(base, x) && has_base(base, y)
        }
    }
}

/// Returns what a binary operator gives. It checks `WRONG_OPERAND`.
pub fn binary(
    alloc: Global,
    line: u32,
    operator: BinaryOperator,
    x: Given,
    y: Given,
) -> Result<Operand, TypeFault>
    ensures { AnswersOrFault result (broken_of line WRONG_OPERAND (binary_fits_of operator x y)) (λ m. m ≡ value_of_base (result_base_of operator)) }
{
    require(line, WRONG_OPERAND, binary_fits(operator, &x, &y))?;
    Ok(value(alloc, result_base(operator)))
}

/// Returns the element at an index. It checks `WRONG_OPERAND`.
pub fn index(line: u32, x: Given, i: Given) -> Result<Operand, TypeFault>
    ensures { AnswersOrFault result (broken_of line WRONG_OPERAND (has_layer is_slice x && has_base_of Base.Int i)) (λ m. m ≡ Operand.Element (element_of x)) }
{
    require(
        line,
        WRONG_OPERAND,
        has_slice(&x) && has_base(Base::Int, &i),
    )?;
    Ok(Operand::Element(element(x)))
}
