//! The forms of expressions: what an expression is, whatever rules it breaks.
//!
//! There are two evaluators of expressions. This one gives globals their types before any body, and never refuses. A
//! global whose initialiser breaks a rule still has a type, by which the functions above it are judged. The other one,
//! `Checker` of `golf_check_bodies`, judges each initialiser in its turn and stops at the first broken rule. With only
//! the checker, a function above such a global would break another rule first.

ghost use Rattle.std.specs.Prelude.{◌≡◌, None, IfOk, slice_get};
ghost use Rattle.golf_syntax_trees.specs.Spines.{left_of};
ghost use Rattle.golf_check_types.specs.Types.{with_layer as with_layer_of};
ghost use Rattle.golf_check_types.specs.Scopes.{meaning as meaning_of};
ghost use Rattle.golf_check_types.specs.Written.{write, pointer_to as pointer_to_of};
ghost use Rattle.golf_check_types.specs.Expressions.{given_by, named as named_of, pointer_value, unary_meaning};
ghost use Rattle.golf_check_types.specs.Expressions.{selected_from, in_parens};
ghost use Rattle.golf_check_types.specs.Calls.{signature_result};
ghost use Rattle.golf_check_types.specs.Judgments.{judge};
ghost use Rattle.golf_check_names.specs.Forms.{AnswersOperand, called_form};
ghost use Rattle.golf_check_names.specs.Spines.{formed};

use golf_base::Memory;
use golf_check_operands::{
    built_in_result, element, made_base, plain_type, pointer_to, result_base, select, value,
    without_package, written_type,
};
use golf_check_types::{
    Base, FileScope, Given, Layer, Operand, Scope, TypeFault, copy_optional, is_blank, meaning_at,
    value_of, with_layer,
};
use golf_syntax_trees::{Expr, TypeExpr, UnaryOperator, spine};
use std::alloc::Global;

// Returns what a name is. A name that is not known is a value of no known type.
fn named(alloc: Global, line: u32, scope: &Scope, name: &[u8]) -> Result<Operand, Memory>
    ensures { AnswersOperand result (named_of line scope.now name.now).meaning }
{
    if is_blank(name) {
        return Ok(Operand::Blank);
    }
    match meaning_at(alloc, scope, name)? {
        None => Ok(Operand::Value(None)),
        Some(operand) => Ok(operand),
    }
}

// Returns a pointer to the struct of this name.
fn pointer(alloc: Global, scope: &Scope, name: &[u8]) -> Result<Operand, Memory>
    ensures { AnswersOperand result (pointer_value (pointer_to_of (meaning_of scope.now name.now))) }
{
    let meaning = meaning_at(alloc, scope, name)?;
    Ok(Operand::Value(plain_type(alloc, pointer_to(meaning))))
}

// Returns a slice of elements of the written type.
fn slice(alloc: Global, line: u32, scope: &Scope, t: &TypeExpr) -> Result<Operand, Memory>
    ensures { AnswersOperand result (Operand.Value (with_layer_of Layer.Slice (write t.now line scope.now).type)) }
{
    let inner = written_type(alloc, line, scope, t)?;
    Ok(Operand::Value(with_layer(alloc, Layer::Slice, inner)?))
}

// Returns a value of the written type.
fn made(alloc: Global, line: u32, scope: &Scope, t: &TypeExpr) -> Result<Operand, Memory>
    ensures { AnswersOperand result (Operand.Value (write t.now line scope.now).type) }
{
    Ok(Operand::Value(written_type(alloc, line, scope, t)?))
}

// Returns what a unary operator gives.
fn unary(alloc: Global, operator: UnaryOperator, x: Given) -> Operand
    ensures { result ≡ unary_meaning operator x }
{
    match operator {
        UnaryOperator::Negate => value(alloc, Base::Int),
        UnaryOperator::Not => value(alloc, Base::Bool),
        UnaryOperator::Receive => Operand::Outcome(element(x)),
    }
}

// Returns the member after a dot. If a rule is broken there, the member is not known.
fn selected(
    alloc: Global,
    line: u32,
    file: &FileScope,
    name: &[u8],
    operand: Operand,
) -> Result<Operand, Memory>
    ensures { AnswersOperand result (selected_from line file.now name.now operand).meaning }
{
    match select(alloc, line, file, name, operand) {
        Ok(found) => Ok(found),
        Err(fault) => match fault {
            TypeFault::Memory => Err(Memory),
            TypeFault::At { line: _, rule: _ } => Ok(Operand::Unknown),
        },
    }
}

// Returns what a call of the function or method of this number gives.
fn function_result(alloc: Global, file: &FileScope, number: u32) -> Result<Operand, Memory>
    ensures { AnswersOperand result (signature_result (slice_get file.now.functions number)) }
{
    match file.functions.as_slice().get(number as usize) {
        None => Ok(Operand::Outcome(None)),
        Some(signature) => match copy_optional(alloc, &signature.result)? {
            None => Ok(Operand::Nothing(None)),
            Some(t) => Ok(Operand::Outcome(Some(t))),
        },
    }
}

// Returns what a call gives, whatever its arguments are.
fn called(alloc: Global, file: &FileScope, callee: Operand) -> Result<Operand, Memory>
    ensures { AnswersOperand result (called_form file.now callee) }
{
    match &callee {
        Operand::Function(number) => function_result(alloc, file, *number),
        Operand::Method(number) => function_result(alloc, file, *number),
        Operand::BuiltIn(built_in) => Ok(built_in_result(alloc, *built_in, None)),
        _ => Ok(Operand::Outcome(None)),
    }
}

// Returns the form of an expression in parentheses.
#[cycle(forming)]
#[tactic(auto, using(crate::proofs::Laws::same_parens))]
fn parens_form(alloc: Global, line: u32, scope: &Scope, e: &Expr) -> Result<Operand, Memory>
    ensures { AnswersOperand result (in_parens (judge e.now line scope.now)).meaning }
{
    let inner = form(alloc, line, scope, e)?;
    Ok(without_package(inner))
}

// Returns what an expression gives as a value, by its form.
#[cycle(forming)]
#[tactic(auto, using(crate::proofs::Laws::same_given))]
fn value_form(alloc: Global, line: u32, scope: &Scope, e: &Expr) -> Result<Given, Memory>
    ensures { IfOk result (λ v. v ≡ given_by (judge e.now line scope.now)) }
{
    let operand = form(alloc, line, scope, e)?;
    Ok(value_of(alloc, operand))
}

// Returns what a unary operator gives, by the form of its operand.
#[cycle(forming)]
fn unary_form(
    alloc: Global,
    line: u32,
    scope: &Scope,
    operator: UnaryOperator,
    e: &Expr,
) -> Result<Operand, Memory>
    ensures { AnswersOperand result (unary_meaning operator (given_by (judge e.now line scope.now))) }
{
    let x = value_form(alloc, line, scope, e)?;
    Ok(unary(alloc, operator, x))
}

// Returns the form of an expression with this left operand.
#[tactic(auto, unfolding(crate::specs::Spines::formed))]
fn rise(alloc: Global, line: u32, scope: &Scope, e: &Expr, left: Operand) -> Result<Operand, Memory>
    ensures { AnswersOperand result (formed e.now line scope.now left) }
{
    match e {
        Expr::Integer(_) => Ok(left),
        Expr::Text(_) => Ok(left),
        Expr::Name(_) => Ok(left),
        Expr::Parens(_) => Ok(left),
        Expr::StructLiteral(_, _) => Ok(left),
        Expr::SyncLiteral(_) => Ok(left),
        Expr::SliceLiteral(_, _) => Ok(left),
        Expr::EmptyLiteral => Ok(left),
        Expr::Make(_) => Ok(left),
        Expr::MakeSized(_, _) => Ok(left),
        Expr::New(_) => Ok(left),
        Expr::NewSync(_) => Ok(left),
        Expr::Selector(_, name) => selected(alloc, line, &scope.file, name.as_slice(), left),
        Expr::Index(_, _) => {
            let x = value_of(alloc, left);
            Ok(Operand::Element(element(x)))
        }
        Expr::Call(_, _) => called(alloc, &scope.file, left),
        Expr::Unary(_, _) => Ok(left),
        Expr::Binary(o, _, _) => Ok(value(alloc, result_base(*o))),
    }
}

/// Returns the form of an expression. For a call without a result it does not say which rule the arguments break.
///
/// A loop follows the spine of left operands.
#[cycle(forming)]
pub fn form(alloc: Global, line: u32, scope: &Scope, e: &Expr) -> Result<Operand, Memory>
    ensures { AnswersOperand result (judge e.now line scope.now).meaning }
{
    let (mut waiting, innermost) = spine(alloc, e)?;
    let mut operand = whole(alloc, line, scope, innermost)?;
    while let Some(node) = waiting.pop() {
        operand = rise(alloc, line, scope, node, operand)?;
    }
    Ok(operand)
}

// Returns the form of an expression without a left operand.
#[cycle(forming)]
#[tactic(auto, unfolding(golf_check_types::specs::Judgments::judge, golf_syntax_trees::specs::Spines::left_of))]
fn whole(alloc: Global, line: u32, scope: &Scope, e: &Expr) -> Result<Operand, Memory>
    requires { left_of e.now ≡ None }
    ensures { AnswersOperand result (judge e.now line scope.now).meaning }
{
    match e {
        Expr::Integer(_) => Ok(value(alloc, Base::Int)),
        Expr::Text(_) => Ok(value(alloc, Base::Text)),
        Expr::Name(name) => named(alloc, line, scope, name.as_slice()),
        Expr::Parens(e) => parens_form(alloc, line, scope, e.get()),
        Expr::StructLiteral(name, _) => pointer(alloc, scope, name.as_slice()),
        Expr::SyncLiteral(name) => {
            let base = made_base(name.as_slice());
            Ok(Operand::Value(plain_type(alloc, base)))
        }
        Expr::SliceLiteral(t, _) => slice(alloc, line, scope, t.get()),
        Expr::EmptyLiteral => Ok(value(alloc, Base::Unit)),
        Expr::Make(t) => made(alloc, line, scope, t.get()),
        Expr::MakeSized(t, _) => made(alloc, line, scope, t.get()),
        Expr::New(name) => pointer(alloc, scope, name.as_slice()),
        Expr::NewSync(name) => {
            let base = made_base(name.as_slice());
            Ok(Operand::Value(plain_type(alloc, base)))
        }
        Expr::Selector(_, _) => unreachable!(),
        Expr::Index(_, _) => unreachable!(),
        Expr::Call(_, _) => unreachable!(),
        Expr::Unary(o, e) => unary_form(alloc, line, scope, *o, e.get()),
        Expr::Binary(_, _, _) => unreachable!(),
    }
}
