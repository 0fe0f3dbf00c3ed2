//! The reader of variables (Go specification, "Variable declarations").
//!
//! A variable has one name. After it comes a type, a value, or both.

ghost use Rattle.std.specs.Prelude.{◌≡◌, ◌<◌, ◌≤◌, length, IfOk, IfSome};
ghost use Rattle.golf_syntax_expressions.specs.Front as front_spec;
ghost use Rattle.golf_syntax_expressions.specs.Front.{seen};
ghost use Rattle.golf_syntax_statements.specs.VariableReader as var_spec;
ghost use Rattle.golf_syntax_statements.specs.VariableReader.{typed_by};

use golf_base::Memory;
use golf_lex_tokens::{Punctuation, Token};
use golf_syntax_expressions::{Context, after, copied, expression_at, name_at, type_at};
use golf_syntax_trees::{OwnedType, OwnedVar, OwnedVarContent, Var, VarContent};
use std::alloc::Global;

// Reads a value after a type, if there is one.
fn typed(
    alloc: Global,
    of_type: OwnedType,
    tokens: &[Token],
) -> Result<Option<(OwnedVarContent, &[Token])>, Memory>
    ensures value { IfOk result (λ o. seen o ≡ typed_by of_type tokens.now (front_spec.after Punctuation.Assign tokens.now)) }
    ensures shorter { IfOk result (λ o. IfSome o (λ x. length x.1.now ≤ length tokens.now)) }
{
    let Some(valued) = after(tokens, Punctuation::Assign) else {
        return Ok(Some((OwnedVarContent::new(VarContent::Zero(of_type)), tokens)))
    };
    match expression_at(alloc, Context::Elsewhere, valued)? {
        None => Ok(None),
        Some((value, rest)) => Ok(Some((
            OwnedVarContent::new(VarContent::Typed(of_type, value)),
            rest,
        ))),
    }
}

// Reads `= value` after a name.
fn untyped(alloc: Global, tokens: &[Token]) -> Result<Option<(OwnedVarContent, &[Token])>, Memory>
    ensures value { IfOk result (λ o. seen o ≡ var_spec.untyped tokens.now) }
    ensures shorter { IfOk result (λ o. IfSome o (λ x. length x.1.now ≤ length tokens.now)) }
{
    let Some(valued) = after(tokens, Punctuation::Assign) else {
        return Ok(None)
    };
    match expression_at(alloc, Context::Elsewhere, valued)? {
        None => Ok(None),
        Some((value, rest)) => Ok(Some((OwnedVarContent::new(VarContent::Untyped(value)), rest))),
    }
}

// Reads the type and the value after the name of a variable.
#[tactic(auto, unfolding(crate::specs::VariableReader::content_at))]
fn content_at(
    alloc: Global,
    tokens: &[Token],
) -> Result<Option<(OwnedVarContent, &[Token])>, Memory>
    ensures value { IfOk result (λ o. seen o ≡ var_spec.content_at tokens.now) }
    ensures shorter { IfOk result (λ o. IfSome o (λ x. length x.1.now ≤ length tokens.now)) }
{
    match type_at(alloc, tokens)? {
        None => untyped(alloc, tokens),
        Some((of_type, behind)) => typed(alloc, of_type, behind),
    }
}

/// Reads the variable after `var`. `line` is the line of `var`. Returns the variable and the tokens
/// after it.
#[tactic(auto, unfolding(crate::specs::VariableReader::var_at))]
pub fn var_at(
    alloc: Global,
    line: u32,
    tokens: &[Token],
) -> Result<Option<(OwnedVar, &[Token])>, Memory>
    ensures value { IfOk result (λ o. seen o ≡ var_spec.var_at line tokens.now) }
    ensures shorter { IfOk result (λ o. IfSome o (λ x. length x.1.now < length tokens.now)) }
{
    let Some((name, behind)) = name_at(tokens) else {
        return Ok(None)
    };
    let name = copied(alloc, name)?;
    match content_at(alloc, behind)? {
        None => Ok(None),
        Some((content, rest)) => Ok(Some((
            OwnedVar::new(Var {
                line,
                name,
                content,
            }),
            rest,
        ))),
    }
}
