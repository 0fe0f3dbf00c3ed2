//! The readers of statements that contain no other statement.
//!
//! Each reads what follows the keyword of its statement, and returns a move with the whole
//! statement. A simple statement has no keyword.

ghost use Rattle.std.specs.Prelude.{◌≡◌, ◌+◌, ◌*◌, ◌<◌, ◌≤◌, length, IfOk, IfSome};
ghost use Rattle.golf_syntax_expressions.specs.Plan.{run};
ghost use Rattle.golf_syntax_expressions.specs.Front.{seen};
ghost use Rattle.golf_syntax_statements.specs.StatementReader as stmt_spec;
ghost use Rattle.golf_syntax_statements.specs.StatementReader.{keyword_plan, simple_plan};
ghost use Rattle.golf_syntax_statements.specs.Moves as moves_spec;
ghost use Rattle.golf_syntax_statements.specs.Moves.{weight};

use crate::pending::OwnedMove;
use crate::variables::var_at;
use golf_base::Memory;
use golf_lex_tokens::{Keyword, Token};
use golf_syntax_expressions::{Context, expression_at, operand_at, simple_at};
use golf_syntax_trees::{OwnedExpr, OwnedExprs, OwnedStmt, Stmt};
use std::alloc::Global;

// Returns callee and arguments of a call, or `None` if it is no call.
fn call_of(e: OwnedExpr) -> Option<(OwnedExpr, OwnedExprs)>
    ensures { result ≡ stmt_spec.call_of e }
{
    match e.into_inner().into_call() {
        None => None,
        Some((callee, arguments)) => {
            Some((
                OwnedExpr::new(callee.into_inner()),
                OwnedExprs::new(arguments),
            ))
        }
    }
}

// Reads a call after `go` or `defer`.
#[tactic(auto, unfolding(crate::specs::StatementReader::call_at))]
fn call_at(
    alloc: Global,
    tokens: &[Token],
) -> Result<Option<((OwnedExpr, OwnedExprs), &[Token])>, Memory>
    ensures value { IfOk result (λ o. seen o ≡ stmt_spec.call_at tokens.now) }
    ensures shorter { IfOk result (λ o. IfSome o (λ x. length x.1.now < length tokens.now)) }
{
    match operand_at(alloc, tokens)? {
        None => Ok(None),
        Some((e, rest)) => match call_of(e) {
            None => Ok(None),
            Some(call) => Ok(Some((call, rest))),
        },
    }
}

/// Reads the variable after `var`. `line` is the line of `var`.
pub fn variable_at(
    alloc: Global,
    line: u32,
    tokens: &[Token],
) -> Result<Option<(OwnedMove, &[Token])>, Memory>
    ensures value { IfOk result (λ o. moves_spec.moved o ≡ run stmt_spec.stmt_at (keyword_plan line Keyword.Var tokens.now tokens.now)) }
    ensures less { IfOk result (λ o. IfSome o (λ x. weight x.0 + 8 * length x.1.now ≤ 8 * length tokens.now)) }
{
    match var_at(alloc, line, tokens)? {
        None => Ok(None),
        Some((var, rest)) => Ok(Some((
            OwnedMove::found(alloc, OwnedStmt::new(alloc, Stmt::Var(var))?)?,
            rest,
        ))),
    }
}

/// Reads the call after `go`. `line` is the line of `go`.
pub fn go_at(
    alloc: Global,
    line: u32,
    tokens: &[Token],
) -> Result<Option<(OwnedMove, &[Token])>, Memory>
    ensures value { IfOk result (λ o. moves_spec.moved o ≡ run stmt_spec.stmt_at (keyword_plan line Keyword.Go tokens.now tokens.now)) }
    ensures less { IfOk result (λ o. IfSome o (λ x. weight x.0 + 8 * length x.1.now ≤ 8 * length tokens.now)) }
{
    match call_at(alloc, tokens)? {
        None => Ok(None),
        Some(((callee, arguments), rest)) => {
            Ok(Some((
                OwnedMove::found(
                    alloc,
                    OwnedStmt::new(alloc, Stmt::Go(line, callee, arguments.into_inner()))?,
                )?,
                rest,
            )))
        }
    }
}

/// Reads the call after `defer`. `line` is the line of `defer`.
pub fn defer_at(
    alloc: Global,
    line: u32,
    tokens: &[Token],
) -> Result<Option<(OwnedMove, &[Token])>, Memory>
    ensures value { IfOk result (λ o. moves_spec.moved o ≡ run stmt_spec.stmt_at (keyword_plan line Keyword.Defer tokens.now tokens.now)) }
    ensures less { IfOk result (λ o. IfSome o (λ x. weight x.0 + 8 * length x.1.now ≤ 8 * length tokens.now)) }
{
    match call_at(alloc, tokens)? {
        None => Ok(None),
        Some(((callee, arguments), rest)) => {
            Ok(Some((
                OwnedMove::found(
                    alloc,
                    OwnedStmt::new(alloc, Stmt::Defer(line, callee, arguments.into_inner()))?,
                )?,
                rest,
            )))
        }
    }
}

/// Reads the value after `return`, if there is one. `line` is the line of `return`.
pub fn return_at(
    alloc: Global,
    line: u32,
    tokens: &[Token],
) -> Result<Option<(OwnedMove, &[Token])>, Memory>
    ensures value { IfOk result (λ o. moves_spec.moved o ≡ run stmt_spec.stmt_at (keyword_plan line Keyword.Return tokens.now tokens.now)) }
    ensures less { IfOk result (λ o. IfSome o (λ x. weight x.0 + 8 * length x.1.now ≤ 8 * length tokens.now)) }
{
    match expression_at(alloc, Context::Elsewhere, tokens)? {
        None => Ok(Some((
            OwnedMove::found(alloc, OwnedStmt::new(alloc, Stmt::Return(line, None))?)?,
            tokens,
        ))),
        Some((value, rest)) => Ok(Some((
            OwnedMove::found(
                alloc,
                OwnedStmt::new(alloc, Stmt::Return(line, Some(value)))?,
            )?,
            rest,
        ))),
    }
}

/// Reads a simple statement.
pub fn simple_statement_at(
    alloc: Global,
    tokens: &[Token],
) -> Result<Option<(OwnedMove, &[Token])>, Memory>
    ensures value { IfOk result (λ o. moves_spec.moved o ≡ run stmt_spec.stmt_at (simple_plan tokens.now)) }
    ensures less { IfOk result (λ o. IfSome o (λ x. weight x.0 + 8 * length x.1.now < 8 * length tokens.now)) }
{
    match simple_at(alloc, Context::Elsewhere, tokens)? {
        None => Ok(None),
        Some((simple, rest)) => Ok(Some((
            OwnedMove::found(alloc, OwnedStmt::new(alloc, Stmt::Simple(simple))?)?,
            rest,
        ))),
    }
}
