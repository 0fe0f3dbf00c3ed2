//! The reader of the clauses of `select` (Go specification, "Select statements").
//!
//! A clause ends where the next one begins, or at the closing brace of the `select`. A second `default` is not read.

ghost use Rattle.std.specs.Prelude.{◌≡◌, ◌+◌, ◌*◌, ◌<◌, ◌≤◌, length, IfOk, IfSome, Some};
ghost use Rattle.golf_syntax_expressions.specs.Front as front_spec;
ghost use Rattle.golf_syntax_statements.specs.StatementReader as stmt_spec;
ghost use Rattle.golf_syntax_statements.specs.Moves as moves_spec;
ghost use Rattle.golf_syntax_statements.specs.Moves.{selected, clause_at, case_at, headed_at, colon_at, selected_by};
ghost use Rattle.golf_syntax_statements.specs.Moves.{weight};

use crate::communications::comm_at;
use crate::pending::{Head, OwnedMove, OwnedPending, Select};
use golf_base::Memory;
use golf_lex_tokens::{Keyword, Punctuation, Token, TokenKind};
use golf_syntax_expressions::after;
use golf_syntax_trees::OwnedStmts;
use std::alloc::Global;

// Returns whether a clause begins here.
fn begins_clause(tokens: &[Token]) -> bool
    ensures { result ≡ stmt_spec.begins_clause tokens.now }
{
    match tokens.split_first() {
        None => false,
        Some((first, _)) => match &first.kind {
            TokenKind::Keyword(keyword) => {
                *keyword == Keyword::Case || *keyword == Keyword::Default
            }
            _ => false,
        },
    }
}

// Reads on in the body of a clause: the next clause begins here, or a statement does.
fn clause_move(
    alloc: Global,
    select: Select,
    head: Head,
    done: OwnedStmts,
    tokens: &[Token],
) -> Result<(OwnedMove, &[Token]), Memory>
    ensures value { IfOk result (λ x. moves_spec.moved (Some x) ≡ clause_at select head done tokens.now) }
    ensures less { IfOk result (λ x. weight x.0 + 8 * length x.1.now ≤ 8 * length tokens.now + 4) }
{
    if begins_clause(tokens) {
        return Ok((
            OwnedMove::clauses(alloc, select.grown(head, done)?)?,
            tokens,
        ));
    }
    let pending = OwnedPending::clause(alloc, select, head, done)?;
    Ok((OwnedMove::wait(alloc, pending)?, tokens))
}

/// Reads a semicolon and more after a statement of a clause, or finds the closing brace of the `select`, which stays.
pub fn case_move(
    alloc: Global,
    select: Select,
    head: Head,
    done: OwnedStmts,
    tokens: &[Token],
) -> Result<Option<(OwnedMove, &[Token])>, Memory>
    ensures value { IfOk result (λ o. moves_spec.moved o ≡ case_at select head done tokens.now (front_spec.after Punctuation.Semicolon tokens.now)) }
    ensures less { IfOk result (λ o. IfSome o (λ x. weight x.0 + 8 * length x.1.now < 8 * length tokens.now + 3)) }
{
    if let Some(next) = after(tokens, Punctuation::Semicolon) {
        return Ok(Some(clause_move(alloc, select, head, done, next)?));
    }
    match after(tokens, Punctuation::CloseBrace) {
        None => Ok(None),
        Some(_) => Ok(Some((
            OwnedMove::clauses(alloc, select.grown(head, done)?)?,
            tokens,
        ))),
    }
}

// Goes on after the colon of a clause.
#[tactic(auto, unfolding(crate::specs::Moves::headed_at))]
fn headed_move(
    alloc: Global,
    select: Select,
    head: Head,
    tokens: &[Token],
) -> Result<(OwnedMove, &[Token]), Memory>
    ensures value { IfOk result (λ x. moves_spec.moved (Some x) ≡ headed_at select head tokens.now) }
    ensures less { IfOk result (λ x. weight x.0 + 8 * length x.1.now ≤ 8 * length tokens.now + 4) }
{
    match after(tokens, Punctuation::CloseBrace) {
        None => clause_move(alloc, select, head, OwnedStmts::empty(alloc), tokens),
        Some(_) => Ok((
            OwnedMove::clauses(alloc, select.grown(head, OwnedStmts::empty(alloc))?)?,
            tokens,
        )),
    }
}

/// Reads the colon after the head of a clause.
pub fn colon_move(
    alloc: Global,
    select: Select,
    head: Head,
    tokens: &[Token],
) -> Result<Option<(OwnedMove, &[Token])>, Memory>
    ensures value { IfOk result (λ o. moves_spec.moved o ≡ colon_at select head tokens.now) }
    ensures less { IfOk result (λ o. IfSome o (λ x. weight x.0 + 8 * length x.1.now < 8 * length tokens.now)) }
{
    match after(tokens, Punctuation::Colon) {
        None => Ok(None),
        Some(behind) => Ok(Some(headed_move(alloc, select, head, behind)?)),
    }
}

// Reads the communication after `case`. `line` is the line of `case`.
fn case_head(
    alloc: Global,
    select: Select,
    line: u32,
    tokens: &[Token],
) -> Result<Option<(OwnedMove, &[Token])>, Memory>
    ensures value { IfOk result (λ o. moves_spec.moved o ≡ selected_by select line (TokenKind.Keyword Keyword.Case) tokens.now) }
    ensures less { IfOk result (λ o. IfSome o (λ x. weight x.0 + 8 * length x.1.now ≤ 8 * length tokens.now)) }
{
    match comm_at(alloc, tokens)? {
        None => Ok(None),
        Some((communication, rest)) => {
            let head = Head {
                line,
                communication: Some(communication),
            };
            Ok(Some((OwnedMove::headed(alloc, select, head)?, rest)))
        }
    }
}

// Goes on after `default`. `line` is the line of `default`. A second `default` is not read.
fn default_head(
    alloc: Global,
    select: Select,
    line: u32,
    tokens: &[Token],
) -> Result<Option<(OwnedMove, &[Token])>, Memory>
    ensures value { IfOk result (λ o. moves_spec.moved o ≡ selected_by select line (TokenKind.Keyword Keyword.Default) tokens.now) }
    ensures less { IfOk result (λ o. IfSome o (λ x. weight x.0 + 8 * length x.1.now ≤ 8 * length tokens.now + 1)) }
{
    if select.has_default {
        return Ok(None);
    }
    let head = Head {
        line,
        communication: None,
    };
    Ok(Some((OwnedMove::headed(alloc, select, head)?, tokens)))
}

// Reads a clause by its keyword. `line` is the line of the keyword.
fn keyword_clause<'a>(
    alloc: Global,
    select: Select,
    line: u32,
    keyword: Keyword,
    behind: &'a [Token],
) -> Result<Option<(OwnedMove, &'a [Token])>, Memory>
    ensures value { IfOk result (λ o. moves_spec.moved o ≡ selected_by select line (TokenKind.Keyword keyword) behind.now) }
    ensures less { IfOk result (λ o. IfSome o (λ x. weight x.0 + 8 * length x.1.now ≤ 8 * length behind.now + 1)) }
{
    match keyword {
        Keyword::Case => case_head(alloc, select, line, behind),
        Keyword::Default => default_head(alloc, select, line, behind),
        _ => Ok(None),
    }
}

// Reads a clause by the kind of its first token, which is on this line, or the closing brace.
fn kind_clause<'a>(
    alloc: Global,
    select: Select,
    line: u32,
    kind: &TokenKind,
    behind: &'a [Token],
) -> Result<Option<(OwnedMove, &'a [Token])>, Memory>
    ensures value { IfOk result (λ o. moves_spec.moved o ≡ selected_by select line kind.now behind.now) }
    ensures less { IfOk result (λ o. IfSome o (λ x. weight x.0 + 8 * length x.1.now ≤ 8 * length behind.now + 1)) }
{
    match kind {
        TokenKind::Keyword(keyword) => keyword_clause(alloc, select, line, *keyword, behind),
        TokenKind::Punctuation(punctuation) => match punctuation {
            Punctuation::CloseBrace => Ok(Some((
                OwnedMove::found(alloc, select.whole(alloc)?)?,
                behind,
            ))),
            _ => Ok(None),
        },
        TokenKind::Name(_) | TokenKind::Integer(_) | TokenKind::Text(_) => Ok(None),
    }
}

/// Reads the remaining clauses of a `select`, and its closing brace.
pub fn clauses_move(
    alloc: Global,
    select: Select,
    tokens: &[Token],
) -> Result<Option<(OwnedMove, &[Token])>, Memory>
    ensures value { IfOk result (λ o. moves_spec.moved o ≡ selected select tokens.now) }
    ensures less { IfOk result (λ o. IfSome o (λ x. weight x.0 + 8 * length x.1.now < 8 * length tokens.now)) }
{
    match tokens.split_first() {
        None => Ok(None),
        Some((first, behind)) => kind_clause(alloc, select, first.line, &first.kind, behind),
    }
}
