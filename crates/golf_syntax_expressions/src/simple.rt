//! The reader of simple statements (Go specification, "Statements").
//!
//! A name and `:=`, or two names, decide by the first tokens. Any other simple statement begins
//! with an expression, and the mark after it decides.

ghost use Rattle.std.specs.Prelude.{◌≡◌, ◌<◌, ◌≤◌, length, IfOk, IfSome};
ghost use Rattle.golf_syntax_expressions.specs.Front.{seen};
ghost use Rattle.golf_syntax_expressions.specs.Places as places_spec;
ghost use Rattle.golf_syntax_expressions.specs.SimpleStatementReader as simple_spec;
ghost use Rattle.golf_syntax_expressions.specs.SimpleStatementReader.{follow_of, second, received};

use crate::expressions::{level_at, prefixed_at};
use crate::front::{after, copied, name_at};
use crate::place::{Context, in_header};
use golf_base::Memory;
use golf_lex_tokens::{Punctuation, Token, TokenKind};
use golf_syntax_trees::{
    Name, OwnedExpr, OwnedSimple, OwnedSimpleKind, Simple, SimpleKind, UpdateOperator,
};
use std::alloc::Global;

/// What follows the first expression of a simple statement.
#[derive(Drop)]
pub enum Follow {
    Sends,
    Increments,
    Decrements,
    Assigns,
    Updates(UpdateOperator),
}

fn punctuation_follow(punctuation: Punctuation) -> Option<Follow>
    ensures { result ≡ follow_of punctuation }
{
    match punctuation {
        Punctuation::Arrow => Some(Follow::Sends),
        Punctuation::Increment => Some(Follow::Increments),
        Punctuation::Decrement => Some(Follow::Decrements),
        Punctuation::Assign => Some(Follow::Assigns),
        Punctuation::PlusAssign => Some(Follow::Updates(UpdateOperator::Add)),
        Punctuation::MinusAssign => Some(Follow::Updates(UpdateOperator::Subtract)),
        Punctuation::StarAssign => Some(Follow::Updates(UpdateOperator::Multiply)),
        Punctuation::SlashAssign => Some(Follow::Updates(UpdateOperator::Divide)),
        Punctuation::PercentAssign => Some(Follow::Updates(UpdateOperator::Remainder)),
        _ => None,
    }
}

#[tactic(auto, unfolding(crate::specs::SimpleStatementReader::follow_at))]
fn follow_at(tokens: &[Token]) -> Option<(Follow, &[Token])>
    ensures value { seen result ≡ simple_spec.follow_at tokens.now }
    ensures shorter { IfSome result (λ x. length x.1.now < length tokens.now) }
{
    match tokens.split_first() {
        None => None,
        Some((first, rest)) => match &first.kind {
            TokenKind::Punctuation(punctuation) => match punctuation_follow(*punctuation) {
                Some(follow) => Some((follow, rest)),
                None => None,
            },
            _ => None,
        },
    }
}

// Reads the value after `<-`.
fn sent(
    alloc: Global,
    header: bool,
    channel: OwnedExpr,
    tokens: &[Token],
) -> Result<Option<(OwnedSimpleKind, &[Token])>, Memory>
    ensures value { IfOk result (λ o. seen o ≡ second header (SimpleKind.Send channel) tokens.now) }
    ensures shorter { IfOk result (λ o. IfSome o (λ x. length x.1.now ≤ length tokens.now)) }
{
    match level_at(alloc, header, 1, tokens)? {
        None => Ok(None),
        Some((value, rest)) => Ok(Some((
            OwnedSimpleKind::new(SimpleKind::Send(channel, value)),
            rest,
        ))),
    }
}

// Reads the value after `=`.
fn assigned(
    alloc: Global,
    header: bool,
    place: OwnedExpr,
    tokens: &[Token],
) -> Result<Option<(OwnedSimpleKind, &[Token])>, Memory>
    ensures value { IfOk result (λ o. seen o ≡ second header (SimpleKind.Assign place) tokens.now) }
    ensures shorter { IfOk result (λ o. IfSome o (λ x. length x.1.now ≤ length tokens.now)) }
{
    match level_at(alloc, header, 1, tokens)? {
        None => Ok(None),
        Some((value, rest)) => Ok(Some((
            OwnedSimpleKind::new(SimpleKind::Assign(place, value)),
            rest,
        ))),
    }
}

// Reads the value after `+=` and its like.
fn updated(
    alloc: Global,
    header: bool,
    place: OwnedExpr,
    operator: UpdateOperator,
    tokens: &[Token],
) -> Result<Option<(OwnedSimpleKind, &[Token])>, Memory>
    ensures value { IfOk result (λ o. seen o ≡ second header (SimpleKind.Update place operator) tokens.now) }
    ensures shorter { IfOk result (λ o. IfSome o (λ x. length x.1.now ≤ length tokens.now)) }
{
    match level_at(alloc, header, 1, tokens)? {
        None => Ok(None),
        Some((value, rest)) => Ok(Some((
            OwnedSimpleKind::new(SimpleKind::Update(place, operator, value)),
            rest,
        ))),
    }
}

// Reads what follows the first expression.
fn followed(
    alloc: Global,
    header: bool,
    first: OwnedExpr,
    follow: Follow,
    tokens: &[Token],
) -> Result<Option<(OwnedSimpleKind, &[Token])>, Memory>
    ensures value { IfOk result (λ o. seen o ≡ simple_spec.followed header first follow tokens.now) }
    ensures shorter { IfOk result (λ o. IfSome o (λ x. length x.1.now ≤ length tokens.now)) }
{
    match follow {
        Follow::Increments => Ok(Some((
            OwnedSimpleKind::new(SimpleKind::Increment(first)),
            tokens,
        ))),
        Follow::Decrements => Ok(Some((
            OwnedSimpleKind::new(SimpleKind::Decrement(first)),
            tokens,
        ))),
        Follow::Sends => sent(alloc, header, first, tokens),
        Follow::Assigns => assigned(alloc, header, first, tokens),
        Follow::Updates(operator) => updated(alloc, header, first, operator, tokens),
    }
}

// Reads a simple statement that begins with an expression.
#[tactic(auto, unfolding(crate::specs::SimpleStatementReader::expression_at))]
fn expression_at(
    alloc: Global,
    header: bool,
    tokens: &[Token],
) -> Result<Option<(OwnedSimpleKind, &[Token])>, Memory>
    ensures value { IfOk result (λ o. seen o ≡ simple_spec.expression_at header tokens.now) }
    ensures shorter { IfOk result (λ o. IfSome o (λ x. length x.1.now < length tokens.now)) }
{
    match level_at(alloc, header, 1, tokens)? {
        None => Ok(None),
        Some((first, behind)) => match follow_at(behind) {
            None => Ok(Some((OwnedSimpleKind::new(SimpleKind::Expression(first)), behind))),
            Some((follow, rest)) => followed(alloc, header, first, follow, rest),
        },
    }
}

// Reads `<-channel` after two names and `:=`.
fn defined_pair(
    alloc: Global,
    header: bool,
    name: Name,
    ok: Name,
    tokens: &[Token],
) -> Result<Option<(OwnedSimpleKind, &[Token])>, Memory>
    ensures value { IfOk result (λ o. seen o ≡ received header (SimpleKind.DefineReceived name ok) tokens.now) }
    ensures shorter { IfOk result (λ o. IfSome o (λ x. length x.1.now < length tokens.now)) }
{
    let Some(arrow) = after(tokens, Punctuation::Arrow) else {
        return Ok(None)
    };
    match prefixed_at(alloc, header, arrow)? {
        None => Ok(None),
        Some((channel, rest)) => Ok(Some((
            OwnedSimpleKind::new(SimpleKind::DefineReceived(name, ok, channel)),
            rest,
        ))),
    }
}

// Reads `<-channel` after two names and `=`.
fn assigned_pair(
    alloc: Global,
    header: bool,
    name: Name,
    ok: Name,
    tokens: &[Token],
) -> Result<Option<(OwnedSimpleKind, &[Token])>, Memory>
    ensures value { IfOk result (λ o. seen o ≡ received header (SimpleKind.AssignReceived name ok) tokens.now) }
    ensures shorter { IfOk result (λ o. IfSome o (λ x. length x.1.now < length tokens.now)) }
{
    let Some(arrow) = after(tokens, Punctuation::Arrow) else {
        return Ok(None)
    };
    match prefixed_at(alloc, header, arrow)? {
        None => Ok(None),
        Some((channel, rest)) => Ok(Some((
            OwnedSimpleKind::new(SimpleKind::AssignReceived(name, ok, channel)),
            rest,
        ))),
    }
}

// Reads `ok := <-channel` or `ok = <-channel` after a name and its comma.
#[tactic(auto, unfolding(crate::specs::SimpleStatementReader::pair_at))]
fn pair_at(
    alloc: Global,
    header: bool,
    name: Name,
    tokens: &[Token],
) -> Result<Option<(OwnedSimpleKind, &[Token])>, Memory>
    ensures value { IfOk result (λ o. seen o ≡ simple_spec.pair_at header name tokens.now) }
    ensures shorter { IfOk result (λ o. IfSome o (λ x. length x.1.now < length tokens.now)) }
{
    let Some((ok, behind)) = name_at(tokens) else {
        return Ok(None)
    };
    let ok = copied(alloc, ok)?;
    if let Some(defined) = after(behind, Punctuation::Define) {
        return defined_pair(alloc, header, name, ok, defined);
    }
    match after(behind, Punctuation::Assign) {
        None => Ok(None),
        Some(assigned) => assigned_pair(alloc, header, name, ok, assigned),
    }
}

// Reads the value after a name and `:=`.
fn defined(
    alloc: Global,
    header: bool,
    name: Name,
    tokens: &[Token],
) -> Result<Option<(OwnedSimpleKind, &[Token])>, Memory>
    ensures value { IfOk result (λ o. seen o ≡ second header (SimpleKind.Define name) tokens.now) }
    ensures shorter { IfOk result (λ o. IfSome o (λ x. length x.1.now ≤ length tokens.now)) }
{
    match level_at(alloc, header, 1, tokens)? {
        None => Ok(None),
        Some((value, rest)) => Ok(Some((
            OwnedSimpleKind::new(SimpleKind::Define(name, value)),
            rest,
        ))),
    }
}

// Reads a simple statement without its line.
#[tactic(auto, unfolding(crate::specs::SimpleStatementReader::kind_at))]
fn kind_at(
    alloc: Global,
    header: bool,
    tokens: &[Token],
) -> Result<Option<(OwnedSimpleKind, &[Token])>, Memory>
    ensures value { IfOk result (λ o. seen o ≡ simple_spec.kind_at header tokens.now) }
    ensures shorter { IfOk result (λ o. IfSome o (λ x. length x.1.now < length tokens.now)) }
{
    let Some((name, behind)) = name_at(tokens) else {
        return expression_at(alloc, header, tokens)
    };
    if let Some(value) = after(behind, Punctuation::Define) {
        return defined(alloc, header, copied(alloc, name)?, value);
    }
    match after(behind, Punctuation::Comma) {
        Some(next) => pair_at(alloc, header, copied(alloc, name)?, next),
        None => expression_at(alloc, header, tokens),
    }
}

/// Reads the simple statement at the front. It has the line of its first token. Returns it and the
/// tokens after it.
#[tactic(auto, unfolding(crate::specs::SimpleStatementReader::simple_at))]
pub fn simple_at(
    alloc: Global,
    place: Context,
    tokens: &[Token],
) -> Result<Option<(OwnedSimple, &[Token])>, Memory>
    ensures value { IfOk result (λ o. seen o ≡ simple_spec.simple_at (places_spec.in_header place) tokens.now) }
    ensures shorter { IfOk result (λ o. IfSome o (λ x. length x.1.now < length tokens.now)) }
{
    match tokens.split_first() {
        None => Ok(None),
        Some((first, _)) => match kind_at(alloc, in_header(place), tokens)? {
            None => Ok(None),
            Some((kind, rest)) => Ok(Some((
                OwnedSimple::new(Simple {
                    line: first.line,
                    kind,
                }),
                rest,
            ))),
        },
    }
}
