//! The readers of headers of `if` and `for` (Go specification, "If statements", "For statements").
//!
//! In a header no operand outside brackets begins with `&`, since a brace in it opens the body. A
//! post statement has no `:=`.

ghost use Rattle.std.specs.Prelude.{◌≡◌, ◌<◌, ◌≤◌, length, IfOk, IfSome};
ghost use Rattle.golf_syntax_trees.specs.Simple.{simple_form};
ghost use Rattle.golf_syntax_expressions.specs.Front as front_spec;
ghost use Rattle.golf_syntax_expressions.specs.Front.{seen};
ghost use Rattle.golf_syntax_statements.specs.HeaderReader as header_spec;
ghost use Rattle.golf_syntax_statements.specs.HeaderReader.{test_by, first_by};

use golf_base::Memory;
use golf_lex_tokens::{Keyword, Punctuation, Token};
use golf_syntax_expressions::{
    Context, after, after_keyword, copied, expression_at, name_at, simple_at,
};
use golf_syntax_trees::{
    Header, Name, OwnedExpr, OwnedHeader, OwnedSimple, OwnedSimpleKind, RangeNames, SimpleKind,
};
use std::alloc::Global;

/// A condition, with the simple statement before it, if there is one.
type Test = (Option<OwnedSimple>, OwnedExpr);

// Returns the expression of a simple statement, or `None` if it is no expression.
fn expression_of(kind: OwnedSimpleKind) -> Option<OwnedExpr>
    ensures { result ≡ header_spec.expression_of kind }
{
    match kind.into_inner() {
        SimpleKind::Expression(e) => Some(e),
        SimpleKind::Send(_, _)
        | SimpleKind::Increment(_)
        | SimpleKind::Decrement(_)
        | SimpleKind::Assign(_, _)
        | SimpleKind::Update(_, _, _)
        | SimpleKind::Define(_, _)
        | SimpleKind::DefineReceived(_, _, _)
        | SimpleKind::AssignReceived(_, _, _) => None,
    }
}

// Returns whether a simple statement has a `:=`.
fn defines(kind: &SimpleKind) -> bool
    ensures { result ≡ (simple_form kind.now).defines }
{
    match kind {
        SimpleKind::Define(_, _) | SimpleKind::DefineReceived(_, _, _) => true,
        SimpleKind::Expression(_)
        | SimpleKind::Send(_, _)
        | SimpleKind::Increment(_)
        | SimpleKind::Decrement(_)
        | SimpleKind::Assign(_, _)
        | SimpleKind::Update(_, _, _)
        | SimpleKind::AssignReceived(_, _, _) => false,
    }
}

// Reads the condition after the first simple statement of an `if`. Without a semicolon that
// statement is the condition.
fn test_behind(
    alloc: Global,
    first: OwnedSimple,
    tokens: &[Token],
) -> Result<Option<(Test, &[Token])>, Memory>
    ensures value { IfOk result (λ o. seen o ≡ test_by first tokens.now (front_spec.after Punctuation.Semicolon tokens.now)) }
    ensures shorter { IfOk result (λ o. IfSome o (λ x. length x.1.now ≤ length tokens.now)) }
{
    let Some(behind) = after(tokens, Punctuation::Semicolon) else {
        return match expression_of(first.into_inner().kind) {
            None => Ok(None),
            Some(test) => Ok(Some(((None, test), tokens))),
        };
    };
    match expression_at(alloc, Context::Header, behind)? {
        None => Ok(None),
        Some((test, rest)) => Ok(Some(((Some(first), test), rest))),
    }
}

/// Reads the header of an `if`: its condition, with the simple statement before it.
#[tactic(auto, unfolding(crate::specs::HeaderReader::test_at))]
pub fn test_at(alloc: Global, tokens: &[Token]) -> Result<Option<(Test, &[Token])>, Memory>
    ensures value { IfOk result (λ o. seen o ≡ header_spec.test_at tokens.now) }
    ensures shorter { IfOk result (λ o. IfSome o (λ x. length x.1.now < length tokens.now)) }
{
    match simple_at(alloc, Context::Header, tokens)? {
        None => Ok(None),
        Some((first, behind)) => test_behind(alloc, first, behind),
    }
}

// Reads the second of two names before a `range`.
fn two_names(
    alloc: Global,
    first: Name,
    tokens: &[Token],
) -> Result<Option<(RangeNames, &[Token])>, Memory>
    ensures value { IfOk result (λ o. seen o ≡ header_spec.two_names first tokens.now) }
    ensures shorter { IfOk result (λ o. IfSome o (λ x. length x.1.now < length tokens.now)) }
{
    let Some((second, behind)) = name_at(tokens) else {
        return Ok(None)
    };
    let Some(defined) = after(behind, Punctuation::Define) else {
        return Ok(None)
    };
    let Some(rest) = after_keyword(defined, Keyword::Range) else {
        return Ok(None)
    };
    Ok(Some((RangeNames::Two(first, copied(alloc, second)?), rest)))
}

// Reads the names before a `range`, and that keyword. Returns the names and the tokens after the
// keyword.
#[tactic(auto, unfolding(crate::specs::HeaderReader::names_at))]
fn names_at(alloc: Global, tokens: &[Token]) -> Result<Option<(RangeNames, &[Token])>, Memory>
    ensures value { IfOk result (λ o. seen o ≡ header_spec.names_at tokens.now) }
    ensures shorter { IfOk result (λ o. IfSome o (λ x. length x.1.now < length tokens.now)) }
{
    if let Some(rest) = after_keyword(tokens, Keyword::Range) {
        return Ok(Some((RangeNames::Neither, rest)));
    }
    let Some((name, behind)) = name_at(tokens) else {
        return Ok(None)
    };
    if let Some(defined) = after(behind, Punctuation::Define) {
        return match after_keyword(defined, Keyword::Range) {
            None => Ok(None),
            Some(rest) => Ok(Some((RangeNames::One(copied(alloc, name)?), rest))),
        };
    }
    match after(behind, Punctuation::Comma) {
        None => Ok(None),
        Some(next) => two_names(alloc, copied(alloc, name)?, next),
    }
}

// Reads the last part of a three-part header, from its semicolon on.
#[tactic(auto, unfolding(crate::specs::HeaderReader::post_at))]
fn post_at(
    alloc: Global,
    first: Option<OwnedSimple>,
    test: Option<OwnedExpr>,
    tokens: &[Token],
) -> Result<Option<(OwnedHeader, &[Token])>, Memory>
    ensures value { IfOk result (λ o. seen o ≡ header_spec.post_at first test tokens.now) }
    ensures shorter { IfOk result (λ o. IfSome o (λ x. length x.1.now < length tokens.now)) }
{
    let Some(behind) = after(tokens, Punctuation::Semicolon) else {
        return Ok(None)
    };
    match simple_at(alloc, Context::Header, behind)? {
        None => Ok(Some((OwnedHeader::new(Header::Steps(first, test, None)), behind))),
        Some((post, rest)) => {
            if defines(post.get().kind.get()) {
                return Ok(None);
            }
            Ok(Some((
                OwnedHeader::new(Header::Steps(first, test, Some(post))),
                rest,
            )))
        }
    }
}

// Reads a three-part header after its first semicolon.
#[tactic(auto, unfolding(crate::specs::HeaderReader::steps_at))]
fn steps_at(
    alloc: Global,
    first: Option<OwnedSimple>,
    tokens: &[Token],
) -> Result<Option<(OwnedHeader, &[Token])>, Memory>
    ensures value { IfOk result (λ o. seen o ≡ header_spec.steps_at first tokens.now) }
    ensures shorter { IfOk result (λ o. IfSome o (λ x. length x.1.now < length tokens.now)) }
{
    match expression_at(alloc, Context::Header, tokens)? {
        None => post_at(alloc, first, None, tokens),
        Some((test, behind)) => post_at(alloc, first, Some(test), behind),
    }
}

// Reads on after the first simple statement of a header.
fn first_behind(
    alloc: Global,
    first: OwnedSimple,
    tokens: &[Token],
) -> Result<Option<(OwnedHeader, &[Token])>, Memory>
    ensures value { IfOk result (λ o. seen o ≡ first_by first tokens.now (front_spec.after Punctuation.Semicolon tokens.now)) }
    ensures shorter { IfOk result (λ o. IfSome o (λ x. length x.1.now ≤ length tokens.now)) }
{
    if let Some(behind) = after(tokens, Punctuation::Semicolon) {
        return steps_at(alloc, Some(first), behind);
    }
    match expression_of(first.into_inner().kind) {
        None => Ok(None),
        Some(test) => Ok(Some((OwnedHeader::new(Header::While(test)), tokens))),
    }
}

// Reads a header without `range`.
#[tactic(auto, unfolding(crate::specs::HeaderReader::without_range_at))]
fn without_range_at(
    alloc: Global,
    tokens: &[Token],
) -> Result<Option<(OwnedHeader, &[Token])>, Memory>
    ensures value { IfOk result (λ o. seen o ≡ header_spec.without_range_at tokens.now) }
    ensures shorter { IfOk result (λ o. IfSome o (λ x. length x.1.now ≤ length tokens.now)) }
{
    if let Some((first, behind)) = simple_at(alloc, Context::Header, tokens)? {
        return first_behind(alloc, first, behind);
    }
    match after(tokens, Punctuation::Semicolon) {
        None => Ok(Some((OwnedHeader::new(Header::Forever), tokens))),
        Some(behind) => steps_at(alloc, None, behind),
    }
}

/// Reads the header of a `for`, up to its body. Returns it and the tokens after it.
#[tactic(auto, unfolding(crate::specs::HeaderReader::header_at))]
pub fn header_at(alloc: Global, tokens: &[Token]) -> Result<Option<(OwnedHeader, &[Token])>, Memory>
    ensures value { IfOk result (λ o. seen o ≡ header_spec.header_at tokens.now) }
    ensures shorter { IfOk result (λ o. IfSome o (λ x. length x.1.now ≤ length tokens.now)) }
{
    let Some((names, behind)) = names_at(alloc, tokens)? else {
        return without_range_at(alloc, tokens)
    };
    match expression_at(alloc, Context::Header, behind)? {
        None => Ok(None),
        Some((over, rest)) => Ok(Some((OwnedHeader::new(Header::Range(names, over)), rest))),
    }
}
