//! The reader of values of constants (Go specification, "Constant declarations").
//!
//! A value is an integer, with or without `-`, a text, `true` or `false`. Other constant
//! expressions are not read.

ghost use Rattle.std.specs.Prelude.{◌≡◌, ◌<◌, ◌≤◌, length, IfOk, IfSome};
ghost use Rattle.golf_syntax_expressions.specs.Front.{seen};
ghost use Rattle.golf_syntax.specs.DeclarationReader as decl_spec;

use golf_base::{List, Memory};
use golf_lex_tokens::{Punctuation, Token, TokenKind};
use golf_syntax_expressions::copied;
use golf_syntax_trees::Const;
use std::alloc::Global;

// Reads an integer after a `-`.
fn negative_at(alloc: Global, tokens: &[Token]) -> Result<Option<(Const, &[Token])>, Memory>
    ensures value { IfOk result (λ o. seen o ≡ decl_spec.negative_at tokens.now) }
    ensures shorter { IfOk result (λ o. IfSome o (λ x. length x.1.now ≤ length tokens.now)) }
{
    match tokens.split_first() {
        None => Ok(None),
        Some((first, rest)) => match &first.kind {
            TokenKind::Integer(digits) => Ok(Some((Const::Negative(copied(alloc, digits)?), rest))),
            _ => Ok(None),
        },
    }
}

// Returns the constant `true` or `false` of this name, or `None` for another name.
fn named_const<'a>(name: &List<u8>, rest: &'a [Token]) -> Option<(Const, &'a [Token])>
    ensures value { seen result ≡ decl_spec.named_const name.now rest.now }
    ensures shorter { IfSome result (λ x. length x.1.now ≤ length rest.now) }
{
    if name.as_slice() == b"true".as_slice() {
        return Some((Const::True, rest));
    }
    if name.as_slice() == b"false".as_slice() {
        return Some((Const::False, rest));
    }
    None
}

fn const_of<'a>(
    alloc: Global,
    kind: &TokenKind,
    rest: &'a [Token],
) -> Result<Option<(Const, &'a [Token])>, Memory>
    ensures value { IfOk result (λ o. seen o ≡ decl_spec.const_of kind.now rest.now) }
    ensures shorter { IfOk result (λ o. IfSome o (λ x. length x.1.now ≤ length rest.now)) }
{
    match kind {
        TokenKind::Integer(digits) => Ok(Some((Const::Integer(copied(alloc, digits)?), rest))),
        TokenKind::Text(bytes) => Ok(Some((Const::Text(copied(alloc, bytes)?), rest))),
        TokenKind::Name(name) => Ok(named_const(name, rest)),
        TokenKind::Punctuation(Punctuation::Minus) => negative_at(alloc, rest),
        _ => Ok(None),
    }
}

/// Reads the value of a constant at the front. Returns it and the tokens after it.
#[tactic(auto, unfolding(crate::specs::DeclarationReader::const_at))]
pub fn const_at(alloc: Global, tokens: &[Token]) -> Result<Option<(Const, &[Token])>, Memory>
    ensures value { IfOk result (λ o. seen o ≡ decl_spec.const_at tokens.now) }
    ensures shorter { IfOk result (λ o. IfSome o (λ x. length x.1.now < length tokens.now)) }
{
    match tokens.split_first() {
        None => Ok(None),
        Some((first, rest)) => const_of(alloc, &first.kind, rest),
    }
}
