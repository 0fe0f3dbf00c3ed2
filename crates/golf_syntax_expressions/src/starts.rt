//! How operands begin, and which suffixes follow them.
//!
//! Nothing here reads an expression inside brackets: a `Start` or a `Suffix` says that one follows.

ghost use Rattle.std.specs.Prelude.{◌≡◌, ◌<◌, ◌≤◌, length, IfOk, IfSome};
ghost use Rattle.golf_syntax_expressions.specs.Front.{seen};
ghost use Rattle.golf_syntax_expressions.specs.Starts as starts_spec;

use crate::front::{after, copied, name_at};
use crate::types::type_at;
use golf_base::{List, Memory};
use golf_lex_tokens::{Keyword, Punctuation, Token, TokenKind};
use golf_syntax_trees::{Name, OwnedElements, OwnedExpr, OwnedExprs, OwnedType};
use std::alloc::Global;

/// How an operand begins: it is whole already, or the content of its brackets follows.
#[derive(Drop)]
pub enum Start {
    Whole(OwnedExpr),
    /// `(`
    Group,
    /// `make(T,`
    Sized(OwnedType),
    /// `[]T{`
    Items(OwnedType),
    /// `&T{`
    Elements(Name),
}

/// A suffix of an operand.
#[derive(Drop)]
pub enum Suffix {
    /// `.f`
    Field(Name),
    /// `[`
    Index,
    /// `()`
    NoArguments,
    /// `(`
    Arguments,
}

// Reads `(T)` or `(T,` after `make`.
#[tactic(auto, unfolding(crate::specs::Starts::make_start))]
fn make_start(alloc: Global, tokens: &[Token]) -> Result<Option<(Start, &[Token])>, Memory>
    ensures value { IfOk result (λ o. seen o ≡ starts_spec.make_start tokens.now) }
    ensures shorter { IfOk result (λ o. IfSome o (λ x. length x.1.now ≤ length tokens.now)) }
{
    let Some(inside) = after(tokens, Punctuation::OpenParen) else {
        return Ok(None)
    };
    match type_at(alloc, inside)? {
        None => Ok(None),
        Some((made, behind)) => match after(behind, Punctuation::Comma) {
            Some(next) => Ok(Some((Start::Sized(made), next))),
            None => match after(behind, Punctuation::CloseParen) {
                None => Ok(None),
                Some(rest) => Ok(Some((Start::Whole(OwnedExpr::make(made)), rest))),
            },
        },
    }
}

// Reads `(T)` or `(sync.T)` after `new`.
#[tactic(auto, unfolding(crate::specs::Starts::new_start))]
fn new_start(alloc: Global, tokens: &[Token]) -> Result<Option<(Start, &[Token])>, Memory>
    ensures value { IfOk result (λ o. seen o ≡ starts_spec.new_start tokens.now) }
    ensures shorter { IfOk result (λ o. IfSome o (λ x. length x.1.now ≤ length tokens.now)) }
{
    let Some(inside) = after(tokens, Punctuation::OpenParen) else {
        return Ok(None)
    };
    let Some((name, behind)) = name_at(inside) else {
        return Ok(None)
    };
    match after(behind, Punctuation::Dot) {
        None => match after(behind, Punctuation::CloseParen) {
            None => Ok(None),
            Some(rest) => Ok(Some((Start::Whole(OwnedExpr::new_of(copied(alloc, name)?)), rest))),
        },
        Some(dotted) => {
            if name.as_slice() != b"sync".as_slice() {
                return Ok(None);
            }
            let Some((inner, last)) = name_at(dotted) else {
                return Ok(None)
            };
            match after(last, Punctuation::CloseParen) {
                None => Ok(None),
                Some(rest) => Ok(Some((
                    Start::Whole(OwnedExpr::new_sync(copied(alloc, inner)?)),
                    rest,
                ))),
            }
        }
    }
}

// Reads `{}{}` after `struct`.
#[tactic(auto, unfolding(crate::specs::Starts::empty_start))]
fn empty_start(tokens: &[Token]) -> Option<(Start, &[Token])>
    ensures value { seen result ≡ starts_spec.empty_start tokens.now }
    ensures shorter { IfSome result (λ x. length x.1.now ≤ length tokens.now) }
{
    let a = after(tokens, Punctuation::OpenBrace)?;
    let b = after(a, Punctuation::CloseBrace)?;
    let c = after(b, Punctuation::OpenBrace)?;
    let d = after(c, Punctuation::CloseBrace)?;
    Some((Start::Whole(OwnedExpr::empty_literal()), d))
}

// Reads `]T{` or `]T{}` after `[`.
#[tactic(auto, unfolding(crate::specs::Starts::slice_start))]
fn slice_start(alloc: Global, tokens: &[Token]) -> Result<Option<(Start, &[Token])>, Memory>
    ensures value { IfOk result (λ o. seen o ≡ starts_spec.slice_start tokens.now) }
    ensures shorter { IfOk result (λ o. IfSome o (λ x. length x.1.now ≤ length tokens.now)) }
{
    let Some(inside) = after(tokens, Punctuation::CloseBracket) else {
        return Ok(None)
    };
    match type_at(alloc, inside)? {
        None => Ok(None),
        Some((element, behind)) => match after(behind, Punctuation::OpenBrace) {
            None => Ok(None),
            Some(opened) => match after(opened, Punctuation::CloseBrace) {
                Some(rest) => Ok(Some((
                    Start::Whole(OwnedExpr::slice_literal(element, OwnedExprs::empty(alloc))),
                    rest,
                ))),
                None => Ok(Some((Start::Items(element), opened))),
            },
        },
    }
}

// Reads `T{}` after `&sync.`.
#[tactic(auto, unfolding(crate::specs::Starts::sync_start))]
fn sync_start<'a>(
    alloc: Global,
    name: &List<u8>,
    tokens: &'a [Token],
) -> Result<Option<(Start, &'a [Token])>, Memory>
    ensures value { IfOk result (λ o. seen o ≡ starts_spec.sync_start name.now tokens.now) }
    ensures shorter { IfOk result (λ o. IfSome o (λ x. length x.1.now ≤ length tokens.now)) }
{
    if name.as_slice() != b"sync".as_slice() {
        return Ok(None);
    }
    let Some((inner, behind)) = name_at(tokens) else {
        return Ok(None)
    };
    let Some(inside) = after(behind, Punctuation::OpenBrace) else {
        return Ok(None)
    };
    match after(inside, Punctuation::CloseBrace) {
        None => Ok(None),
        Some(rest) => Ok(Some((
            Start::Whole(OwnedExpr::sync_literal(copied(alloc, inner)?)),
            rest,
        ))),
    }
}

// Reads `T{`, `T{}` or `sync.T{}` after `&`.
#[tactic(auto, unfolding(crate::specs::Starts::literal_start))]
fn literal_start(alloc: Global, tokens: &[Token]) -> Result<Option<(Start, &[Token])>, Memory>
    ensures value { IfOk result (λ o. seen o ≡ starts_spec.literal_start tokens.now) }
    ensures shorter { IfOk result (λ o. IfSome o (λ x. length x.1.now ≤ length tokens.now)) }
{
    let Some((name, behind)) = name_at(tokens) else {
        return Ok(None)
    };
    if let Some(dotted) = after(behind, Punctuation::Dot) {
        return sync_start(alloc, name, dotted);
    }
    match after(behind, Punctuation::OpenBrace) {
        None => Ok(None),
        Some(opened) => {
            let copy = copied(alloc, name)?;
            match after(opened, Punctuation::CloseBrace) {
                Some(rest) => Ok(Some((
                    Start::Whole(OwnedExpr::struct_literal(copy, OwnedElements::empty(alloc))),
                    rest,
                ))),
                None => Ok(Some((Start::Elements(copy), opened))),
            }
        }
    }
}

#[tactic(auto, unfolding(crate::specs::Starts::punctuation_start))]
fn punctuation_start(
    alloc: Global,
    header: bool,
    punctuation: Punctuation,
    rest: &[Token],
) -> Result<Option<(Start, &[Token])>, Memory>
    ensures value { IfOk result (λ o. seen o ≡ starts_spec.punctuation_start header punctuation rest.now) }
    ensures shorter { IfOk result (λ o. IfSome o (λ x. length x.1.now ≤ length rest.now)) }
{
    match punctuation {
        Punctuation::OpenParen => Ok(Some((Start::Group, rest))),
        Punctuation::OpenBracket => slice_start(alloc, rest),
        Punctuation::Ampersand => if header {
            Ok(None)
        } else {
            literal_start(alloc, rest)
        },
        _ => Ok(None),
    }
}

#[tactic(auto, unfolding(crate::specs::Starts::named_start))]
fn named_start<'a>(
    alloc: Global,
    name: &List<u8>,
    rest: &'a [Token],
) -> Result<Option<(Start, &'a [Token])>, Memory>
    ensures value { IfOk result (λ o. seen o ≡ starts_spec.named_start name.now rest.now) }
    ensures shorter { IfOk result (λ o. IfSome o (λ x. length x.1.now ≤ length rest.now)) }
{
    if name.as_slice() == b"make".as_slice() {
        return make_start(alloc, rest);
    }
    if name.as_slice() == b"new".as_slice() {
        return new_start(alloc, rest);
    }
    Ok(Some((Start::Whole(OwnedExpr::name(copied(alloc, name)?)), rest)))
}

#[tactic(auto, unfolding(crate::specs::Starts::start_from))]
fn start_from<'a>(
    alloc: Global,
    header: bool,
    kind: &TokenKind,
    rest: &'a [Token],
) -> Result<Option<(Start, &'a [Token])>, Memory>
    ensures value { IfOk result (λ o. seen o ≡ starts_spec.start_from header kind.now rest.now) }
    ensures shorter { IfOk result (λ o. IfSome o (λ x. length x.1.now ≤ length rest.now)) }
{
    match kind {
        TokenKind::Integer(digits) => Ok(Some((
            Start::Whole(OwnedExpr::integer(copied(alloc, digits)?)),
            rest,
        ))),
        TokenKind::Text(bytes) => Ok(Some((
            Start::Whole(OwnedExpr::text(copied(alloc, bytes)?)),
            rest,
        ))),
        TokenKind::Name(name) => named_start(alloc, name, rest),
        TokenKind::Keyword(keyword) => match keyword {
            Keyword::Struct => Ok(empty_start(rest)),
            _ => Ok(None),
        },
        TokenKind::Punctuation(punctuation) => punctuation_start(alloc, header, *punctuation, rest),
    }
}

/// Reads the beginning of the operand at the front. Returns it and the tokens after it. In a header no operand begins
/// with `&`.
#[tactic(auto, unfolding(crate::specs::Starts::start_at))]
pub fn start_at(
    alloc: Global,
    header: bool,
    tokens: &[Token],
) -> Result<Option<(Start, &[Token])>, Memory>
    ensures value { IfOk result (λ o. seen o ≡ starts_spec.start_at header tokens.now) }
    ensures shorter { IfOk result (λ o. IfSome o (λ x. length x.1.now < length tokens.now)) }
{
    match tokens.split_first() {
        None => Ok(None),
        Some((first, rest)) => start_from(alloc, header, &first.kind, rest),
    }
}

// Reads `(` or `()`.
#[tactic(auto, unfolding(crate::specs::Starts::call_at))]
fn call_at(tokens: &[Token]) -> Option<(Suffix, &[Token])>
    ensures value { seen result ≡ starts_spec.call_at tokens.now }
    ensures shorter { IfSome result (λ x. length x.1.now < length tokens.now) }
{
    match after(tokens, Punctuation::OpenParen) {
        None => None,
        Some(opened) => match after(opened, Punctuation::CloseParen) {
            Some(rest) => Some((Suffix::NoArguments, rest)),
            None => Some((Suffix::Arguments, opened)),
        },
    }
}

/// Reads the suffix at the front. Returns it and the tokens after it, or `None` if there is none.
#[tactic(auto, unfolding(crate::specs::Starts::suffix_at))]
pub fn suffix_at(alloc: Global, tokens: &[Token]) -> Result<Option<(Suffix, &[Token])>, Memory>
    ensures value { IfOk result (λ o. seen o ≡ starts_spec.suffix_at tokens.now) }
    ensures shorter { IfOk result (λ o. IfSome o (λ x. length x.1.now < length tokens.now)) }
{
    if let Some(dotted) = after(tokens, Punctuation::Dot) {
        return match name_at(dotted) {
            None => Ok(None),
            Some((name, rest)) => Ok(Some((Suffix::Field(copied(alloc, name)?), rest))),
        };
    }
    match after(tokens, Punctuation::OpenBracket) {
        Some(opened) => Ok(Some((Suffix::Index, opened))),
        None => Ok(call_at(tokens)),
    }
}
