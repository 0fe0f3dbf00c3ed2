//! The reader of types (Go specification, "Types").
//!
//! It recurs for the type inside another one. The cost of tokens bounds how deep types are.

ghost use Rattle.std.specs.Prelude.{◌≡◌, ◌<◌, ◌≤◌, length, IfOk, IfSome};
ghost use Rattle.golf_syntax_expressions.specs.Plan.{run};
ghost use Rattle.golf_syntax_expressions.specs.Front.{seen};
ghost use Rattle.golf_syntax_expressions.specs.TypeReader as type_spec;
ghost use Rattle.golf_syntax_expressions.specs.TypeReader.{OfType};

use crate::front::{after, after_keyword, copied, name_at};
use golf_base::Memory;
use golf_lex_tokens::{Keyword, Punctuation, Token, TokenKind};
use golf_syntax_trees::OwnedType;
use std::alloc::Global;

// Reads `n` or `sync.m` after a star.
fn pointer(alloc: Global, tokens: &[Token]) -> Result<Option<(OwnedType, &[Token])>, Memory>
    ensures value { IfOk result (λ o. seen o ≡ type_spec.pointer tokens.now) }
    ensures shorter { IfOk result (λ o. IfSome o (λ x. length x.1.now < length tokens.now)) }
{
    match name_at(tokens) {
        None => Ok(None),
        Some((name, rest)) => {
            let copy = copied(alloc, name)?;
            if name.as_slice() != b"sync".as_slice() {
                return Ok(Some((OwnedType::pointer(copy), rest)));
            }
            match after(rest, Punctuation::Dot) {
                None => Ok(Some((OwnedType::pointer(copy), rest))),
                Some(behind) => match name_at(behind) {
                    None => Ok(None),
                    Some((inner, last)) => Ok(Some((
                        OwnedType::sync_pointer(copied(alloc, inner)?),
                        last,
                    ))),
                },
            }
        }
    }
}

// Reads `{}` after `struct`.
fn empty_struct(tokens: &[Token]) -> Option<(OwnedType, &[Token])>
    ensures value { seen result ≡ type_spec.empty_struct tokens.now }
    ensures shorter { IfSome result (λ x. length x.1.now < length tokens.now) }
{
    let rest = after(tokens, Punctuation::OpenBrace)?;
    let last = after(rest, Punctuation::CloseBrace)?;
    Some((OwnedType::empty_struct(), last))
}

#[cycle(types)]
fn type_from_keyword(
    alloc: Global,
    keyword: Keyword,
    rest: &[Token],
) -> Result<Option<(OwnedType, &[Token])>, Memory>
    ensures value { IfOk result (λ o. seen o ≡ run type_spec.type_at (type_spec.type_from_keyword keyword rest.now)) }
    ensures shorter { IfOk result (λ o. IfSome o (λ x. length x.1.now ≤ length rest.now)) }
{
    match keyword {
        Keyword::Struct => Ok(empty_struct(rest)),
        Keyword::Chan => match after(rest, Punctuation::Arrow) {
            None => match type_at(alloc, rest)? {
                None => Ok(None),
                Some((inner, last)) => Ok(Some((OwnedType::chan(alloc, inner)?, last))),
            },
            Some(behind) => match type_at(alloc, behind)? {
                None => Ok(None),
                Some((inner, last)) => Ok(Some((OwnedType::send_chan(alloc, inner)?, last))),
            },
        },
        _ => Ok(None),
    }
}

#[cycle(types)]
fn type_from_punctuation(
    alloc: Global,
    punctuation: Punctuation,
    rest: &[Token],
) -> Result<Option<(OwnedType, &[Token])>, Memory>
    ensures value { IfOk result (λ o. seen o ≡ run type_spec.type_at (type_spec.type_from_punctuation punctuation rest.now)) }
    ensures shorter { IfOk result (λ o. IfSome o (λ x. length x.1.now ≤ length rest.now)) }
{
    match punctuation {
        Punctuation::Star => pointer(alloc, rest),
        Punctuation::OpenBracket => match after(rest, Punctuation::CloseBracket) {
            None => Ok(None),
            Some(behind) => match type_at(alloc, behind)? {
                None => Ok(None),
                Some((inner, last)) => Ok(Some((OwnedType::slice(alloc, inner)?, last))),
            },
        },
        Punctuation::Arrow => match after_keyword(rest, Keyword::Chan) {
            None => Ok(None),
            Some(behind) => match type_at(alloc, behind)? {
                None => Ok(None),
                Some((inner, last)) => Ok(Some((OwnedType::receive_chan(alloc, inner)?, last))),
            },
        },
        _ => Ok(None),
    }
}

#[cycle(types)]
fn type_from<'a>(
    alloc: Global,
    kind: &TokenKind,
    rest: &'a [Token],
) -> Result<Option<(OwnedType, &'a [Token])>, Memory>
    ensures value { IfOk result (λ o. seen o ≡ run type_spec.type_at (type_spec.type_from kind.now rest.now)) }
    ensures shorter { IfOk result (λ o. IfSome o (λ x. length x.1.now ≤ length rest.now)) }
{
    match kind {
        TokenKind::Name(name) => Ok(Some((OwnedType::named(copied(alloc, name)?), rest))),
        TokenKind::Keyword(keyword) => type_from_keyword(alloc, *keyword, rest),
        TokenKind::Punctuation(punctuation) => type_from_punctuation(alloc, *punctuation, rest),
        _ => Ok(None),
    }
}

/// Reads the type at the front. Returns it and the tokens after it, or `None` if there is none.
#[cycle(types)]
#[tactic(auto, using(crate::proofs::TypeSteps::type_steps))]
pub fn type_at(alloc: Global, tokens: &[Token]) -> Result<Option<(OwnedType, &[Token])>, Memory>
    ensures value { IfOk result (λ o. seen o ≡ type_spec.type_at OfType tokens.now) }
    ensures shorter { IfOk result (λ o. IfSome o (λ x. length x.1.now < length tokens.now)) }
{
    match tokens.split_first() {
        None => Ok(None),
        Some((first, rest)) => type_from(alloc, &first.kind, rest),
    }
}
