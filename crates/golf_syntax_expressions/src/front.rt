//! The front of a list of tokens: punctuation marks, keywords and names.
//!
//! Each call except for `copied` looks at the first token only. It returns the tokens after it, or
//! `None` if the token is another one.

ghost use Rattle.std.specs.Prelude.{◌≡◌, ◌<◌, length, IfOk, IfSome, option_map};
ghost use Rattle.golf_syntax_expressions.specs.Front as front_spec;

use golf_base::{List, Memory};
use golf_lex_tokens::{Keyword, Punctuation, Token, TokenKind};
use std::alloc::Global;

/// Returns the tokens after this punctuation mark, or `None` if the tokens do not begin with it.
pub fn after(tokens: &[Token], punctuation: Punctuation) -> Option<&[Token]>
    ensures value { option_map (λ r. r.now) result ≡ front_spec.after punctuation tokens.now }
    ensures shorter { IfSome result (λ r. length r.now < length tokens.now) }
{
    match tokens.split_first() {
        None => None,
        Some((first, rest)) => match &first.kind {
            TokenKind::Punctuation(found) => if *found == punctuation {
                Some(rest)
            } else {
                None
            },
            _ => None,
        },
    }
}

/// Returns the tokens after this keyword, or `None` if the tokens do not begin with it.
pub fn after_keyword(tokens: &[Token], keyword: Keyword) -> Option<&[Token]>
    ensures value { option_map (λ r. r.now) result ≡ front_spec.after_keyword keyword tokens.now }
    ensures shorter { IfSome result (λ r. length r.now < length tokens.now) }
{
    match tokens.split_first() {
        None => None,
        Some((first, rest)) => match &first.kind {
            TokenKind::Keyword(found) => if *found == keyword { Some(rest) } else { None },
            _ => None,
        },
    }
}

/// Returns a copy of the bytes.
pub fn copied(alloc: Global, bytes: &List<u8>) -> Result<List<u8>, Memory>
    ensures { IfOk result (λ copy. copy ≡ bytes.now) }
{
    let mut copy = List::new(alloc);
    copy.extend_from_slice(bytes.as_slice())?;
    Ok(copy)
}

/// Returns the name at the front and the tokens after it, or `None` if there is none.
pub fn name_at(tokens: &[Token]) -> Option<(&List<u8>, &[Token])>
    ensures value { option_map (λ x. (x.0.now, x.1.now)) result ≡ front_spec.name_at tokens.now }
    ensures shorter { IfSome result (λ x. length x.1.now < length tokens.now) }
{
    match tokens.split_first() {
        None => None,
        Some((first, rest)) => match &first.kind {
            TokenKind::Name(name) => Some((name, rest)),
            _ => None,
        },
    }
}
