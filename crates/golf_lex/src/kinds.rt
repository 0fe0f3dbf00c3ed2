//! Kinds of tokens: which of them end a line, and the token of each lexeme.
//!
//! The automaton says in which state a lexeme ended. The state and the bytes of the lexeme give its token.

ghost use Rattle.std.specs.Prelude.{◌≡◌, IfOk};
ghost use Rattle.golf_lex_tokens.specs.Semicolons as semicolons_spec;
ghost use Rattle.golf_lex.specs.LexemeScan.{kind_at};
ghost use Rattle.golf_lex.specs.Words.{word_kind};

use crate::automaton::State;
use crate::strings::content;
use crate::words::keyword;
use golf_base::{List, Memory};
use golf_lex_tokens::{Keyword, Punctuation, TokenKind};
use std::alloc::Global;

/// Returns whether a newline after such a token stands for a semicolon.
pub(crate) fn may_end(kind: &TokenKind) -> bool
    ensures { result ≡ semicolons_spec.may_end kind.now }
{
    match kind {
        TokenKind::Name(_) | TokenKind::Integer(_) | TokenKind::Text(_) => true,
        TokenKind::Keyword(keyword) => keyword_may_end(*keyword),
        TokenKind::Punctuation(punctuation) => punctuation_may_end(*punctuation),
    }
}

/// Returns whether it is `;` or `,`. These are dropped right before `)` and `}`.
pub(crate) fn is_separator(kind: &TokenKind) -> bool
    ensures { result ≡ semicolons_spec.is_separator kind.now }
{
    matches!(
        kind,
        TokenKind::Punctuation(Punctuation::Semicolon | Punctuation::Comma)
    )
}

/// Returns whether it is `)` or `}`.
pub(crate) fn is_closing(kind: &TokenKind) -> bool
    ensures { result ≡ semicolons_spec.is_closing kind.now }
{
    matches!(
        kind,
        TokenKind::Punctuation(Punctuation::CloseParen | Punctuation::CloseBrace)
    )
}

fn keyword_may_end(keyword: Keyword) -> bool
    ensures { result ≡ semicolons_spec.may_end (TokenKind.Keyword keyword) }
{
    matches!(
        keyword,
        Keyword::Break | Keyword::Continue | Keyword::Return
    )
}

fn punctuation_may_end(punctuation: Punctuation) -> bool
    ensures { result ≡ semicolons_spec.may_end (TokenKind.Punctuation punctuation) }
{
    matches!(
        punctuation,
        Punctuation::Increment
            | Punctuation::Decrement
            | Punctuation::CloseParen
            | Punctuation::CloseBracket
            | Punctuation::CloseBrace
    )
}

fn copied(alloc: Global, bytes: &[u8]) -> Result<List<u8>, Memory>
    ensures { IfOk result (λ list. list ≡ bytes.now) }
{
    let mut list = List::new(alloc);
    list.extend_from_slice(bytes)?;
    Ok(list)
}

fn word(alloc: Global, bytes: &[u8]) -> Result<TokenKind, Memory>
    ensures { IfOk result (λ kind. kind ≡ word_kind bytes.now) }
{
    match keyword(bytes) {
        Some(keyword) => Ok(TokenKind::Keyword(keyword)),
        None => Ok(TokenKind::Name(copied(alloc, bytes)?)),
    }
}

/// Returns the token of a lexeme of these bytes that the automaton ended in this state. Returns `None` for a blank or a
/// comment.
pub(crate) fn kind(alloc: Global, state: State, bytes: &[u8]) -> Result<Option<TokenKind>, Memory>
    ensures { IfOk result (λ kind. kind ≡ kind_at state bytes.now) }
{
    match state {
        State::Word => Ok(Some(word(alloc, bytes)?)),
        State::Zero | State::Digits => Ok(Some(TokenKind::Integer(copied(alloc, bytes)?))),
        State::Text => Ok(Some(TokenKind::Text(content(alloc, bytes)?))),
        State::Punctuation(punctuation) => Ok(Some(TokenKind::Punctuation(punctuation))),
        State::Blank | State::LineComment | State::Closed => Ok(None),
        State::Quoted | State::Escaped | State::Bar | State::GeneralComment | State::Star => Ok(
            None,
        ),
    }
}
