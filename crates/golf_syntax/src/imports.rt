//! The reader of imports (Go specification, "Import declarations").
//!
//! An import has one path, or a list of paths in parentheses. A name before a path is not read.

ghost use Rattle.std.specs.Prelude.{◌≡◌, ◌<◌, length, IfOk, IfSome};
ghost use Rattle.golf_syntax_expressions.specs.Front.{seen};
ghost use Rattle.golf_syntax.specs.Many.{list_at};
ghost use Rattle.golf_syntax.specs.DeclarationReader as decl_spec;

use golf_base::{List, Memory};
use golf_lex_tokens::{Punctuation, Token, TokenKind};
use golf_syntax_expressions::{after, copied};
use golf_syntax_trees::Import;
use std::alloc::Global;

// Reads the path of an import.
fn text_at(alloc: Global, tokens: &[Token]) -> Result<Option<(List<u8>, &[Token])>, Memory>
    ensures value { IfOk result (λ o. seen o ≡ decl_spec.text_at tokens.now) }
    ensures shorter { IfOk result (λ o. IfSome o (λ x. length x.1.now < length tokens.now)) }
{
    match tokens.split_first() {
        None => Ok(None),
        Some((first, rest)) => match &first.kind {
            TokenKind::Text(path) => Ok(Some((copied(alloc, path)?, rest))),
            _ => Ok(None),
        },
    }
}

// Reads paths with semicolons between, up to the closing parenthesis.
fn texts_at(alloc: Global, tokens: &[Token]) -> Result<Option<(List<List<u8>>, &[Token])>, Memory>
    ensures value { IfOk result (λ o. seen o ≡ list_at decl_spec.text_at Punctuation.Semicolon Punctuation.CloseParen tokens.now) }
    ensures shorter { IfOk result (λ o. IfSome o (λ x. length x.1.now < length tokens.now)) }
{
    let mut paths = List::new(alloc);
    if let Some(rest) = after(tokens, Punctuation::CloseParen) {
        return Ok(Some((paths, rest)));
    }
    let mut left = tokens;
    'paths: loop {
        let Some((path, behind)) = text_at(alloc, left)? else {
            return Ok(None)
        };
        paths.push(path)?;
        match after(behind, Punctuation::Semicolon) {
            Some(next) => left = next,
            None => match after(behind, Punctuation::CloseParen) {
                None => return Ok(None),
                Some(rest) => return Ok(Some((paths, rest))),
            },
        }
    }
}

/// Reads the import after its keyword, which is on this line. Returns it and the tokens after it.
#[tactic(auto, unfolding(crate::specs::DeclarationReader::import_at))]
pub fn import_at(
    alloc: Global,
    line: u32,
    tokens: &[Token],
) -> Result<Option<(Import, &[Token])>, Memory>
    ensures value { IfOk result (λ o. seen o ≡ decl_spec.import_at line tokens.now) }
    ensures shorter { IfOk result (λ o. IfSome o (λ x. length x.1.now < length tokens.now)) }
{
    match after(tokens, Punctuation::OpenParen) {
        None => match text_at(alloc, tokens)? {
            None => Ok(None),
            Some((path, rest)) => Ok(Some((Import::One(line, path), rest))),
        },
        Some(inside) => match texts_at(alloc, inside)? {
            None => Ok(None),
            Some((paths, rest)) => Ok(Some((Import::Group(line, paths), rest))),
        },
    }
}
