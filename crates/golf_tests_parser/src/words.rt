//! The tokens of a text.

use golf_base::List;
use golf_lex_tokens::Token;
use std::alloc::Global;
use std::process::Abort;

/// Returns the tokens of bytes that lex.
pub(crate) fn lexed(rt: &impl Abort, alloc: Global, source: &[u8]) -> List<Token> {
    assert!(rt; source.len() < 100_000);
    match golf_lex::tokens(alloc, source) {
        Ok(list) => list,
        Err(_) => panic!(rt; "it does not lex"),
    }
}

/// Returns the tokens of a text that lexes.
pub(crate) fn tokens_of(rt: &impl Abort, alloc: Global, source: &str) -> List<Token> {
    lexed(rt, alloc, source.as_bytes())
}
