//! The tokens of a file: a line for each line of the file that has one.

use crate::page::Page;
use golf_lex_tokens::{Token, TokenKind};

fn tell_kind(page: &mut Page, kind: &TokenKind) {
    match kind {
        TokenKind::Name(bytes) => page.named("Name", bytes.as_slice()),
        TokenKind::Integer(bytes) => page.named("Integer", bytes.as_slice()),
        TokenKind::Text(bytes) => page.named("Text", bytes.as_slice()),
        TokenKind::Keyword(keyword) => page.show(keyword),
        TokenKind::Punctuation(mark) => page.show(mark),
    }
}

/// Tells the tokens, each line with the number of its line in the file.
pub(crate) fn tell_tokens(page: &mut Page, tokens: &[Token]) {
    let mut line = 0;
    for token in tokens {
        if token.line != line {
            if line != 0 {
                page.say("\n");
            }
            line = token.line;
            page.show(&line);
            page.say(":");
        }
        page.say(" ");
        tell_kind(page, &token.kind);
    }
    page.say("\n");
}
