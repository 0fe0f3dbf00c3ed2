//! The first segment of a list of tokens.
//!
//! It ends with the first semicolon outside all brackets, or with the list.

ghost use Rattle.std.specs.Prelude.{◌≡◌, ◌<◌, ◌^◌, length, IfSome};
ghost use Rattle.golf_syntax_trees.specs.Segments as segments_spec;
ghost use Rattle.golf_syntax_segments.specs.Cut as cut_spec;
ghost use Rattle.golf_syntax_segments.specs.Cut.{CutAt};

use golf_lex_tokens::{Punctuation, Token, TokenKind};

// Returns how many brackets are open after a punctuation mark.
fn deeper(punctuation: Punctuation, depth: usize) -> usize
    requires { depth < 2 ^ 63 }
    ensures value { result ≡ segments_spec.depth_behind (TokenKind.Punctuation punctuation) depth }
{
    match punctuation {
        Punctuation::OpenParen | Punctuation::OpenBracket | Punctuation::OpenBrace => depth + 1,
        Punctuation::CloseParen | Punctuation::CloseBracket | Punctuation::CloseBrace => if depth
            == 0
        {
            0
        } else {
            depth - 1
        },
        _ => depth,
    }
}

fn depth_behind(kind: &TokenKind, depth: usize) -> usize
    requires { depth < 2 ^ 63 }
    ensures value { result ≡ segments_spec.depth_behind kind.now depth }
{
    match kind {
        TokenKind::Punctuation(punctuation) => deeper(*punctuation, depth),
        _ => depth,
    }
}

fn ends_segment(kind: &TokenKind, depth: usize) -> bool
    ensures { result ≡ segments_spec.ends_segment kind.now depth }
{
    match kind {
        TokenKind::Punctuation(Punctuation::Semicolon) => depth == 0,
        _ => false,
    }
}

// Returns how many tokens the first segment has.
fn front_length(tokens: &[Token]) -> usize
    ensures { result ≡ cut_spec.front_length 0 tokens.now }
{
    let mut depth = 0;
    let mut count = 0;
    for token in tokens {
        count += 1;
        if ends_segment(&token.kind, depth) {
            return count;
        }
        depth = depth_behind(&token.kind, depth);
    }
    count
}

/// Returns the first segment and the tokens after it, or `None` if there are no tokens. A segment has its semicolon;
/// only the last segment of a list may lack it.
pub fn front_segment(tokens: &[Token]) -> Option<(&[Token], &[Token])>
    ensures value { CutAt tokens.now result }
    ensures shorter { IfSome result (λ x. length x.1.now < length tokens.now) }
{
    if tokens.is_empty() {
        return None;
    }
    Some(tokens.split_at(front_length(tokens)))
}
