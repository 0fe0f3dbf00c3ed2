//! Tests of how a file is cut into segments, and of which token costs more than the limit on nesting
//! allows.

use golf_base::{List, Memory};
use golf_lex_tokens::{Punctuation, Token, TokenKind};
use golf_syntax_segments::{first_too_complex, front_segment};
use std::alloc::Global;
use std::test::Fail;

// The tokens of punctuation marks, on lines 1, 2 and so on.
fn tokens(alloc: Global, punctuations: &[Punctuation]) -> Result<List<Token>, Fail> {
    let mut list = List::new(alloc);
    let mut line = 0u32;
    for punctuation in punctuations {
        line = line.wrapping_add(1);
        list.push(Token {
            kind: TokenKind::Punctuation(*punctuation),
            line,
        })?;
    }
    Ok(list)
}

// Whether tokens are cut into three segments with these lengths, in front of these many other tokens, and
// then into no more.
fn is_cut(tokens: &[Token]) -> bool {
    let mut left = tokens;
    for (front, behind) in [(5usize, 2usize), (1, 1), (1, 0)].iter() {
        match front_segment(left) {
            Some((segment, rest)) => {
                if segment.len() != *front || rest.len() != *behind {
                    return false;
                }
                left = rest;
            }
            None => return false,
        }
    }
    front_segment(left).is_none()
}

#[test]
fn a_segment_ends_after_a_semicolon_outside_brackets(rt: HostRuntime) -> Result<(), Fail> {
    let punctuations = [
        Punctuation::CloseParen,
        Punctuation::OpenBrace,
        Punctuation::Semicolon,
        Punctuation::CloseBrace,
        Punctuation::Semicolon,
        Punctuation::Semicolon,
        Punctuation::Dot,
    ];
    let list = tokens(rt.alloc(), &punctuations)?;
    assert!(rt; is_cut(list.as_slice()));
    Ok(())
}

// This many dots, on lines 1, 2 and so on.
fn dots(alloc: Global, count: u32) -> Result<List<Token>, Memory> {
    let mut list = List::new(alloc);
    for i in 0..count {
        list.push(Token {
            kind: TokenKind::Punctuation(Punctuation::Dot),
            line: i + 1,
        })?;
    }
    Ok(list)
}

// The line of the first of these dots that costs too much.
fn too_complex(alloc: Global, count: u32) -> Result<Option<u32>, Memory> {
    let list = dots(alloc, count)?;
    first_too_complex(alloc, list.as_slice())
}

#[test]
fn the_token_after_a_thousand_costs_too_much(rt: HostRuntime) -> Result<(), Fail> {
    let none = too_complex(rt.alloc(), 1000)?;
    let last = too_complex(rt.alloc(), 1001)?;
    assert!(rt; none == None && last == Some(1001));
    Ok(())
}
