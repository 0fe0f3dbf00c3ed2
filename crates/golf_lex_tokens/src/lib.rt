//! Tokens of the accepted language, and their definitions (Go specification, "Lexical elements").
//!
//! `specs/` says which bytes lex and as which tokens, where bytes that do not lex are at fault, and
//! what each token costs.
#![tactic(auto)]

mod token;

pub use token::{Keyword, Punctuation, Token, TokenKind};
