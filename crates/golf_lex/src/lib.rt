//! Reads the tokens of a file: an automaton cuts the bytes into lexemes, and each lexeme gives a
//! token or none. The definitions are those of `golf_lex_tokens`.
#![tactic(auto)]

mod automaton;
mod bytes;
mod kinds;
mod laws;
mod lexer;
mod output;
mod strings;
mod words;

pub use laws::{faults_once, lexes_once, lexes_or_faults};
pub use lexer::{LexFault, tokens};
