//! The output of the lexer: the tokens so far, with inserted semicolons and without optional
//! separators.

ghost use Rattle.std.specs.Prelude.{◌≡◌, ◌+◌, ◌<◌, ◌^◌, IfOk, OnOk, true};
ghost use Rattle.golf_lex_tokens.specs.Bytes as bytes_spec;

use crate::automaton::State;
use crate::bytes::newlines;
use crate::kinds::{is_closing, is_separator, kind, may_end};
use golf_base::{List, Memory};
use golf_lex_tokens::{Punctuation, Token, TokenKind};
use std::alloc::Global;

/// What the lexer keeps of the lexemes that it has read.
#[derive(Drop)]
pub(crate) struct Output {
    pub(crate) tokens: List<Token>,
    /// A `;` or `,` after the tokens. It is dropped if `)` or `}` comes next.
    pub(crate) held: Option<Token>,
    /// The present line, from 1.
    pub(crate) line: u32,
    /// The line of the semicolon for which a newline here stands; `None` if it stands for none.
    pub(crate) semicolon: Option<u32>,
}

impl Output {
    ghost use Rattle.golf_lex.specs.Output as output_spec;
    ghost use Rattle.golf_lex.specs.Output.{empty, pushed, with_token, with_lexemes, finished};
    ghost use Rattle.golf_lex.specs.Automaton.{is_complete};
    ghost use Rattle.golf_lex.specs.LexemeScan.{ended};

    pub(crate) fn new(alloc: Global) -> Output
        ensures { result ≡ empty }
    {
        Output {
            tokens: List::new(alloc),
            held: None,
            line: 1,
            semicolon: None,
        }
    }

    fn push(&mut self, token: Token) -> Result<(), Memory>
        ensures { OnOk result (self.new ≡ pushed self.old token) }
    {
        if let Some(separator) = self.held.take()
            && !is_closing(&token.kind)
        {
            self.tokens.push(separator)?;
        }
        if is_separator(&token.kind) {
            self.held = Some(token);
        } else {
            self.tokens.push(token)?;
        }
        Ok(())
    }

    fn add_token(&mut self, kind: TokenKind) -> Result<(), Memory>
        ensures { OnOk result (self.new ≡ with_token self.old kind) }
    {
        let semicolon = if may_end(&kind) {
            Some(self.line)
        } else {
            None
        };
        self.push(Token {
            kind,
            line: self.line,
        })?;
        self.semicolon = semicolon;
        Ok(())
    }

    fn end_line(&mut self) -> Result<(), Memory>
        ensures { OnOk result (self.new ≡ output_spec.line_ended self.old) }
    {
        if let Some(line) = self.semicolon.take() {
            self.push(Token {
                kind: TokenKind::Punctuation(Punctuation::Semicolon),
                line,
            })?;
        }
        Ok(())
    }

    /// Adds a lexeme of these bytes that the automaton ended in this state.
    pub(crate) fn add(&mut self, alloc: Global, state: State, bytes: &[u8]) -> Result<(), Memory>
        requires complete { is_complete state ≡ true }
        requires line { self.old.line + bytes_spec.newlines bytes.now < 2 ^ 32 }
        ensures { OnOk result (self.new ≡ with_lexemes self.old (ended state bytes.now)) }
    {
        let count = newlines(bytes);
        match kind(alloc, state, bytes)? {
            Some(kind) => self.add_token(kind)?,
            None => {
                if count > 0 {
                    self.end_line()?;
                }
            }
        }
        self.line += count as u32;
        Ok(())
    }

    /// Returns all tokens, at the end of the file.
    pub(crate) fn finish(mut self) -> Result<List<Token>, Memory>
        ensures { IfOk result (λ tokens. tokens ≡ finished self) }
    {
        self.end_line()?;
        let Output {
            mut tokens,
            held,
            ..
        } = self;
        if let Some(separator) = held {
            tokens.push(separator)?;
        }
        Ok(tokens)
    }
}
