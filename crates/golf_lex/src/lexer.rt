//! Reads the tokens of a file in one walk over its bytes.
//!
//! The automaton cuts the bytes into lexemes. `Output` keeps the tokens, inserts semicolons, and drops optional
//! separators. A fault is the first byte that can follow in no text that lexes.

ghost use Rattle.std.specs.Prelude.{◌≡◌, ◌<◌, ◌≤◌, ◌-◌, ◌^◌, length};
ghost use Rattle.golf_lex_tokens.specs.Lexes.{line_at};
ghost use Rattle.golf_lex.specs.Answers.{AcceptsBytes, Answers, RefusesBytes};

use crate::automaton::{Growth, State, begin, extend, is_complete};
use crate::bytes::newlines;
use crate::output::Output;
use golf_base::{List, Memory};
use golf_lex_tokens::Token;
use std::alloc::Global;

/// Why a file could not be lexed.
#[derive(Clone, Copy, Debug, PartialEq, Eq)]
pub enum LexFault {
    /// The bytes do not lex. `byte` is the first byte, counted from 0, with which they are no longer a prefix of a text
    /// that lexes. It is the length if there is no such byte. `line` is its line, from 1.
    At { line: u32, byte: u32 },
    /// Out of memory.
    Memory,
}

impl From<Memory> for LexFault {
    ghost use Rattle.golf_lex.specs.declared.lexer.LexFault.TheVariants as faults;

    ghost from_gives = { λ _ fault. fault ≡ faults.Memory };

    fn from(_: Memory) -> Self {
        LexFault::Memory
    }
}

// Returns the fault at this place.
fn fault(bytes: &[u8], place: usize) -> LexFault
    requires within { place ≤ length bytes.now }
    requires small { length bytes.now < 2 ^ 32 - 1 }
    ensures { result ≡ LexFault.At (line_at bytes.now place) place }
{
    let (front, _) = bytes.split_at(place);
    LexFault::At {
        line: newlines(front) as u32 + 1,
        byte: place as u32,
    }
}

/// Returns the tokens of a file with their lines. Semicolons are inserted, and each `;` or `,` right before a `)` or a
/// `}` is dropped. It takes time in proportion to the length.
///
/// # Errors
///
/// `LexFault::At` if the bytes do not lex. `LexFault::Memory` if memory runs out; no clause ties it to a cause.
pub fn tokens(alloc: Global, bytes: &[u8]) -> Result<List<Token>, LexFault>
    requires { length bytes.now < 2 ^ 32 - 1 }
    ensures answer { Answers bytes.now result }

    // If the bytes lex, the answer is their tokens. If they do not, it is the place of the fault.
    ensures accepts { AcceptsBytes bytes.now result }
    ensures refuses { RefusesBytes bytes.now result }
{
    let mut output = Output::new(alloc);
    let mut state = State::Blank;
    let mut start = 0;
    for (i, byte) in bytes.iter().enumerate() {
        match extend(state, *byte) {
            Growth::To(next) => state = next,
            Growth::Over => {
                let Some(next) = begin(*byte) else {
                    return Err(fault(bytes, i));
                };
                output.add(alloc, state, &bytes[start..i])?;
                state = next;
                start = i;
            }
            Growth::Fault => return Err(fault(bytes, i)),
        }
    }
    if !is_complete(state) {
        return Err(fault(bytes, bytes.len()));
    }
    output.add(alloc, state, &bytes[start..])?;
    Ok(output.finish()?)
}
