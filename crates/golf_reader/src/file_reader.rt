//! Reads a file: its tokens, its tree, its types and its code.
//!
//! A refusal names the first fault. A file that is refused for another reason than memory has no code at
//! all.

ghost use Rattle.std.specs.Prelude.{◌<◌, ◌-◌, ◌^◌, length, IfOk};
ghost use Rattle.golf_data.specs.Places.{HasPlaces};
ghost use Rattle.golf_reader.specs.Refusals.{Parses, IsChecked, WasParsed, WasTyped, WasRead};

use crate::refusal::Refusal;
use golf_check::{Checked, check};
use golf_check_types::TypeFault;
use golf_code::generate;
use golf_data::Code;
use golf_lex::{LexFault, tokens};
use golf_lex_tokens::Token;
use golf_syntax::{SyntaxFault, parse};
use golf_syntax_trees::File;
use std::alloc::Global;

// The tree of the tokens.
fn tree(alloc: Global, tokens: &[Token]) -> Result<File, Refusal>
    ensures { Parses tokens.now result }
{
    match parse(alloc, tokens) {
        Ok(file) => Ok(file),
        Err(SyntaxFault::At { line }) => Err(Refusal::Syntax { line }),
        Err(SyntaxFault::Memory) => Err(Refusal::Memory),
    }
}

// The tree of the file.
fn parsed(alloc: Global, bytes: &[u8]) -> Result<File, Refusal>
    requires { length bytes.now < 2 ^ 32 - 1 }
    ensures { WasParsed bytes.now result }
{
    match tokens(alloc, bytes) {
        Ok(tokens) => tree(alloc, tokens.as_slice()),
        Err(LexFault::At { line, byte }) => Err(Refusal::Lexical { line, byte }),
        Err(LexFault::Memory) => Err(Refusal::Memory),
    }
}

// A tree that keeps the rules of types.
fn judged(alloc: Global, file: File) -> Result<Checked, Refusal>
    ensures { IsChecked file result }
{
    match check(alloc, file) {
        Ok(checked) => Ok(checked),
        Err(TypeFault::At { line, rule }) => Err(Refusal::Untyped { line, rule }),
        Err(TypeFault::Memory) => Err(Refusal::Memory),
    }
}

/// Returns the typed tree of a file, with the scope and the facts that the checker found.
///
/// # Errors
///
/// As for `read`.
pub fn judge(alloc: Global, bytes: &[u8]) -> Result<Checked, Refusal>
    requires { length bytes.now < 2 ^ 32 - 1 }
    ensures { WasTyped bytes.now result }
{
    let file = parsed(alloc, bytes)?;
    judged(alloc, file)
}

/// Returns the code of a file.
///
/// # Errors
///
/// - `Refusal::Memory` if memory runs out. No clause ties it to a cause.
/// - Any other refusal exactly when the file has that fault. A file that has code is never refused so.
pub fn read(alloc: Global, bytes: &[u8]) -> Result<Code, Refusal>
    requires { length bytes.now < 2 ^ 27 }
    ensures answer { WasRead bytes.now result }

    // The code can be run.
    ensures places { IfOk result HasPlaces }
{
    let checked = judge(alloc, bytes)?;
    let code = generate(alloc, &checked)?;
    Ok(code)
}
