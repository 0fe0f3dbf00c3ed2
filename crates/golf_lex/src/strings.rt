//! String literals and their escapes (Go specification, "String literals").
//!
//! The literal is whole and well formed, since the automaton has accepted it.

ghost use Rattle.std.specs.Prelude.{◌≡◌, IfOk, false};
ghost use Rattle.golf_lex.specs.Strings as strings_spec;
ghost use Rattle.golf_lex.specs.Strings.{content_from};

use golf_base::{List, Memory};
use std::alloc::Global;

fn escaped_byte(byte: u8) -> u8
    ensures { result ≡ strings_spec.escaped_byte byte }
{
    match byte {
        b'n' => b'\n',
        b't' => b'\t',
        _ => byte,
    }
}

/// Returns the bytes for which a whole string literal stands. The literal has its quotes.
pub(crate) fn content(alloc: Global, literal: &[u8]) -> Result<List<u8>, Memory>
    ensures { IfOk result (λ bytes. bytes ≡ content_from false literal.now) }
{
    let mut content = List::new(alloc);
    let mut escaped = false;
    for byte in literal {
        if escaped {
            content.push(escaped_byte(*byte))?;
            escaped = false;
        } else if *byte == b'\\' {
            escaped = true;
        } else if *byte != b'"' {
            content.push(*byte)?;
        }
    }
    Ok(content)
}
