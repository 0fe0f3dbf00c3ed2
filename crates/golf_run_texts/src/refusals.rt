//! The lines of refused files. The only error is `Memory`.

ghost use Rattle.std.specs.Prelude.{◌≡◌, IfOk};
ghost use Rattle.golf_run_texts.specs.Texts.{lexical_line as lexical_line_of, syntax_line as syntax_line_of};
ghost use Rattle.golf_run_texts.specs.Texts.{rule_line as rule_line_of};

use golf_base::{List, Memory};
use std::alloc::Global;

/// Returns a copy of a text as a list.
pub fn list_of(alloc: Global, text: &[u8]) -> Result<List<u8>, Memory>
    ensures { IfOk result (λ list. list ≡ text.now) }
{
    let mut list = List::new(alloc);
    list.extend_from_slice(text)?;
    Ok(list)
}

/// Returns the line of a file whose bytes do not lex. `line` counts from 1, and `byte` is the offset of the
/// fault, from 0.
pub fn lexical_line(alloc: Global, line: u32, byte: u32) -> Result<List<u8>, Memory>
    ensures { IfOk result (λ text. text ≡ lexical_line_of line byte) }
{
    let text = format!(in alloc; "refused: line {line}: byte {byte}\n")?;
    list_of(alloc, text.as_bytes())
}

/// Returns the line of a file that has no syntax tree. `line` counts from 1.
pub fn syntax_line(alloc: Global, line: u32) -> Result<List<u8>, Memory>
    ensures { IfOk result (λ text. text ≡ syntax_line_of line) }
{
    let text = format!(in alloc; "refused: line {line}: syntax\n")?;
    list_of(alloc, text.as_bytes())
}

/// Returns the line of a file that breaks a rule of types. `line` counts from 1.
pub fn rule_line(alloc: Global, line: u32, rule: u32) -> Result<List<u8>, Memory>
    ensures { IfOk result (λ text. text ≡ rule_line_of line rule) }
{
    let text = format!(in alloc; "refused: line {line}: rule {rule}\n")?;
    list_of(alloc, text.as_bytes())
}
