//! Reads a file from its tokens, segment by segment: the package, the imports, the declarations.
//!
//! Before that it looks for a token that costs too much. The first broken segment ends the reading, and its first line
//! is the line of the fault.

ghost use Rattle.std.specs.Prelude.{◌≡◌, List, IfOk};
ghost use Rattle.golf_syntax.specs.SegmentReader as segment_spec;
ghost use Rattle.golf_syntax.specs.SegmentReader.{import_by_word};
ghost use Rattle.golf_syntax.specs.Parses.{AcceptsTokens, Declared, FirstLine, Imported, Parsed, RefusesTokens};

use crate::declarations::decl_at;
use crate::imports::import_at;
use golf_base::{List, Memory};
use golf_lex_tokens::{Keyword, Punctuation, Token, TokenKind};
use golf_syntax_expressions::{after, after_keyword, name_at};
use golf_syntax_segments::{first_too_complex, front_segment};
use golf_syntax_trees::{File, Import, OwnedDecl, OwnedDecls};
use std::alloc::Global;

/// Why no tree reads the tokens.
#[derive(Clone, Copy, Debug, PartialEq, Eq)]
pub enum SyntaxFault {
    /// The line of the first token that costs more than 1,000. If there is none, it is the line on which the first
    /// broken segment begins, or 1 if there are no tokens.
    At { line: u32 },
    /// Out of memory.
    Memory,
}

impl From<Memory> for SyntaxFault {
    ghost use Rattle.golf_syntax.specs.declared.parser.SyntaxFault.TheVariants as faults;

    ghost from_gives = { λ _ fault. fault ≡ faults.Memory };

    fn from(_: Memory) -> Self {
        SyntaxFault::Memory
    }
}

// Returns whether the tokens are a semicolon and nothing after it.
fn is_end(tokens: &[Token]) -> bool
    ensures { result ≡ segment_spec.is_end tokens.now }
{
    match after(tokens, Punctuation::Semicolon) {
        None => false,
        Some(rest) => rest.is_empty(),
    }
}

// Returns whether the segment names the package `main`.
fn is_package(segment: &[Token]) -> bool
    ensures { result ≡ segment_spec.is_package segment.now }
{
    let Some(named) = after_keyword(segment, Keyword::Package) else {
        return false
    };
    match name_at(named) {
        None => false,
        Some((name, rest)) => name.as_slice() == b"main".as_slice() && is_end(rest),
    }
}

// Reads the import after its keyword, which is on this line. Returns `None` unless the segment ends after it.
fn import_behind(alloc: Global, line: u32, tokens: &[Token]) -> Result<Option<Import>, Memory>
    ensures { IfOk result (λ o. o ≡ import_by_word line (TokenKind.Keyword Keyword.Import) tokens.now) }
{
    match import_at(alloc, line, tokens)? {
        None => Ok(None),
        Some((import, rest)) => if is_end(rest) {
            Ok(Some(import))
        } else {
            Ok(None)
        },
    }
}

// Returns the import of a segment, or `None` if the segment is no import.
fn import_of(alloc: Global, segment: &[Token]) -> Result<Option<Import>, Memory>
    ensures { IfOk result (λ o. o ≡ segment_spec.import_of segment.now) }
{
    match segment.split_first() {
        None => Ok(None),
        Some((first, rest)) => match &first.kind {
            TokenKind::Keyword(Keyword::Import) => import_behind(alloc, first.line, rest),
            _ => Ok(None),
        },
    }
}

// Returns the declaration of a segment, or `None` if the segment is no declaration.
fn decl_of(alloc: Global, segment: &[Token]) -> Result<Option<OwnedDecl>, Memory>
    ensures { IfOk result (λ o. o ≡ segment_spec.decl_of segment.now) }
{
    match decl_at(alloc, segment)? {
        None => Ok(None),
        Some((declaration, rest)) => if is_end(rest) {
            Ok(Some(declaration))
        } else {
            Ok(None)
        },
    }
}

// Returns the line of the first token, or 1 if there are no tokens.
fn first_line(tokens: &[Token]) -> u32
    ensures { FirstLine tokens.now result }
{
    match tokens.split_first() {
        None => 1,
        Some((first, _)) => first.line,
    }
}

// Reads the imports in front. Returns them and the tokens after them.
fn imports_of(alloc: Global, tokens: &[Token]) -> Result<(List<Import>, &[Token]), Memory>
    ensures { IfOk result (λ x. Imported tokens.now x.0 x.1.now) }
{
    let mut imports = List::new(alloc);
    let mut left = tokens;
    'segments: loop {
        let Some((segment, behind)) = front_segment(left) else {
            return Ok((imports, left))
        };
        let Some(import) = import_of(alloc, segment)? else {
            return Ok((imports, left))
        };
        imports.push(import)?;
        left = behind;
    }
}

// Returns the declarations of all segments, or the line of the first segment that is no declaration.
fn declarations_of(alloc: Global, tokens: &[Token]) -> Result<OwnedDecls, SyntaxFault>
    ensures { Declared tokens.now result }
{
    let mut declarations = OwnedDecls::empty(alloc);
    let mut left = tokens;
    'segments: loop {
        let Some((segment, rest)) = front_segment(left) else {
            return Ok(declarations)
        };
        let Some(declaration) = decl_of(alloc, segment)? else {
            return Err(SyntaxFault::At {
                line: first_line(segment),
            })
        };
        declarations.push(declaration)?;
        left = rest;
    }
}

// Returns the file of the tokens, segment by segment, or its first fault.
fn file_of(alloc: Global, tokens: &[Token]) -> Result<File, SyntaxFault>
    ensures { Parsed tokens.now result }
{
    if let Some(line) = first_too_complex(alloc, tokens)? {
        return Err(SyntaxFault::At { line });
    }
    let Some((package, rest)) = front_segment(tokens) else {
        return Err(SyntaxFault::At { line: 1 })
    };
    if !is_package(package) {
        return Err(SyntaxFault::At {
            line: first_line(package),
        });
    }
    let (imports, left) = imports_of(alloc, rest)?;
    match declarations_of(alloc, left) {
        Err(fault) => Err(fault),
        Ok(declarations) => Ok(File {
            imports,
            declarations: declarations.into_inner(),
        }),
    }
}

/// Returns the file that reads the tokens.
///
/// # Errors
///
/// `SyntaxFault::At` if no well-formed tree prints the tokens. `SyntaxFault::Memory` if memory runs out; no clause ties
/// it to a cause.
pub fn parse(alloc: Global, tokens: &[Token]) -> Result<File, SyntaxFault>
    ensures answer { Parsed tokens.now result }

    // If a tree reads the tokens, the answer is that tree. If none does, it is the line of the fault.
    ensures accepts { AcceptsTokens tokens.now result }
    ensures refuses { RefusesTokens tokens.now result }
{
    file_of(alloc, tokens)
}
