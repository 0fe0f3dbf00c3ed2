//! The reader of fields of structs and of parameters.
//!
//! Names that share a type are one `Field`. Every parameter has a name.

ghost use Rattle.std.specs.Prelude.{◌≡◌, ◌<◌, ◌≤◌, length, IfOk, IfSome};
ghost use Rattle.golf_syntax_expressions.specs.Front.{seen};
ghost use Rattle.golf_syntax.specs.Many.{list_at};
ghost use Rattle.golf_syntax.specs.DeclarationReader as decl_spec;

use golf_base::{List, Memory};
use golf_lex_tokens::{Punctuation, Token};
use golf_syntax_expressions::{after, copied, name_at, type_at};
use golf_syntax_trees::{Field, Name};
use std::alloc::Global;

// Reads more names, each after a comma.
fn names_at(alloc: Global, tokens: &[Token]) -> Result<Option<(List<Name>, &[Token])>, Memory>
    ensures value { IfOk result (λ o. seen o ≡ decl_spec.names_at tokens.now) }
    ensures shorter { IfOk result (λ o. IfSome o (λ x. length x.1.now ≤ length tokens.now)) }
{
    let mut names = List::new(alloc);
    let mut left = tokens;
    'names: loop {
        let Some(behind) = after(left, Punctuation::Comma) else {
            return Ok(Some((names, left)))
        };
        let Some((name, rest)) = name_at(behind) else {
            return Ok(None)
        };
        names.push(copied(alloc, name)?)?;
        left = rest;
    }
}

/// Reads names that share a type. Returns them and the tokens after them.
#[tactic(auto, unfolding(crate::specs::DeclarationReader::field_at))]
pub fn field_at(alloc: Global, tokens: &[Token]) -> Result<Option<(Field, &[Token])>, Memory>
    ensures value { IfOk result (λ o. seen o ≡ decl_spec.field_at tokens.now) }
    ensures shorter { IfOk result (λ o. IfSome o (λ x. length x.1.now < length tokens.now)) }
{
    let Some((first, behind)) = name_at(tokens) else {
        return Ok(None)
    };
    let first = copied(alloc, first)?;
    let Some((more, typed)) = names_at(alloc, behind)? else {
        return Ok(None)
    };
    match type_at(alloc, typed)? {
        None => Ok(None),
        Some((of_type, rest)) => Ok(Some((
            Field {
                first,
                more,
                of_type,
            },
            rest,
        ))),
    }
}

/// Reads fields with `separator` between, up to `close`. Returns them and the tokens after `close`.
pub fn fields_at(
    alloc: Global,
    separator: Punctuation,
    close: Punctuation,
    tokens: &[Token],
) -> Result<Option<(List<Field>, &[Token])>, Memory>
    ensures value { IfOk result (λ o. seen o ≡ list_at decl_spec.field_at separator close tokens.now) }
    ensures shorter { IfOk result (λ o. IfSome o (λ x. length x.1.now < length tokens.now)) }
{
    let mut fields = List::new(alloc);
    if let Some(rest) = after(tokens, close) {
        return Ok(Some((fields, rest)));
    }
    let mut left = tokens;
    'fields: loop {
        let Some((field, behind)) = field_at(alloc, left)? else {
            return Ok(None)
        };
        fields.push(field)?;
        match after(behind, separator) {
            Some(next) => left = next,
            None => match after(behind, close) {
                None => return Ok(None),
                Some(rest) => return Ok(Some((fields, rest))),
            },
        }
    }
}
