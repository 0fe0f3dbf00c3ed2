//! The reader of declarations (Go specification, "Declarations and scope").
//!
//! The keyword of a declaration decides. Nothing here says whether names and types are known: the
//! checker does.

ghost use Rattle.std.specs.Prelude.{◌≡◌, ◌<◌, ◌≤◌, length, IfOk, IfSome, Some};
ghost use Rattle.golf_syntax_expressions.specs.Front as front_spec;
ghost use Rattle.golf_syntax_expressions.specs.Front.{seen};
ghost use Rattle.golf_syntax_expressions.specs.TypeReader as type_spec;
ghost use Rattle.golf_syntax_expressions.specs.TypeReader.{OfType};
ghost use Rattle.golf_syntax.specs.DeclarationReader as decl_spec;
ghost use Rattle.golf_syntax.specs.DeclarationReader.{receiver_by, result_by};

use crate::constants::const_at;
use crate::fields::fields_at;
use golf_base::{List, Memory};
use golf_lex_tokens::{Keyword, Punctuation, Token, TokenKind};
use golf_syntax_expressions::{after, after_keyword, copied, name_at, type_at};
use golf_syntax_statements::{block_at, var_at};
use golf_syntax_trees::{Decl, Field, Func, Name, OwnedDecl, OwnedType, Receiver};
use std::alloc::Global;

// Reads a constant after its keyword, which is on this line.
fn const_decl(
    alloc: Global,
    line: u32,
    tokens: &[Token],
) -> Result<Option<(OwnedDecl, &[Token])>, Memory>
    ensures value { IfOk result (λ o. seen o ≡ decl_spec.const_decl line tokens.now) }
    ensures shorter { IfOk result (λ o. IfSome o (λ x. length x.1.now < length tokens.now)) }
{
    let Some((name, behind)) = name_at(tokens) else {
        return Ok(None)
    };
    let Some(valued) = after(behind, Punctuation::Assign) else {
        return Ok(None)
    };
    let name = copied(alloc, name)?;
    match const_at(alloc, valued)? {
        None => Ok(None),
        Some((value, rest)) => Ok(Some((OwnedDecl::new(Decl::Const(line, name, value)), rest))),
    }
}

// Reads a struct after its keyword, which is on this line.
fn struct_decl(
    alloc: Global,
    line: u32,
    tokens: &[Token],
) -> Result<Option<(OwnedDecl, &[Token])>, Memory>
    ensures value { IfOk result (λ o. seen o ≡ decl_spec.struct_decl line tokens.now) }
    ensures shorter { IfOk result (λ o. IfSome o (λ x. length x.1.now < length tokens.now)) }
{
    let Some((name, behind)) = name_at(tokens) else {
        return Ok(None)
    };
    let Some(braced) = after_keyword(behind, Keyword::Struct) else {
        return Ok(None)
    };
    let Some(inside) = after(braced, Punctuation::OpenBrace) else {
        return Ok(None)
    };
    let name = copied(alloc, name)?;
    match fields_at(
        alloc,
        Punctuation::Semicolon,
        Punctuation::CloseBrace,
        inside,
    )? {
        None => Ok(None),
        Some((fields, rest)) => Ok(Some((OwnedDecl::new(Decl::Struct(line, name, fields)), rest))),
    }
}

// Reads `name *type_name)` after the opening parenthesis of a receiver.
fn named_receiver(
    alloc: Global,
    tokens: &[Token],
) -> Result<Option<(Option<Receiver>, &[Token])>, Memory>
    ensures value { IfOk result (λ o. seen o ≡ receiver_by tokens.now (Some tokens.now)) }
    ensures shorter { IfOk result (λ o. IfSome o (λ x. length x.1.now ≤ length tokens.now)) }
{
    let Some((name, behind)) = name_at(tokens) else {
        return Ok(None)
    };
    let Some(starred) = after(behind, Punctuation::Star) else {
        return Ok(None)
    };
    let Some((type_name, closed)) = name_at(starred) else {
        return Ok(None)
    };
    let Some(rest) = after(closed, Punctuation::CloseParen) else {
        return Ok(None)
    };
    let name = copied(alloc, name)?;
    let type_name = copied(alloc, type_name)?;
    Ok(Some((Some(Receiver { name, type_name }), rest)))
}

// Reads a receiver, or none if there is no opening parenthesis.
fn receiver_at(
    alloc: Global,
    tokens: &[Token],
) -> Result<Option<(Option<Receiver>, &[Token])>, Memory>
    ensures value { IfOk result (λ o. seen o ≡ receiver_by tokens.now (front_spec.after Punctuation.OpenParen tokens.now)) }
    ensures shorter { IfOk result (λ o. IfSome o (λ x. length x.1.now ≤ length tokens.now)) }
{
    match after(tokens, Punctuation::OpenParen) {
        None => Ok(Some((None, tokens))),
        Some(inside) => named_receiver(alloc, inside),
    }
}

// Reads a result type, or none if there is no type.
fn result_at(alloc: Global, tokens: &[Token]) -> Result<(Option<OwnedType>, &[Token]), Memory>
    ensures value { IfOk result (λ x. (x.0, x.1.now) ≡ result_by tokens.now (type_spec.type_at OfType tokens.now)) }
    ensures shorter { IfOk result (λ x. length x.1.now ≤ length tokens.now) }
{
    match type_at(alloc, tokens)? {
        None => Ok((None, tokens)),
        Some((of_type, rest)) => Ok((Some(of_type), rest)),
    }
}

// Reads the result and the body of a function.
fn func_behind(
    alloc: Global,
    line: u32,
    receiver: Option<Receiver>,
    name: Name,
    parameters: List<Field>,
    tokens: &[Token],
) -> Result<Option<(OwnedDecl, &[Token])>, Memory>
    ensures value { IfOk result (λ o. seen o ≡ decl_spec.func_behind line receiver name parameters (result_by tokens.now (type_spec.type_at OfType tokens.now))) }
    ensures shorter { IfOk result (λ o. IfSome o (λ x. length x.1.now < length tokens.now)) }
{
    let (result, behind) = result_at(alloc, tokens)?;
    match block_at(alloc, behind)? {
        None => Ok(None),
        Some((body, rest)) => Ok(Some((
            OwnedDecl::new(Decl::Func(Func {
                line,
                receiver,
                name,
                parameters,
                result,
                body: body.into_inner(),
            })),
            rest,
        ))),
    }
}

// Reads a function after its receiver.
fn func_named(
    alloc: Global,
    line: u32,
    receiver: Option<Receiver>,
    tokens: &[Token],
) -> Result<Option<(OwnedDecl, &[Token])>, Memory>
    ensures value { IfOk result (λ o. seen o ≡ decl_spec.func_named line receiver tokens.now) }
    ensures shorter { IfOk result (λ o. IfSome o (λ x. length x.1.now < length tokens.now)) }
{
    let Some((name, behind)) = name_at(tokens) else {
        return Ok(None)
    };
    let Some(inside) = after(behind, Punctuation::OpenParen) else {
        return Ok(None)
    };
    let name = copied(alloc, name)?;
    match fields_at(alloc, Punctuation::Comma, Punctuation::CloseParen, inside)? {
        None => Ok(None),
        Some((parameters, rest)) => func_behind(alloc, line, receiver, name, parameters, rest),
    }
}

// Reads a function after its keyword, which is on this line.
#[tactic(auto, unfolding(crate::specs::DeclarationReader::func_at))]
fn func_at(
    alloc: Global,
    line: u32,
    tokens: &[Token],
) -> Result<Option<(OwnedDecl, &[Token])>, Memory>
    ensures value { IfOk result (λ o. seen o ≡ decl_spec.func_at line tokens.now) }
    ensures shorter { IfOk result (λ o. IfSome o (λ x. length x.1.now < length tokens.now)) }
{
    match receiver_at(alloc, tokens)? {
        None => Ok(None),
        Some((receiver, rest)) => func_named(alloc, line, receiver, rest),
    }
}

// Reads a variable after its keyword, which is on this line.
fn var_decl(
    alloc: Global,
    line: u32,
    tokens: &[Token],
) -> Result<Option<(OwnedDecl, &[Token])>, Memory>
    ensures value { IfOk result (λ o. seen o ≡ decl_spec.decl_from line Keyword.Var tokens.now) }
    ensures shorter { IfOk result (λ o. IfSome o (λ x. length x.1.now < length tokens.now)) }
{
    match var_at(alloc, line, tokens)? {
        None => Ok(None),
        Some((variable, rest)) => Ok(Some((OwnedDecl::new(Decl::Var(variable)), rest))),
    }
}

// Reads a declaration after this keyword, which is on this line.
fn decl_from(
    alloc: Global,
    line: u32,
    word: Keyword,
    tokens: &[Token],
) -> Result<Option<(OwnedDecl, &[Token])>, Memory>
    ensures value { IfOk result (λ o. seen o ≡ decl_spec.decl_from line word tokens.now) }
    ensures shorter { IfOk result (λ o. IfSome o (λ x. length x.1.now < length tokens.now)) }
{
    match word {
        Keyword::Const => const_decl(alloc, line, tokens),
        Keyword::Var => var_decl(alloc, line, tokens),
        Keyword::Type => struct_decl(alloc, line, tokens),
        Keyword::Func => func_at(alloc, line, tokens),
        _ => Ok(None),
    }
}

/// Reads the declaration at the front. Returns it and the tokens after it.
#[tactic(auto, unfolding(crate::specs::DeclarationReader::decl_at))]
pub fn decl_at(alloc: Global, tokens: &[Token]) -> Result<Option<(OwnedDecl, &[Token])>, Memory>
    ensures value { IfOk result (λ o. seen o ≡ decl_spec.decl_at tokens.now) }
    ensures shorter { IfOk result (λ o. IfSome o (λ x. length x.1.now < length tokens.now)) }
{
    match tokens.split_first() {
        None => Ok(None),
        Some((first, rest)) => match &first.kind {
            TokenKind::Keyword(word) => decl_from(alloc, first.line, *word, rest),
            _ => Ok(None),
        },
    }
}
