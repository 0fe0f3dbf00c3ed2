//! The first construct of a text, by its name.
//!
//! One function here owns the tokens of each text, so a test holds names and numbers alone.

use crate::words::tokens_of;
use golf_base::Memory;
use golf_lex_tokens::Token;
use golf_syntax_expressions::{Context, operand_at, simple_at, type_at};
use golf_syntax_statements::{header_at, stmt_at, var_at};
use golf_syntax_trees::{
    BinaryOperator, Expr, Header, Simple, SimpleKind, Stmt, TypeExpr, UnaryOperator, VarContent,
};
use std::alloc::Global;
use std::process::Abort;
use std::test::Fail;

/// The kind of construct that is read at the start of a text.
#[derive(Clone, Copy)]
pub(crate) enum Construct {
    Operand,
    Type,
    Simple,
    Variable,
    Header,
    Statement,
}

/// The name of a construct, and how many tokens are left after it.
pub(crate) type Found = (&'static str, usize);

// The answer if nothing is read.
const NONE: Found = ("none", 0);

/// Returns the name of an expression's kind.
pub(crate) fn head(e: &Expr) -> &'static str {
    match e {
        Expr::Name(_) => "name",
        Expr::Parens(_) => "parentheses",
        Expr::StructLiteral(_, _) => "struct literal",
        Expr::Call(_, _) => "call",
        Expr::Selector(_, _) => "selector",
        Expr::Index(_, _) => "index",
        Expr::Unary(UnaryOperator::Receive, _) => "receive",
        Expr::Binary(BinaryOperator::Add, _, _) => "sum",
        Expr::Binary(BinaryOperator::Subtract, _, _) => "difference",
        Expr::Binary(BinaryOperator::Multiply, _, _) => "product",
        _ => "other",
    }
}

// The name of a type: there is one for `chan<- chan T` alone.
fn type_name(found: &TypeExpr) -> &'static str {
    match found {
        TypeExpr::SendChan(inner) => match inner.get() {
            TypeExpr::Chan(_) => "chan to send chans",
            _ => "chan to send",
        },
        _ => "other",
    }
}

fn kind_name(kind: &SimpleKind) -> &'static str {
    match kind {
        SimpleKind::DefineReceived(_, _, _) => "define received",
        SimpleKind::Send(_, _) => "send",
        _ => "other",
    }
}

// The name of a simple statement's kind, if it is on line 1.
fn simple_name(simple: &Simple) -> &'static str {
    if simple.line == 1 {
        kind_name(simple.kind.get())
    } else {
        "another line"
    }
}

fn content_name(content: &VarContent) -> &'static str {
    match content {
        VarContent::Zero(_) => "zero",
        VarContent::Typed(_, _) => "typed",
        VarContent::Untyped(_) => "untyped",
    }
}

fn header_name(header: &Header) -> &'static str {
    match header {
        Header::Forever => "forever",
        Header::While(_) => "while",
        Header::Steps(None, _, _) => "steps without a first",
        Header::Steps(Some(_), _, _) => "steps",
        Header::Range(_, _) => "range",
    }
}

fn statement_name(statement: &Stmt) -> &'static str {
    match statement {
        Stmt::Var(_) => "var",
        Stmt::Simple(_) => "simple",
        Stmt::Go(_, _, _) => "go",
        Stmt::Defer(_, _, _) => "defer",
        Stmt::Return(_, _) => "return",
        Stmt::Break(_) => "break",
        Stmt::Continue(_) => "continue",
        Stmt::Block(_, _) => "block",
        Stmt::If(_, _, _, _) => "if",
        Stmt::IfElse(_, _, _, _, _) => "if else",
        Stmt::For(_, _, _) => "for",
        Stmt::Select(_, _) => "select",
    }
}

fn operand(alloc: Global, tokens: &[Token]) -> Result<Found, Memory> {
    match operand_at(alloc, tokens)? {
        None => Ok(NONE),
        Some((operand, rest)) => Ok((head(operand.get()), rest.len())),
    }
}

fn type_at_start(alloc: Global, tokens: &[Token]) -> Result<Found, Memory> {
    match type_at(alloc, tokens)? {
        None => Ok(NONE),
        Some((found, rest)) => Ok((type_name(found.get()), rest.len())),
    }
}

fn simple(alloc: Global, tokens: &[Token]) -> Result<Found, Memory> {
    match simple_at(alloc, Context::Elsewhere, tokens)? {
        None => Ok(NONE),
        Some((simple, rest)) => Ok((simple_name(simple.get()), rest.len())),
    }
}

fn variable(alloc: Global, tokens: &[Token]) -> Result<Found, Memory> {
    match var_at(alloc, 1, tokens)? {
        None => Ok(NONE),
        Some((var, rest)) => Ok((content_name(var.get().content.get()), rest.len())),
    }
}

fn header(alloc: Global, tokens: &[Token]) -> Result<Found, Memory> {
    match header_at(alloc, tokens)? {
        None => Ok(NONE),
        Some((header, rest)) => Ok((header_name(header.get()), rest.len())),
    }
}

fn statement(alloc: Global, tokens: &[Token]) -> Result<Found, Memory> {
    match stmt_at(alloc, tokens)? {
        None => Ok(NONE),
        Some((statement, rest)) => Ok((statement_name(statement.get()), rest.len())),
    }
}

fn first(alloc: Global, construct: Construct, tokens: &[Token]) -> Result<Found, Memory> {
    match construct {
        Construct::Operand => operand(alloc, tokens),
        Construct::Type => type_at_start(alloc, tokens),
        Construct::Simple => simple(alloc, tokens),
        Construct::Variable => variable(alloc, tokens),
        Construct::Header => header(alloc, tokens),
        Construct::Statement => statement(alloc, tokens),
    }
}

/// Returns the name of the construct at the start of a text, and how many tokens are left after it. The
/// name is `none` if there is no such construct.
pub(crate) fn found(
    rt: &impl Abort,
    alloc: Global,
    construct: Construct,
    text: &str,
) -> Result<Found, Memory> {
    let list = tokens_of(rt, alloc, text);
    first(alloc, construct, list.as_slice())
}

// How many tokens are left after a construct of this name: one semicolon or brace, or none if there is no
// construct.
fn left(name: &str) -> usize {
    if name == "none" { 0 } else { 1 }
}

/// Fails the test unless each of these texts begins with a construct of this name, and one token is left
/// after it.
pub(crate) fn are_found(
    rt: &impl Abort,
    alloc: Global,
    construct: Construct,
    rows: &[(&str, &str)],
) -> Result<(), Fail> {
    for (text, name) in rows {
        let (kind, rest) = found(rt, alloc, construct, *text)?;
        assert!(rt; kind == *name && rest == left(*name), "{text}");
    }
    Ok(())
}
