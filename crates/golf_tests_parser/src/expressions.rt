//! Tests of types, expressions and simple statements. Expected values are from the Go specification,
//! "Types", "Operators" and "Statements". A semicolon follows each text.

use crate::constructs::{Construct, are_found, found, head};
use crate::words::tokens_of;
use golf_base::Memory;
use golf_syntax_expressions::{Context, expression_at};
use golf_syntax_trees::Expr;
use std::alloc::Global;
use std::process::Abort;
use std::test::Fail;

// A text, and the heads of its first expression and of the two operands of that expression's operator.
struct Group {
    text: &'static str,
    head: &'static str,
    left: &'static str,
    right: &'static str,
}

// Whether an expression and the two operands of its operator have these heads.
fn is_grouped(e: &Expr, wanted: &Group) -> bool {
    match e {
        Expr::Binary(_, left, right) => {
            head(e) == wanted.head
                && head(left.get()) == wanted.left
                && head(right.get()) == wanted.right
        }
        _ => false,
    }
}

// Whether the text's first expression is grouped so, and one token is left after it.
fn groups_so(rt: &impl Abort, alloc: Global, wanted: &Group) -> Result<bool, Memory> {
    let list = tokens_of(rt, alloc, wanted.text);
    match expression_at(alloc, Context::Elsewhere, list.as_slice())? {
        None => Ok(false),
        Some((e, rest)) => Ok(is_grouped(e.get(), wanted) && rest.len() == 1),
    }
}

const GROUPS: [Group; 7] = [
    Group {
        text: "a + b * c",
        head: "sum",
        left: "name",
        right: "product",
    },
    Group {
        text: "a * b + c",
        head: "sum",
        left: "product",
        right: "name",
    },
    Group {
        text: "a - b - c",
        head: "difference",
        left: "difference",
        right: "name",
    },
    Group {
        text: "a - ( b - c )",
        head: "difference",
        left: "name",
        right: "parentheses",
    },
    Group {
        text: "<- a + b",
        head: "sum",
        left: "receive",
        right: "name",
    },
    Group {
        text: "f ( a , b ) . g [ i ] * h ( )",
        head: "product",
        left: "index",
        right: "call",
    },
    Group {
        text: "a . b + & T { x : a , y : b }",
        head: "sum",
        left: "selector",
        right: "struct literal",
    },
];

#[test]
fn operators_group_as_they_bind(rt: HostRuntime) -> Result<(), Fail> {
    for group in GROUPS.iter() {
        assert!(rt; groups_so(&rt, rt.alloc(), group)?, "{}", group.text);
    }
    Ok(())
}

// Whether there is an expression at a place.
fn is_read(rt: &impl Abort, alloc: Global, place: Context, text: &str) -> Result<bool, Memory> {
    let list = tokens_of(rt, alloc, text);
    Ok(expression_at(alloc, place, list.as_slice())?.is_some())
}

const PLACES: [(&str, Context, bool); 3] = [
    ("& T { }", Context::Header, false),
    ("& T { }", Context::Elsewhere, true),
    ("( & T { } )", Context::Header, true),
];

#[test]
fn in_a_header_an_ampersand_stands_in_brackets_alone(rt: HostRuntime) -> Result<(), Fail> {
    for &(text, place, expected) in PLACES.iter() {
        assert!(rt;
            is_read(&rt, rt.alloc(), place, text)? == expected,
            "{text}"
        );
    }
    Ok(())
}

#[test]
fn an_operand_ends_before_a_binary_operator(rt: HostRuntime) -> Result<(), Fail> {
    let (name, left) = found(&rt, rt.alloc(), Construct::Operand, "<- a . b + c")?;
    assert!(rt; name == "receive" && left == 3);
    Ok(())
}

#[test]
fn an_arrow_belongs_to_the_leftmost_chan(rt: HostRuntime) -> Result<(), Fail> {
    let (name, left) = found(&rt, rt.alloc(), Construct::Type, "chan <- chan int")?;
    assert!(rt; name == "chan to send chans" && left == 1);
    Ok(())
}

const SIMPLE: [(&str, &str); 3] = [
    ("v , ok := <- c", "define received"),
    ("<- c <- v", "send"),
    ("v , ok := c", "none"),
];

#[test]
fn a_simple_statement_is_told_by_its_punctuation(rt: HostRuntime) -> Result<(), Fail> {
    are_found(&rt, rt.alloc(), Construct::Simple, &SIMPLE)
}
