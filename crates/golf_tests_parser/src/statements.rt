//! Tests of statements and blocks. Expected values are from the Go specification, "Statements" and
//! "Variable declarations".

use crate::constructs::{Construct, are_found};
use crate::words::tokens_of;
use golf_base::Memory;
use golf_lex_tokens::Token;
use golf_syntax_statements::block_at;
use std::alloc::Global;
use std::test::Fail;

// How many statements the first block has, and how many tokens are left.
fn block(alloc: Global, tokens: &[Token]) -> Result<Option<(usize, usize)>, Memory> {
    match block_at(alloc, tokens)? {
        None => Ok(None),
        Some((statements, rest)) => Ok(Some((statements.get().len(), rest.len()))),
    }
}

const VARIABLES: [(&str, &str); 4] = [
    ("x T ;", "zero"),
    ("x T = y ;", "typed"),
    ("x = y ;", "untyped"),
    ("x ;", "none"),
];

#[test]
fn a_variable_has_a_type_or_a_value_or_both(rt: HostRuntime) -> Result<(), Fail> {
    are_found(&rt, rt.alloc(), Construct::Variable, &VARIABLES)
}

const HEADERS: [(&str, &str); 9] = [
    ("{", "forever"),
    ("x < y {", "while"),
    ("i := x ; i < y ; i ++ {", "steps"),
    ("; ; {", "steps without a first"),
    ("range c {", "range"),
    ("v := range c {", "range"),
    ("i , v := range c {", "range"),
    ("; ; i := x {", "none"),
    ("i := x {", "none"),
];

#[test]
fn a_header_is_told_by_its_semicolons_and_its_range(rt: HostRuntime) -> Result<(), Fail> {
    are_found(&rt, rt.alloc(), Construct::Header, &HEADERS)
}

const CLAUSES: [(&str, &str); 5] = [
    ("select { case c <- x : } ;", "select"),
    ("select { case <- c : } ;", "select"),
    ("select { case x := <- c : } ;", "select"),
    ("select { case x = <- c : } ;", "select"),
    ("select { case x , ok := <- c : } ;", "select"),
];

#[test]
fn a_clause_of_a_select_sends_or_receives(rt: HostRuntime) -> Result<(), Fail> {
    are_found(&rt, rt.alloc(), Construct::Statement, &CLAUSES)
}

const STATEMENTS: [(&str, &str); 9] = [
    ("x ++ ;", "simple"),
    ("go f ( x ) ;", "go"),
    ("defer f ( ) ;", "defer"),
    ("return x ;", "return"),
    ("{ x ++ ; y ++ } ;", "block"),
    ("if x < y { } ;", "if"),
    ("if x < y { } else { } ;", "if else"),
    ("for v := range c { break } ;", "for"),
    ("select { case <- c : x ++ ; default : } ;", "select"),
];

#[test]
fn a_statement_is_told_by_its_first_word(rt: HostRuntime) -> Result<(), Fail> {
    are_found(&rt, rt.alloc(), Construct::Statement, &STATEMENTS)
}

const NO_STATEMENTS: [(&str, &str); 8] = [
    ("go f ;", "none"),
    ("if x { } else x ++ ;", "none"),
    ("select { default : ; default : } ;", "none"),
    ("select { default : default : } ;", "none"),
    ("select { case x := y : } ;", "none"),
    ("select { case x ++ : } ;", "none"),
    ("{ x ++ y ++ } ;", "none"),
    ("for x { ;", "none"),
];

#[test]
fn what_is_no_statement_is_not_read(rt: HostRuntime) -> Result<(), Fail> {
    are_found(&rt, rt.alloc(), Construct::Statement, &NO_STATEMENTS)
}

#[test]
fn a_block_has_its_statements(rt: HostRuntime) -> Result<(), Fail> {
    let list = tokens_of(&rt, rt.alloc(), "{ x ++ ; { y ++ } ; return } ;");
    let found = block(rt.alloc(), list.as_slice())?;
    assert!(rt; found == Some((3, 1)));
    Ok(())
}
