//! The verdict of the checker on a text.

use golf_check::{Checked, check};
use golf_check_types::{Base, GoType, TypeFault, rules};
use std::alloc::Global;
use std::process::Abort;
use std::test::Fail;

// The answer of the checker to a text that parses.
fn checked(rt: &impl Abort, alloc: Global, source: &str) -> Result<Checked, TypeFault> {
    assert!(rt; source.len() < 100_000);
    match golf_lex::tokens(alloc, source.as_bytes()) {
        Err(_) => panic!(rt; "it does not lex: {source}"),
        Ok(tokens) => match golf_syntax::parse(alloc, tokens.as_slice()) {
            Err(_) => panic!(rt; "it is no file: {source}"),
            Ok(file) => check(alloc, file),
        },
    }
}

// The line and the rule that a file breaks first, or zeros if it breaks none.
fn verdict(rt: &impl Abort, alloc: Global, source: &str) -> (usize, u32) {
    match checked(rt, alloc, source) {
        Ok(_) => (0, 0),
        Err(TypeFault::At { line, rule }) => (line as usize, rule),
        Err(TypeFault::Memory) => panic!(rt; "out of memory"),
    }
}

// The number of a rule.
fn rule_of(rt: &impl Abort, name: &str) -> u32 {
    match name {
        "WRONG_IMPORT" => rules::WRONG_IMPORT,
        "NOT_DECLARABLE" => rules::NOT_DECLARABLE,
        "UNKNOWN_NAME" => rules::UNKNOWN_NAME,
        "UNKNOWN_TYPE" => rules::UNKNOWN_TYPE,
        "WRONG_MEMBER" => rules::WRONG_MEMBER,
        "NO_MAIN" => rules::NO_MAIN,
        "NOT_STEADY" => rules::NOT_STEADY,
        "WRONG_OPERAND" => rules::WRONG_OPERAND,
        "NOT_ASSIGNABLE" => rules::NOT_ASSIGNABLE,
        "NO_PLACE" => rules::NO_PLACE,
        "WRONG_CALL" => rules::WRONG_CALL,
        "NOT_BEGUN" => rules::NOT_BEGUN,
        "WRONG_RETURN" => rules::WRONG_RETURN,
        "NOT_TERMINATING" => rules::NOT_TERMINATING,
        "NOTHING_TO_LEAVE" => rules::NOTHING_TO_LEAVE,
        "WRONG_CHANNEL" => rules::WRONG_CHANNEL,
        "WRONG_RANGE" => rules::WRONG_RANGE,
        "WRONG_USE" => rules::WRONG_USE,
        "TOO_LARGE" => rules::TOO_LARGE,
        "WRONG_LITERAL" => rules::WRONG_LITERAL,
        "NOT_PRINTABLE" => rules::NOT_PRINTABLE,
        "WRONG_FINALISER" => rules::WRONG_FINALISER,
        "NIL_WITHOUT_TYPE" => rules::NIL_WITHOUT_TYPE,
        "NOTHING_NEW" => rules::NOTHING_NEW,
        _ => panic!(rt; "no rule has this name: {name}"),
    }
}

// The line and the rule of the comment of a text, or zeros if it has none.
fn wanted(rt: &impl Abort, source: &str) -> (usize, u32) {
    match source.split_once("// rule: ") {
        None => (0, 0),
        Some((before, after)) => {
            let (name, _) = after.split_once('\n').unwrap_or((after, ""));
            (before.lines().count(), rule_of(rt, name))
        }
    }
}

/// Fails the test unless each text first breaks the rule that its comment names, on the line of the comment:
/// `// rule: NOT_DECLARABLE`. A text without such a comment breaks no rule. A head is `\n---`, and may have a
/// remark. Its text is on the lines after it, up to the next head or the end.
pub(crate) fn expect<R: AllocGlobal + Abort>(rt: &R, rows: &str) {
    for row in rows.split("\n---") {
        match row.split_once('\n') {
            None => assert!(rt; row.is_empty(), "a head without a text: {row}"),
            Some((_, source)) => {
                let expected = wanted(rt, source);
                assert_eq!(rt; verdict(rt, rt.alloc(), source), expected, "in {source}");
            }
        }
    }
}

// The file that has this body of `main`.
fn file_of(rt: &impl Abort, alloc: Global, body: &str) -> String {
    match format!(in alloc; "package main\nfunc main() {{\n{body}\n}}") {
        Ok(text) => text,
        Err(_) => panic!(rt; "out of memory"),
    }
}

/// Does the same as `expect` for bodies of `main`.
pub(crate) fn expect_in_main<R: AllocGlobal + Abort>(rt: &R, rows: &str) {
    for row in rows.split("\n---") {
        match row.split_once('\n') {
            None => assert!(rt; row.is_empty(), "a head without a text: {row}"),
            Some((_, body)) => {
                let text = file_of(rt, rt.alloc(), body);
                let expected = wanted(rt, text.as_str());
                assert_eq!(rt;
                    verdict(rt, rt.alloc(), text.as_str()),
                    expected,
                    "in {body}"
                );
            }
        }
    }
}

fn word(t: &Option<GoType>) -> &'static str {
    match t {
        None => "none",
        Some(t) => match t.layers.as_slice() {
            [] => match t.base {
                Base::Int => "int",
                Base::Bool => "bool",
                Base::Text => "string",
                _ => "other",
            },
            _ => "layered",
        },
    }
}

// One word for each type of a typed file, in order, with one space between.
fn type_words(checked: &Checked, alloc: Global) -> Result<String, Fail> {
    let mut words = String::new(alloc);
    for t in checked.types(alloc)?.as_slice() {
        if !words.is_empty() {
            words.push_str(" ")?;
        }
        words.push_str(word(t))?;
    }
    Ok(words)
}

/// Fails the test unless the expressions of a typed file have types of these words, in order.
pub(crate) fn expect_types<R: AllocGlobal + Abort>(
    rt: &R,
    source: &str,
    words: &str,
) -> Result<(), Fail> {
    match checked(rt, rt.alloc(), source) {
        Err(_) => panic!(rt; "it is not typed: {source}"),
        Ok(checked) => {
            let found = type_words(&checked, rt.alloc())?;
            assert_eq!(rt; found.as_str(), words);
        }
    }
    Ok(())
}
