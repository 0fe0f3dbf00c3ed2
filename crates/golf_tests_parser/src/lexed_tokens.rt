//! Tests of tokens, and of the first faulty byte. Expected values are from the Go specification, "Lexical
//! elements", and from the rules of the language.

use crate::words::lexed;
use golf_lex::{LexFault, tokens};
use golf_lex_tokens::{Token, TokenKind};
use std::alloc::Global;
use std::process::Abort;
use std::test::Fail;

// What a test shows of each token.
#[derive(Clone, Copy)]
enum Shown {
    Kind,
    Line,
}

fn write_kind(out: &mut String, kind: &TokenKind) -> Result<(), Fail> {
    match kind {
        TokenKind::Name(bytes) | TokenKind::Integer(bytes) => write_bytes(out, bytes.as_slice())?,
        TokenKind::Text(bytes) => {
            out.push_str("'")?;
            write_bytes(out, bytes.as_slice())?;
            out.push_str("'")?;
        }
        TokenKind::Keyword(keyword) => write!(out, "{keyword:?}")?,
        TokenKind::Punctuation(punctuation) => write!(out, "{punctuation:?}")?,
    }
    Ok(())
}

// Writes the bytes, with `?` for each byte that is not ASCII.
fn write_bytes(out: &mut String, bytes: &[u8]) -> Result<(), Fail> {
    for byte in bytes {
        let shown = if *byte < 128 { char::from(*byte) } else { '?' };
        out.push(shown)?;
    }
    Ok(())
}

fn write_token(out: &mut String, shown: Shown, token: &Token) -> Result<(), Fail> {
    match shown {
        Shown::Kind => write_kind(out, &token.kind)?,
        Shown::Line => write!(out, "{}", token.line)?,
    }
    Ok(())
}

// The kinds or the lines of tokens, with one space between.
fn told(alloc: Global, shown: Shown, list: &[Token]) -> Result<String, Fail> {
    let mut out = String::new(alloc);
    for token in list {
        if !out.is_empty() {
            out.push_str(" ")?;
        }
        write_token(&mut out, shown, token)?;
    }
    Ok(out)
}

// The kinds or the lines of the tokens of these bytes.
fn told_of(rt: &impl Abort, alloc: Global, shown: Shown, source: &[u8]) -> Result<String, Fail> {
    let list = lexed(rt, alloc, source);
    told(alloc, shown, list.as_slice())
}

// Fails the test unless these bytes have tokens of these kinds or on these lines.
fn is_told(
    rt: &impl Abort,
    alloc: Global,
    shown: Shown,
    source: &[u8],
    expected: &str,
) -> Result<(), Fail> {
    let found = told_of(rt, alloc, shown, source)?;
    assert!(rt; found.as_str() == expected, "{found} and not {expected}");
    Ok(())
}

// Fails the test unless each of these texts has tokens of these kinds or on these lines.
fn are_told(
    rt: &impl Abort,
    alloc: Global,
    shown: Shown,
    rows: &[(&str, &str)],
) -> Result<(), Fail> {
    for (source, expected) in rows {
        is_told(rt, alloc, shown, source.as_bytes(), *expected)?;
    }
    Ok(())
}

// The line and the byte of the fault of a text, or `None` if it lexes.
fn fault_of(rt: &impl Abort, alloc: Global, source: &str) -> Option<(u32, u32)> {
    assert!(rt; source.len() < 100_000);
    match tokens(alloc, source.as_bytes()) {
        Ok(_) => None,
        Err(LexFault::At { line, byte }) => Some((line, byte)),
        Err(LexFault::Memory) => panic!(rt; "out of memory"),
    }
}

// Fails the test unless each of these texts has its fault on this line, at this byte.
fn are_at_fault(rt: &impl Abort, alloc: Global, rows: &[(&str, u32, u32)]) {
    for (source, line, byte) in rows {
        let fault = fault_of(rt, alloc, *source);
        assert!(rt; fault == Some((*line, *byte)), "{source}");
    }
}

const MARKS: [(&str, &str); 3] = [
    (
        "+ - * / % == != < <= > >= && ||",
        "Plus Minus Star Slash Percent Equal NotEqual Less AtMost Greater AtLeast And Or",
    ),
    (
        "! <- & ( [ { ] , ; : . =",
        "Not Arrow Ampersand OpenParen OpenBracket OpenBrace CloseBracket Comma Semicolon Colon Dot Assign",
    ),
    (
        ":= += -= *= /= %= ++ -- } )",
        "Define PlusAssign MinusAssign StarAssign SlashAssign PercentAssign Increment Decrement CloseBrace CloseParen Semicolon",
    ),
];

#[test]
fn each_punctuation_mark_is_read(rt: HostRuntime) -> Result<(), Fail> {
    are_told(&rt, rt.alloc(), Shown::Kind, &MARKS)
}

const LONGEST: [(&str, &str); 5] = [
    ("a+++b", "a Increment Plus b Semicolon"),
    ("a<-b", "a Arrow b Semicolon"),
    ("a< -b<=<", "a Less Minus b AtMost Less"),
    (
        "&&& |||| === !== :== /=/",
        "And Ampersand Or Or Equal Assign NotEqual Assign Define Assign SlashAssign Slash",
    ),
    ("---= .. <--", "Decrement MinusAssign Dot Dot Arrow Minus"),
];

#[test]
fn the_longest_punctuation_mark_is_read(rt: HostRuntime) -> Result<(), Fail> {
    are_told(&rt, rt.alloc(), Shown::Kind, &LONGEST)
}

const KEYWORDS: [(&str, &str); 4] = [
    (
        "case chan const default defer else for func go if import package",
        "Case Chan Const Default Defer Else For Func Go If Import Package",
    ),
    (
        "range select struct type var fallthrough goto interface map switch",
        "Range Select Struct Type Var Fallthrough Goto Interface Map Switch",
    ),
    ("break continue return", "Break Continue Return Semicolon"),
    (
        "breaks go_ Go _ x1 A_9z make int",
        "breaks go_ Go _ x1 A_9z make int Semicolon",
    ),
];

#[test]
fn keywords_are_told_from_names(rt: HostRuntime) -> Result<(), Fail> {
    are_told(&rt, rt.alloc(), Shown::Kind, &KEYWORDS)
}

const LITERALS: [(&str, &str); 4] = [
    (
        "0 7 120 99999999999999999999",
        "0 7 120 99999999999999999999 Semicolon",
    ),
    ("-1+0", "Minus 1 Plus 0 Semicolon"),
    ("\"\" \"a b\" \"//\" \"/*\"", "'' 'a b' '//' '/*' Semicolon"),
    ("\"x\\n\\t\\\\\\\"y\t\"", "'x\n\t\\\"y\t' Semicolon"),
];

#[test]
fn literals_are_read(rt: HostRuntime) -> Result<(), Fail> {
    are_told(&rt, rt.alloc(), Shown::Kind, &LITERALS)?;
    is_told(
        &rt,
        rt.alloc(),
        Shown::Kind,
        b"\"\xc3\xa9\x80\"",
        "'???' Semicolon",
    )
}

const NEWLINES: [(&str, &str); 11] = [
    // After the tokens that may end a statement.
    ("x\n1\n\"s\"\n", "x Semicolon 1 Semicolon 's' Semicolon"),
    (
        "break\ncontinue\nreturn\n",
        "Break Semicolon Continue Semicolon Return Semicolon",
    ),
    (
        "++\n--\n)\n]\n}\n",
        "Increment Semicolon Decrement CloseParen Semicolon CloseBracket CloseBrace Semicolon",
    ),

    // Not after other tokens.
    (
        "if\nfunc\nfallthrough\n+\n,\n(\n[\n{\n=\n;\n.\n<-\n",
        "If Func Fallthrough Plus Comma OpenParen OpenBracket OpenBrace Assign Semicolon Dot Arrow",
    ),

    // At the end of the file, once in a row, and after comments.
    ("x", "x Semicolon"),
    ("x\n\n \r\n\ty", "x Semicolon y Semicolon"),
    ("x // y\nz//", "x Semicolon z Semicolon"),
    ("x /* a */ y /*\n*/ z /* */", "x y Semicolon z Semicolon"),
    ("x /**/ /***/ /* / * **/", "x Semicolon"),
    ("", ""),
    ("\n// alone", ""),
];

#[test]
fn newlines_stand_for_semicolons(rt: HostRuntime) -> Result<(), Fail> {
    are_told(&rt, rt.alloc(), Shown::Kind, &NEWLINES)
}

const SEPARATORS: [(&str, &str); 11] = [
    ("f(a,)", "f OpenParen a CloseParen Semicolon"),
    ("f(,)", "f OpenParen CloseParen Semicolon"),
    ("f(a,\n)", "f OpenParen a CloseParen Semicolon"),
    ("{x\n}", "OpenBrace x CloseBrace Semicolon"),
    ("{;}", "OpenBrace CloseBrace Semicolon"),

    // In one pass: of two in a row one stays.
    ("x;;}", "x Semicolon CloseBrace Semicolon"),
    ("x,;)", "x Comma CloseParen Semicolon"),
    ("{x}\n}", "OpenBrace x CloseBrace CloseBrace Semicolon"),

    // Not before `]`, and no other token.
    ("[a,]", "OpenBracket a Comma CloseBracket Semicolon"),
    ("[a\n]", "OpenBracket a Semicolon CloseBracket Semicolon"),
    (
        "(a.:) ,;",
        "OpenParen a Dot Colon CloseParen Comma Semicolon",
    ),
];

#[test]
fn separators_before_closing_brackets_are_left_out(rt: HostRuntime) -> Result<(), Fail> {
    are_told(&rt, rt.alloc(), Shown::Kind, &SEPARATORS)
}

const LINES: [(&str, &str); 3] = [
    ("a\nb\n\nc", "1 1 2 2 4 4"),
    ("a /*\n\n*/ b + // x\n c", "1 1 3 3 4 4"),
    ("\n\n(\n\"s\",\n)\n", "3 4 5 5"),
];

#[test]
fn tokens_have_the_line_on_which_they_begin(rt: HostRuntime) -> Result<(), Fail> {
    are_told(&rt, rt.alloc(), Shown::Line, &LINES)
}

const FAULTS: [(&str, u32, u32); 22] = [
    ("package main\nfunc main() {\n\tx := \"ab", 3, 36),
    ("\"ab\nc\"", 1, 3),
    ("\"a\\q\"", 1, 3),
    ("\"a\\", 1, 3),
    ("x = 01", 1, 5),
    ("12a", 1, 2),
    ("0x1", 1, 1),
    ("1_0", 1, 1),
    ("a | b", 1, 3),
    ("a |", 1, 3),
    ("a\n\0", 2, 2),
    ("// a\0\n", 1, 4),
    ("/* a\0 */", 1, 4),
    ("\"\0\"", 1, 1),
    ("/* a\n *", 2, 7),
    ("/*/", 1, 3),
    ("\n\n é", 3, 3),
    ("a#", 1, 1),
    ("`a`", 1, 0),
    ("'a'", 1, 0),
    ("a ^ b", 1, 2),
    ("\x7f", 1, 0),
];

#[test]
fn the_fault_is_the_first_byte_that_nothing_can_follow(rt: HostRuntime) {
    are_at_fault(&rt, rt.alloc(), &FAULTS);
}
