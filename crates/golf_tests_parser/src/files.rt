//! Tests of whole files. Expected values are from the Go specification, "Declarations and scope",
//! "Expressions" and "Statements", and from the rules of the language.

use crate::words::tokens_of;
use golf_lex::{LexFault, tokens};
use golf_lex_tokens::Token;
use golf_syntax::{SyntaxFault, parse};
use golf_syntax_trees::File;
use std::alloc::Global;
use std::process::Abort;
use std::test::Fail;

// The line of the fault, or 0 if there is none.
fn line_of(rt: &impl Abort, answer: &Result<File, SyntaxFault>) -> u32 {
    match answer {
        Ok(_) => 0,
        Err(SyntaxFault::At { line }) => *line,
        Err(SyntaxFault::Memory) => panic!(rt; "out of memory"),
    }
}

// The line of the fault of these tokens, or 0 if there is none.
fn line_at(rt: &impl Abort, alloc: Global, tokens: &[Token]) -> u32 {
    line_of(rt, &parse(alloc, tokens))
}

fn fault_line(rt: &impl Abort, alloc: Global, source: &str) -> u32 {
    let list = tokens_of(rt, alloc, source);
    line_at(rt, alloc, list.as_slice())
}

const PACKAGES: [(&str, u32); 6] = [
    ("", 1u32),
    ("package main", 0),
    ("package other\nvar x int", 1),
    ("\n\nvar x int\npackage main", 3),
    ("package main var x int", 1),
    ("package main\npackage main", 2),
];

#[test]
fn the_package_comes_first(rt: HostRuntime) -> Result<(), Fail> {
    for &(source, line) in PACKAGES.iter() {
        assert!(rt; fault_line(&rt, rt.alloc(), source) == line, "{source}");
    }
    Ok(())
}

// Each row has a declaration after the package clause, and the line of the fault, or 0 if there is none.
const ROWS: [(&str, u32); 48] = [
    ("import \"fmt\"", 0),
    ("import (\n\t\"fmt\"\n\t\"sync\"\n)", 0),
    ("import ()", 0),
    ("import \"fmt\"; import \"sync\"\nvar x int", 0),
    ("const k = -1\nconst s = \"a\"\nconst t = true", 0),
    ("var x int\nvar y int = 1\nvar z = &T{}", 0),
    ("var x chan<- chan int", 0),
    ("type T struct {\n\ta, b int\n\tnext *T\n}", 0),
    ("type T struct{}", 0),
    (
        "func (t *T) f(a, b int, c chan<- int) <-chan int {\n\treturn nil\n}",
        0,
    ),
    ("func f(\n\ta int,\n) {\n}", 0),
    ("func f() { go g(); defer g(); { } }", 0),
    ("func f() { for {}; for x {}; for range c {} }", 0),
    ("func f() { for i := 0; i < n; i++ {}; for ; ; {} }", 0),
    (
        "func f() { for v := range c {}; for i, v := range s {} }",
        0,
    ),
    ("func f() { select {} }", 0),
    (
        "func f() { select { case c <- 1: x++; case v, ok := <-c: default: } }",
        0,
    ),
    ("func f() { if x := g(); x > 0 {} else if y {} else {} }", 0),
    (
        "func f() { x = []int{1, 2,}; y := &T{a: 1}; z := struct{}{} }",
        0,
    ),
    (
        "func f() { a.b[i](c).d = make([]int, 3); p = new(sync.Mutex) }",
        0,
    ),
    ("func f() { v, ok = <-c; <-c; c <- <-d }", 0),
    ("func f() { x += 1; x %= 2; x-- }", 0),
    ("func f() { if (&T{}).a {} }", 0),
    ("var x", 2),
    ("var x int\nimport \"fmt\"", 3),
    ("func f() {\n\tx = func() {}\n}", 2),
    ("var (\n\tx int\n)", 2),
    ("const k = 1 + 2", 2),
    ("type T int", 2),
    ("func f(a int b int) {}", 2),
    ("func f(a, b int, c) {}", 2),
    ("func f() { x := 1 y := 2 }", 2),
    ("func f() { for i := 0; i < n; j := 1 {} }", 2),
    ("func f() { select { default: default: } }", 2),
    ("func f() { if x == &T{} {} }", 2),
    ("func f() { else {} }", 2),
    ("func f() { switch x {} }", 2),
    ("func f() { goto a }", 2),
    ("func f() { x = make }", 2),
    ("func f() { a, b := 1, 2 }", 2),
    ("func f() { go g }", 2),
    ("var x map[int]int", 2),
    ("var x int\nvar y = )\nvar z int", 3),
    ("var x int\n\nfunc f() {\n\tx = 1\n", 4),
    ("var x int }", 2),
    ("var x int;;", 2),
    ("func f() {}\nfunc g() {\n\treturn 1 2\n}\nvar x", 3),
    (";", 2),
];

// The line of the fault of a declaration after the package clause, or 0 if there is none.
fn declaration_line(rt: &impl Abort, alloc: Global, text: &str) -> Result<u32, Fail> {
    let source = format!(in alloc; "package main\n{text}")?;
    Ok(fault_line(rt, alloc, source.as_str()))
}

#[test]
fn declarations_are_read_or_have_the_line_of_the_fault(rt: HostRuntime) -> Result<(), Fail> {
    for &(text, line) in ROWS.iter() {
        let found = declaration_line(&rt, rt.alloc(), text)?;
        assert!(rt; found == line, "{text}: {found}");
    }
    Ok(())
}

// A file with an assignment on line 3, whose value is a 1 in `depth` pairs of parentheses.
fn nested(alloc: Global, depth: u32) -> Result<String, Fail> {
    let mut source = String::new(alloc);
    source.push_str("package main\nfunc main() {\nx = ")?;
    for _ in 0..depth {
        source.push_str("(")?;
    }
    source.push_str("1")?;
    for _ in 0..depth {
        source.push_str(")")?;
    }
    source.push_str("\n}\n")?;
    Ok(source)
}

// The line of the fault of that file, or 0 if there is none.
fn nested_line(rt: &impl Abort, alloc: Global, depth: u32) -> Result<u32, Fail> {
    let source = nested(alloc, depth)?;
    Ok(fault_line(rt, alloc, source.as_str()))
}

#[test]
fn parentheses_cost_a_thousand_at_most(rt: HostRuntime) -> Result<(), Fail> {
    let most = nested_line(&rt, rt.alloc(), 992)?;
    let more = nested_line(&rt, rt.alloc(), 993)?;
    assert!(rt; most == 0 && more == 3);
    Ok(())
}

// A file as gofmt writes it.
const FILE: &str = "\
    package main\n\
    \n\
    import (\n\
    \t\"fmt\"\n\
    \t\"sync\"\n\
    )\n\
    \n\
    const limit = -3\n\
    \n\
    type Node struct {\n\
    \tc    chan int\n\
    \tnext *Node\n\
    }\n\
    \n\
    var root *Node\n\
    \n\
    func (n *Node) add(value int) {\n\
    \tdefer n.lock.Unlock()\n\
    \tn.c <- value\n\
    }\n\
    \n\
    func serve(c, quit chan int, group *sync.WaitGroup) int {\n\
    \ttotal := 0\n\
    \tfor {\n\
    \t\tselect {\n\
    \t\tcase value, ok := <-c:\n\
    \t\t\tif !ok {\n\
    \t\t\t\treturn total\n\
    \t\t\t}\n\
    \t\t\ttotal += value\n\
    \t\tcase <-quit:\n\
    \t\t\tbreak\n\
    \t\tdefault:\n\
    \t\t\tfmt.Println(\"none\", total)\n\
    \t\t}\n\
    \t}\n\
    }\n\
    \n\
    func main() {\n\
    \tc := make(chan int, 2)\n\
    \troot = &Node{c: c, next: root}\n\
    \tfor i, value := range []int{1, 2, 3} {\n\
    \t\tgo root.add(i*value + 1)\n\
    \t}\n\
    \tif n := serve(c, nil, new(sync.WaitGroup)); n > limit && root != nil {\n\
    \t\tfmt.Println(n)\n\
    \t} else {\n\
    \t\tn++\n\
    \t}\n\
    }\n";

// The lines on which the file's package, imports and declarations begin.
const STARTS: [u32; 8] = [1, 3, 8, 10, 15, 17, 22, 39];

// The last of these lines that is at most this one.
fn start_of(line: u32) -> u32 {
    let mut last = 1;
    for start in STARTS.iter() {
        if *start <= line {
            last = *start;
        }
    }
    last
}

// How many prefixes of a file's tokens parse. Any other prefix has its fault on the line of its last
// declaration.
fn fronts_that_are_read(rt: &impl Abort, alloc: Global, tokens: &[Token]) -> u32 {
    let mut read = 0u32;
    for (i, last) in tokens.iter().enumerate() {
        let (front, _) = tokens.split_at(i + 1);
        let line = line_at(rt, alloc, front);
        if line == 0 {
            read = read.wrapping_add(1);
        } else {
            assert!(rt; line == start_of(last.line), "the token {i}: {line}");
        }
    }
    read
}

#[test]
fn each_prefix_of_a_file_is_read_or_has_the_line_of_its_last_declaration(rt: HostRuntime) {
    let list = tokens_of(&rt, rt.alloc(), FILE);
    assert!(rt; line_at(&rt, rt.alloc(), &[]) == 1);
    assert!(rt; fronts_that_are_read(&rt, rt.alloc(), list.as_slice()) == 8);
}

// Whether a prefix of the file lexes and parses, or has its fault at its end or on the line of its last
// declaration.
fn is_front(rt: &impl Abort, alloc: Global, front: &[u8]) -> bool {
    assert!(rt; front.len() < 100_000);
    match tokens(alloc, front) {
        Ok(list) => {
            let line = line_at(rt, alloc, list.as_slice());
            match list.as_slice().last() {
                None => line == 1,
                Some(last) => line == 0 || line == start_of(last.line),
            }
        }
        Err(LexFault::At { byte, .. }) => byte as usize == front.len(),
        Err(LexFault::Memory) => panic!(rt; "out of memory"),
    }
}

#[test]
fn each_front_of_the_bytes_of_a_file_is_read_or_at_fault_where_it_ends(rt: HostRuntime) {
    let bytes = FILE.as_bytes();
    for (length, _) in bytes.iter().enumerate() {
        let (front, _) = bytes.split_at(length);
        assert!(rt; is_front(&rt, rt.alloc(), front), "{length}");
    }
}
