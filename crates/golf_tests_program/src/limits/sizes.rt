//! Tests of files at the limits of the program and above them. The tests make these files.

use crate::calls::{Ends, expect, expect_ends};
use golf_base::List;
use golf_run_texts::Status;
use std::alloc::Global;
use std::process::Abort;
use std::sync::Wait;
use std::test::Fail;
use std::thread::Threads;

// A number in `count` pairs of parentheses, on line 3.
fn nested(alloc: Global, count: usize) -> Result<List<u8>, Fail> {
    let mut file = List::new(alloc);
    file.extend_from_slice(b"package main\nfunc main() {\nx := ")?;
    file.extend_with(count, b'(')?;
    file.extend_from_slice(b"1")?;
    file.extend_with(count, b')')?;
    file.extend_from_slice(b"\n}\n")?;
    Ok(file)
}

// A struct of `count` fields, on line 2.
fn struct_of(alloc: Global, count: u32) -> Result<List<u8>, Fail> {
    let mut file = List::new(alloc);
    file.extend_from_slice(b"package main\ntype T struct { a1")?;
    for number in 2..=count {
        file.extend_from_slice(format!(in alloc; ", a{number}")?.as_bytes())?;
    }
    file.extend_from_slice(b" int }\nfunc main() {\n}\n")?;
    Ok(file)
}

// Fails the test unless a run of this file ends so and writes these texts. The ends take `most` bytes a
// call.
fn expect_bytes<R: AllocGlobal + Abort + Threads + Wait + Sync>(
    rt: &R,
    most: u32,
    file: &[u8],
    status: Status,
    out: &str,
    err: &str,
) -> Result<(), Fail> {
    let (out, err) = (out.as_bytes(), err.as_bytes());
    expect_ends(rt, "run", file, Ends::of(most), status, out, err)
}

// Files at a limit, whose runs return.
const CLEAN: [&str; 2] = [
    r"package main
func main() {
a := make([]int, 65536)
}
",
    r"package main
func f(n int) {
if n > 0 {
f(n - 1)
}
}
func main() {
f(9997)
}
",
];

// Files above a limit, and the lines of their ends.
const CRASHED: [(&str, &str); 3] = [
    (
        r"package main
func main() {
a := make([]int, 65537)
}
",
        "panic: runtime error: makeslice: len out of range (goroutine 1, line 3)\n",
    ),
    (
        r"package main
func main() {
c := make(chan int, 65537)
}
",
        "panic: makechan: size out of range (goroutine 1, line 3)\n",
    ),
    (
        r"package main
func f(n int) {
if n > 0 {
f(n - 1)
}
}
func main() {
f(9998)
}
",
        "fatal error: stack overflow (goroutine 1, line 4)\n",
    ),
];

// Parentheses at the limit and above it, and a struct above its limit.
fn limits_of_made_files<R: AllocGlobal + Abort + Threads + Wait + Sync>(
    rt: &R,
) -> Result<(), Fail> {
    let alloc = rt.alloc();
    let (refused, nested_992) = (Status::Refused, nested(alloc, 992)?);
    expect_bytes(rt, 4, nested_992.as_slice(), Status::Clean, "", "")?;
    let (nested_993, line) = (nested(alloc, 993)?, "refused: line 3: syntax\n");
    expect_bytes(rt, 4, nested_993.as_slice(), refused, "", line)?;
    let (fields_65, line) = (struct_of(alloc, 65)?, "refused: line 2: rule 5\n");
    expect_bytes(rt, 4, fields_65.as_slice(), refused, "", line)
}

#[test]
fn limits(rt: HostRuntime) -> Result<(), Fail> {
    for file in CLEAN.iter() {
        expect(&rt, *file, Status::Clean, "", "")?;
    }
    for &(file, errors) in CRASHED.iter() {
        expect(&rt, file, Status::Crashed, "", errors)?;
    }
    limits_of_made_files(&rt)
}

#[test]
fn a_struct_may_have_64_fields(rt: HostRuntime) -> Result<(), Fail> {
    let file = struct_of(rt.alloc(), 64)?;
    expect_bytes(&rt, 4, file.as_slice(), Status::Clean, "", "")
}

// A file of `length` bytes that prints and ends in a comment.
fn file_of(alloc: Global, length: usize) -> Result<List<u8>, Fail> {
    let mut file = List::new(alloc);
    let program = "\
        package main\n\
        import \"fmt\"\n\
        func main() {\n\
        \tfmt.Println(1)\n\
        }\n\
        //";
    file.extend_from_slice(program.as_bytes())?;
    let rest = length.saturating_sub(file.len());
    file.extend_with(rest, b'a')?;
    Ok(file)
}

#[test]
fn a_file_of_1048576_bytes_runs_and_one_of_a_byte_more_does_not(
    rt: HostRuntime,
) -> Result<(), Fail> {
    let most = file_of(rt.alloc(), 1_048_576)?;
    expect_bytes(&rt, 4096, most.as_slice(), Status::Clean, "1\n", "")?;
    let more = file_of(rt.alloc(), 1_048_577)?;
    let line = "refused: more than 1048576 bytes\n";
    expect_bytes(&rt, 4096, more.as_slice(), Status::Refused, "", line)
}

// The errors of two collections with ten thousand goroutines that each wait in a `select`.
fn reports_of_selects(alloc: Global) -> Result<String, Fail> {
    let mut errors = String::new(alloc);
    errors.push_str(
        "collection 1: marked 0, reported 10000, kept 10000, reclaimed 0, objects 20000\n",
    )?;
    for goroutine in 2..10_002u32 {
        let line = format!(in alloc;
            "goroutine {goroutine}: select at line 4, started at line 11\n"
        )?;
        errors.push_str(line.as_str())?;
    }
    errors.push_str(
        "collection 2: marked 0, reported 0, kept 10000, reclaimed 0, objects 20000\n",
    )?;
    Ok(errors)
}

#[test]
fn ten_thousand_that_wait_in_a_select_are_reported_once_in_rising_number(
    rt: HostRuntime,
) -> Result<(), Fail> {
    let file = "\
        package main\n\
        import \"runtime\"\n\
        func wait(c, d chan int) {\n\
        \tselect {\n\
        \tcase <-c:\n\
        \tcase d <- 1:\n\
        \t}\n\
        }\n\
        func start() {\n\
        \tfor i := 0; i < 10000; i++ {\n\
        \t\tgo wait(make(chan int), make(chan int))\n\
        \t}\n\
        }\n\
        func main() {\n\
        \tstart()\n\
        \tfor i := 0; i < 50; i++ {\n\
        \t}\n\
        \truntime.GC()\n\
        \truntime.GC()\n\
        }\n";
    let errors = reports_of_selects(rt.alloc())?;
    let file = file.as_bytes();
    expect_bytes(&rt, 4096, file, Status::Found, "", errors.as_str())
}

// A recursion of `frames` frames besides that of `main`, each of which defers a call. The innermost one
// panics on line 16. The frame that calls `main` is one more.
fn deferring(alloc: Global, frames: u32) -> Result<String, Fail> {
    Ok(format!(in alloc;
        "\
        package main\n\
        import \"fmt\"\n\
        var count int\n\
        func up() {{\n\
        \tcount++\n\
        }}\n\
        func show() {{\n\
        \tfmt.Println(count)\n\
        }}\n\
        func f(n int) {{\n\
        \tdefer up()\n\
        \tif n > 1 {{\n\
        \t\tf(n - 1)\n\
        \t\treturn\n\
        \t}}\n\
        \tpanic(\"lost\")\n\
        }}\n\
        func main() {{\n\
        \tdefer show()\n\
        \tf({frames})\n\
        }}\n"
    )?)
}

#[test]
fn a_panic_in_9999_frames_runs_the_deferred_call_of_each(rt: HostRuntime) -> Result<(), Fail> {
    let file = deferring(rt.alloc(), 9997)?;
    let errors = "panic: lost (goroutine 1, line 16)\n";
    expect(&rt, file.as_str(), Status::Crashed, "9997\n", errors)
}

#[test]
fn with_one_frame_more_the_first_deferred_call_overflows_at_the_line_of_the_panic(
    rt: HostRuntime,
) -> Result<(), Fail> {
    let file = deferring(rt.alloc(), 9998)?;
    let errors = "fatal error: stack overflow (goroutine 1, line 16)\n";
    expect(&rt, file.as_str(), Status::Crashed, "", errors)
}
