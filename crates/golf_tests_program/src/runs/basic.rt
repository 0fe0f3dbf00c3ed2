//! Worked examples: the output of a file, the reports of its collections, and its ending.

use crate::calls::{Row, expect, expect_rows};
use golf_run_texts::Status;
use std::alloc::Global;
use std::test::Fail;

pub const EMPTY_MAIN: &str = r"package main
func main() {
}
";

pub const LITERALS: &str = "\
    package main\n\
    import \"fmt\"\n\
    func main() {\n\
    \tfmt.Println(1, true, \"a\")\n\
    }\n";

const VARIABLE: &str = "\
    package main\n\
    import \"fmt\"\n\
    func main() {\n\
    \tx := 7\n\
    \tfmt.Println(x, \"a\\tb\", false)\n\
    }\n";

// examples/leak.go
pub const LEAK: &str = "\
    package main\n\
    import \"fmt\"\n\
    import \"runtime\"\n\
    func recv(c chan int) {\n\
    \t<-c\n\
    }\n\
    func leak() {\n\
    \tc := make(chan int)\n\
    \tgo recv(c)\n\
    }\n\
    func main() {\n\
    \tleak()\n\
    \tfmt.Println(1)\n\
    \truntime.GC()\n\
    }\n";

/// Goroutine 2 waits on a channel of the main goroutine. Goroutine 3 waits on a channel to which goroutine
/// 2 refers.
pub const TWO_ROUNDS: &str = "\
    package main\n\
    import \"fmt\"\n\
    import \"runtime\"\n\
    func two(a chan int, b chan int) {\n\
    \t<-a\n\
    \tb <- 1\n\
    }\n\
    func three(b chan int) {\n\
    \t<-b\n\
    }\n\
    func start(a chan int) {\n\
    \tb := make(chan int)\n\
    \tgo two(a, b)\n\
    \tgo three(b)\n\
    }\n\
    func main() {\n\
    \ta := make(chan int)\n\
    \tstart(a)\n\
    \tfmt.Println(1)\n\
    \tfmt.Println(2)\n\
    \tfmt.Println(3)\n\
    \tfmt.Println(4)\n\
    \truntime.GC()\n\
    \tclose(a)\n\
    }\n";

// Small files, and their output.
const PRINTED: [Row; 4] = [
    Row {
        shows: "an empty main writes nothing",
        line: "run",
        file: EMPTY_MAIN,
        status: Status::Clean,
        out: "",
        err: "",
    },
    Row {
        shows: "literals are printed with one space between",
        line: "run",
        file: LITERALS,
        status: Status::Clean,
        out: "1 true a\n",
        err: "",
    },
    Row {
        shows: "a variable and an escape are printed",
        line: "run",
        file: VARIABLE,
        status: Status::Clean,
        out: "7 a\tb false\n",
        err: "",
    },
    Row {
        shows: "a variable may be named main or init",
        line: "run",
        file: "\
            package main\n\
            import \"fmt\"\n\
            func main() {\n\
            \tmain := 1\n\
            \tinit := 2\n\
            \tfmt.Println(main, init)\n\
            }\n",
        status: Status::Clean,
        out: "1 2\n",
        err: "",
    },
];

#[test]
fn what_small_files_print(rt: HostRuntime) -> Result<(), Fail> {
    expect_rows(&rt, &PRINTED)
}

// Files, and the reports of their collections.
const COLLECTED: [Row; 3] = [
    Row {
        shows: "a leak is reported with its lines",
        line: "run",
        file: LEAK,
        status: Status::Found,
        out: "1\n",
        err: r"collection 1: marked 0, reported 1, kept 1, reclaimed 0, objects 1
goroutine 2: chan receive at line 5, started at line 9
",
    },
    Row {
        shows: "a waiter is live by two rounds of root growth",
        line: "run",
        file: TWO_ROUNDS,
        status: Status::Clean,
        out: "1\n2\n3\n4\n",
        err: "collection 1: marked 2, reported 0, kept 0, reclaimed 0, objects 2\n",
    },
    Row {
        shows: "a cycle of waiters is reported once",
        line: "run",
        file: "\
            package main\n\
            import \"runtime\"\n\
            import \"fmt\"\n\
            func wait(x chan int, y chan int) {\n\
            \t<-x\n\
            \ty <- 1\n\
            }\n\
            func start() {\n\
            \tx := make(chan int)\n\
            \ty := make(chan int)\n\
            \tgo wait(x, y)\n\
            \tgo wait(y, x)\n\
            }\n\
            func main() {\n\
            \tstart()\n\
            \tfmt.Println(1)\n\
            \tfmt.Println(2)\n\
            \tfmt.Println(3)\n\
            \tfmt.Println(4)\n\
            \truntime.GC()\n\
            \truntime.GC()\n\
            }\n",
        status: Status::Found,
        out: "1\n2\n3\n4\n",
        err: r"collection 1: marked 0, reported 2, kept 2, reclaimed 0, objects 2
goroutine 2: chan receive at line 5, started at line 11
goroutine 3: chan receive at line 5, started at line 12
collection 2: marked 0, reported 0, kept 2, reclaimed 0, objects 2
",
    },
];

#[test]
fn what_collections_report(rt: HostRuntime) -> Result<(), Fail> {
    expect_rows(&rt, &COLLECTED)
}

// Files whose programs do not return.
const STOPPED: [Row; 2] = [
    Row {
        shows: "a program that waits alone is asleep",
        line: "run",
        file: "\
            package main\n\
            func main() {\n\
            \tc := make(chan int)\n\
            \t<-c\n\
            }\n",
        status: Status::Crashed,
        out: "",
        err: "fatal error: all goroutines are asleep - deadlock!\n",
    },
    Row {
        shows: "a program that goes on for ever is stopped",
        line: "run",
        file: "\
            package main\n\
            func f() {\n\
            \tgo f()\n\
            }\n\
            func main() {\n\
            \tc := make(chan int)\n\
            \tgo f()\n\
            \t<-c\n\
            }\n",
        status: Status::Spent,
        out: "",
        err: "stopped after 1000000 turns\n",
    },
];

#[test]
fn what_waits_or_runs_for_ever_is_stopped(rt: HostRuntime) -> Result<(), Fail> {
    expect_rows(&rt, &STOPPED)
}

// A file whose `main` calls the first of `count` functions, each of which calls the next one.
fn chain(alloc: Global, count: u32) -> Result<String, Fail> {
    let mut file = String::from_str(alloc, "package main\nfunc main() {\n\tf1()\n}\n")?;
    for number in 1..count {
        let next = number + 1;
        let function = format!(in alloc; "func f{number}() {{\n\tf{next}()\n}}\n")?;
        file.push_str(function.as_str())?;
    }
    let last = format!(in alloc; "func f{count}() {{\n}}\n")?;
    file.push_str(last.as_str())?;
    Ok(file)
}

#[test]
fn ten_thousand_frames_are_enough(rt: HostRuntime) -> Result<(), Fail> {
    let file = chain(rt.alloc(), 9998)?;
    expect(&rt, file.as_str(), Status::Clean, "", "")
}

#[test]
fn one_frame_more_is_a_stack_overflow(rt: HostRuntime) -> Result<(), Fail> {
    let file = chain(rt.alloc(), 9999)?;
    let errors = "fatal error: stack overflow (goroutine 1, line 29997)\n";
    expect(&rt, file.as_str(), Status::Crashed, "", errors)
}
