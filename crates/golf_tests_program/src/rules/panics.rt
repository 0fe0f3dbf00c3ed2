//! Tests of panics and fatal errors (Go specification, "Handling panics", "Run-time panics", "Send
//! statements", "Close"; package sync).

use crate::calls::{Row, expect, expect_rows};
use golf_run_texts::Status;
use std::alloc::Global;
use std::test::Fail;

// Bodies of `main` that panic on line 12, after `main` deferred a call, and the last lines of their runs.
const PANICS: [(&str, &str); 5] = [
    (
        "wg := new(sync.WaitGroup)\n\twg.Add(-1)",
        "panic: sync: negative WaitGroup counter (goroutine 1, line 12)\n",
    ),
    (
        "close(closed)\n\tclose(closed)",
        "panic: close of closed channel (goroutine 1, line 12)\n",
    ),
    (
        "close(closed)\n\tclosed <- 1",
        "panic: send on closed channel (goroutine 1, line 12)\n",
    ),
    (
        "s := []int{1, 2}\n\ts[2] = 3",
        "panic: runtime error: index out of range [2] with length 2 (goroutine 1, line 12)\n",
    ),
    (
        "n := 0 - 1\n\t_ = make([]int, n)",
        "panic: runtime error: makeslice: len out of range (goroutine 1, line 12)\n",
    ),
];

// The file with this body of `main`.
fn panicking(alloc: Global, body: &str) -> Result<String, Fail> {
    Ok(format!(in alloc;
        "\
        package main\n\
        import \"fmt\"\n\
        import \"sync\"\n\
        var group *sync.WaitGroup\n\
        var closed = make(chan int)\n\
        func bye() {{\n\
        \tfmt.Println(\"bye\")\n\
        }}\n\
        func main() {{\n\
        \tdefer bye()\n\
        \t{body}\n\
        \tfmt.Println(\"never\")\n\
        }}\n"
    )?)
}

#[test]
fn each_panic_runs_deferred_calls_first(rt: HostRuntime) -> Result<(), Fail> {
    for &(body, errors) in PANICS.iter() {
        let file = panicking(rt.alloc(), body)?;
        expect(&rt, file.as_str(), Status::Crashed, "bye\n", errors)?;
    }
    Ok(())
}

// Files of several goroutines.
const ROWS: [Row; 3] = [
    // The second value waits until the first one is received. Then the sender goes on.
    Row {
        shows: "who sends twice into a buffer of one goes on after a receive",
        line: "run",
        file: "\
            package main\n\
            import \"fmt\"\n\
            func twice(c chan int) {\n\
            \tc <- 1\n\
            \tc <- 2\n\
            \tfmt.Println(\"sent\")\n\
            }\n\
            func main() {\n\
            \tc := make(chan int, 1)\n\
            \tgo twice(c)\n\
            \tfor i := 0; i < 50; i++ {\n\
            \t}\n\
            \tfmt.Println(\"waits\")\n\
            \t<-c\n\
            \tfor i := 0; i < 50; i++ {\n\
            \t}\n\
            \tfmt.Println(<-c)\n\
            }\n",
        status: Status::Clean,
        out: "waits\nsent\n2\n",
        err: "",
    },
    Row {
        shows: "a fatal error names its goroutine and runs no deferred call",
        line: "run",
        file: "\
            package main\n\
            import \"fmt\"\n\
            import \"sync\"\n\
            func bye() {\n\
            \tfmt.Println(\"bye\")\n\
            }\n\
            func let(mu *sync.Mutex) {\n\
            \tdefer bye()\n\
            \tmu.Unlock()\n\
            }\n\
            func main() {\n\
            \tdefer bye()\n\
            \tgo let(new(sync.Mutex))\n\
            \tfor i := 0; i < 50; i++ {\n\
            \t}\n\
            }\n",
        status: Status::Crashed,
        out: "",
        err: "fatal error: sync: unlock of unlocked mutex (goroutine 2, line 9)\n",
    },
    Row {
        shows: "a panic of another goroutine names it",
        line: "run",
        file: "\
            package main\n\
            func lose() {\n\
            \tpanic(\"lost\")\n\
            }\n\
            func main() {\n\
            \tgo lose()\n\
            \tfor i := 0; i < 50; i++ {\n\
            \t}\n\
            }\n",
        status: Status::Crashed,
        out: "",
        err: "panic: lost (goroutine 2, line 3)\n",
    },
];

#[test]
fn goroutines_that_wait_or_panic(rt: HostRuntime) -> Result<(), Fail> {
    expect_rows(&rt, &ROWS)
}
