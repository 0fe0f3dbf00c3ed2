//! Tests of runs with `--why`: certificates, and the ways to live goroutines that wait.

use crate::calls::{Ends, Row, expect_failing, expect_rows};
use crate::runs::worked::{POOL, POOL_OUT};
use golf_run_texts::Status;
use std::test::Fail;

/// A global channel wakes goroutine 2, which holds the channel that wakes goroutine 3.
pub const TWO_ROUNDS: &str = "\
    package main\n\
    import \"runtime\"\n\
    var c1 = make(chan int)\n\
    func two(c2 chan int) {\n\
    \t<-c1\n\
    \tc2 <- 1\n\
    }\n\
    func three(c2 chan int) {\n\
    \t<-c2\n\
    }\n\
    func start() {\n\
    \tc2 := make(chan int)\n\
    \tgo two(c2)\n\
    \tgo three(c2)\n\
    }\n\
    func main() {\n\
    \tstart()\n\
    \tfor i := 0; i < 50; i++ {\n\
    \t}\n\
    \truntime.GC()\n\
    }\n";

const TWO_ROUNDS_ERRORS: &str = r"collection 1: marked 2, reported 0, kept 0, reclaimed 0, objects 2
certificate 1: 4 places
goroutine 2: chan receive at line 5, reached by object 1
goroutine 3: chan receive at line 9, reached by object 1, goroutine 2, object 2
";

// Runs with `--why`.
const ROWS: [Row; 4] = [
    Row {
        shows: "reasons go through goroutines that wait",
        line: "run --why",
        file: TWO_ROUNDS,
        status: Status::Clean,
        out: "",
        err: TWO_ROUNDS_ERRORS,
    },
    // The globals x and y are objects 1 and 2. Both refer to the channel, object 3, on which goroutine 2
    // waits. Goroutine 3 waits on a channel to which nothing else refers.
    Row {
        shows: "a reason has the less of two parents and a dead goroutine has none",
        line: "run --why",
        file: "\
            package main\n\
            import \"runtime\"\n\
            type Box struct {\n\
            \tc chan int\n\
            }\n\
            var x = &Box{}\n\
            var y = &Box{}\n\
            func recv(c chan int) {\n\
            \t<-c\n\
            }\n\
            func start() {\n\
            \tc := make(chan int)\n\
            \ty.c = c\n\
            \tx.c = c\n\
            \tgo recv(c)\n\
            \tgo recv(make(chan int))\n\
            }\n\
            func main() {\n\
            \tstart()\n\
            \tfor i := 0; i < 50; i++ {\n\
            \t}\n\
            \truntime.GC()\n\
            }\n",
        status: Status::Found,
        out: "",
        err: r"collection 1: marked 3, reported 1, kept 1, reclaimed 0, objects 4
goroutine 3: chan receive at line 9, started at line 16
certificate 1: 4 places
goroutine 2: chan receive at line 9, reached by object 1, object 3
",
    },
    Row {
        shows: "the pool has a certificate and nobody who waits and is live",
        line: "run --why --recover",
        file: POOL,
        status: Status::Found,
        out: POOL_OUT,
        err: r"collection 1: marked 2, reported 1, kept 0, reclaimed 1, objects 2
goroutine 5: chan send at line 34, started at line 29
certificate 1: 2 places
",
    },
    Row {
        shows: "a program that falls asleep has a certificate for each collection before",
        line: "run --every 1 --why",
        file: "\
            package main\n\
            func main() {\n\
            \tc := make(chan int)\n\
            \t<-c\n\
            }\n",
        status: Status::Crashed,
        out: "",
        err: r"collection 1: marked 0, reported 0, kept 0, reclaimed 0, objects 0
certificate 1: 0 places
collection 2: marked 0, reported 0, kept 0, reclaimed 0, objects 0
certificate 2: 0 places
collection 3: marked 1, reported 0, kept 0, reclaimed 0, objects 1
certificate 3: 1 places
collection 4: marked 1, reported 0, kept 0, reclaimed 0, objects 1
certificate 4: 1 places
collection 5: marked 1, reported 0, kept 0, reclaimed 0, objects 1
certificate 5: 1 places
fatal error: all goroutines are asleep - deadlock!
",
    },
];

#[test]
fn why_goroutines_that_wait_are_live(rt: HostRuntime) -> Result<(), Fail> {
    expect_rows(&rt, &ROWS)
}

// Each line is its own write: the third call of `err` has the line of goroutine 2.
const FAILING: [(Ends, Row); 1] = [(
    Ends {
        most: 256,
        source: 0,
        out: 0,
        err: 3,
    },
    Row {
        shows: "a write that fails leaves the lines before it",
        line: "run --why",
        file: TWO_ROUNDS,
        status: Status::WriteFault,
        out: "",
        err: r"collection 1: marked 2, reported 0, kept 0, reclaimed 0, objects 2
certificate 1: 4 places
",
    },
)];

#[test]
fn a_write_that_fails_leaves_the_lines_before_it(rt: HostRuntime) -> Result<(), Fail> {
    expect_failing(&rt, &FAILING)
}
