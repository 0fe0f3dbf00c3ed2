//! Tests of the frame that collects: a variable that is not read again keeps nothing reachable.

use crate::calls::{Row, expect_rows};
use golf_run_texts::Status;
use std::test::Fail;

const READ_NO_MORE: &str = "\
    package main\n\
    import \"runtime\"\n\
    func send(c chan int) {\n\
    \tc <- 1\n\
    \tc <- 2\n\
    }\n\
    func first() {\n\
    \tc := make(chan int)\n\
    \tgo send(c)\n\
    \t<-c\n\
    \tfor i := 0; i < 50; i++ {\n\
    \t}\n\
    \truntime.GC()\n\
    }\n\
    func main() {\n\
    \tfirst()\n\
    }\n";

const READ_LATER: &str = "\
    package main\n\
    import (\n\
    \t\"fmt\"\n\
    \t\"runtime\"\n\
    )\n\
    func send(c chan int) {\n\
    \tc <- 1\n\
    \tc <- 2\n\
    }\n\
    func first() {\n\
    \tc := make(chan int)\n\
    \tgo send(c)\n\
    \t<-c\n\
    \tfor i := 0; i < 50; i++ {\n\
    \t}\n\
    \truntime.GC()\n\
    \tfmt.Println(<-c)\n\
    }\n\
    func main() {\n\
    \tfirst()\n\
    }\n";

const READ_LATER_ERRORS: &str =
    "collection 1: marked 1, reported 0, kept 0, reclaimed 0, objects 1\n";

const CLOSED_LATER: &str = "\
    package main\n\
    import \"runtime\"\n\
    func send(c chan int) {\n\
    \tc <- 1\n\
    \tc <- 2\n\
    }\n\
    func first() {\n\
    \tc := make(chan int)\n\
    \tdefer close(c)\n\
    \tgo send(c)\n\
    \t<-c\n\
    \tfor i := 0; i < 50; i++ {\n\
    \t}\n\
    \truntime.GC()\n\
    }\n\
    func main() {\n\
    \tfirst()\n\
    }\n";

const CLOSED_LATER_ERRORS: &str =
    r"collection 1: marked 1, reported 0, kept 0, reclaimed 0, objects 1
panic: send on closed channel (goroutine 2, line 5)
";

// Files in which the frame that collects has variables that are read later, or never again.
const ROWS: [Row; 7] = [
    Row {
        shows: "a sender whose channel is read no more is reported",
        line: "run",
        file: READ_NO_MORE,
        status: Status::Found,
        out: "",
        err: r"collection 1: marked 0, reported 1, kept 1, reclaimed 0, objects 1
goroutine 2: chan send at line 5, started at line 9
",
    },
    Row {
        shows: "a sender whose channel is read no more is reported with recovery",
        line: "run --recover",
        file: READ_NO_MORE,
        status: Status::Found,
        out: "",
        err: r"collection 1: marked 0, reported 1, kept 0, reclaimed 1, objects 0
goroutine 2: chan send at line 5, started at line 9
",
    },
    Row {
        shows: "a sender whose channel is read after the collection is not",
        line: "run",
        file: READ_LATER,
        status: Status::Clean,
        out: "2\n",
        err: READ_LATER_ERRORS,
    },
    Row {
        shows: "a sender whose channel is read after the collection is not with recovery",
        line: "run --recover",
        file: READ_LATER,
        status: Status::Clean,
        out: "2\n",
        err: READ_LATER_ERRORS,
    },
    Row {
        shows: "a sender whose channel a deferred call closes is not",
        line: "run",
        file: CLOSED_LATER,
        status: Status::Crashed,
        out: "",
        err: CLOSED_LATER_ERRORS,
    },
    Row {
        shows: "a sender whose channel a deferred call closes is not with recovery",
        line: "run --recover",
        file: CLOSED_LATER,
        status: Status::Crashed,
        out: "",
        err: CLOSED_LATER_ERRORS,
    },
    Row {
        shows: "who goes on after a select holds what other cases read until its next turn",
        line: "run",
        file: "\
            package main\n\
            import \"runtime\"\n\
            func wait(c chan int) {\n\
            \t<-c\n\
            }\n\
            func take(b chan int) {\n\
            \tfor i := 0; i < 50; i++ {\n\
            \t}\n\
            \t<-b\n\
            }\n\
            func main() {\n\
            \ta := make(chan int)\n\
            \tb := make(chan int)\n\
            \tc := make(chan int)\n\
            \tgo wait(c)\n\
            \tgo take(b)\n\
            \tselect {\n\
            \tcase <-a:\n\
            \t\tclose(c)\n\
            \tcase b <- 1:\n\
            \t\truntime.GC()\n\
            \t\tfor i := 0; i < 1; i++ {\n\
            \t\t}\n\
            \t\truntime.GC()\n\
            \t}\n\
            }\n",
        status: Status::Found,
        out: "",
        err: r"collection 1: marked 1, reported 0, kept 0, reclaimed 0, objects 1
collection 2: marked 0, reported 1, kept 1, reclaimed 0, objects 1
goroutine 2: chan receive at line 4, started at line 15
",
    },
];

#[test]
fn a_variable_that_is_read_no_more_keeps_nothing(rt: HostRuntime) -> Result<(), Fail> {
    expect_rows(&rt, &ROWS)
}
