//! Tests of finalisers and of the goroutines that are kept for them.

use crate::calls::{Row, expect_rows};
use golf_run_texts::Status;
use std::test::Fail;

// A goroutine that waits for ever shares an object, which gets a finaliser after the first collection.
const SET_LATER: &str = "\
    package main\n\
    import (\n\
    \t\"fmt\"\n\
    \t\"runtime\"\n\
    )\n\
    type Res struct {\n\
    \tn int\n\
    }\n\
    var keep = &Res{n: 5}\n\
    func done(r *Res) {\n\
    \tfmt.Println(\"done\", r.n)\n\
    }\n\
    func hold(r *Res, c chan int) {\n\
    \t<-c\n\
    \tfmt.Println(r.n)\n\
    }\n\
    func main() {\n\
    \tgo hold(keep, make(chan int))\n\
    \tfor i := 0; i < 50; i++ {\n\
    \t}\n\
    \truntime.GC()\n\
    \truntime.SetFinalizer(keep, done)\n\
    \tkeep = nil\n\
    \truntime.GC()\n\
    \tfor i := 0; i < 50; i++ {\n\
    \t}\n\
    \tfmt.Println(\"end\")\n\
    }\n";

// The channel of a goroutine that waits is in an object that only its finaliser can use.
const HELD: &str = "\
    package main\n\
    import (\n\
    \t\"fmt\"\n\
    \t\"runtime\"\n\
    )\n\
    type Box struct {\n\
    \tc chan int\n\
    }\n\
    func last(b *Box) {\n\
    \tb.c <- 9\n\
    }\n\
    func wait(c chan int) {\n\
    \tv := <-c\n\
    \tfmt.Println(\"got\", v)\n\
    }\n\
    func start() {\n\
    \tb := &Box{c: make(chan int)}\n\
    \truntime.SetFinalizer(b, last)\n\
    \tgo wait(b.c)\n\
    }\n\
    func main() {\n\
    \tstart()\n\
    \tfor i := 0; i < 50; i++ {\n\
    \t}\n\
    \truntime.GC()\n\
    \tfor i := 0; i < 50; i++ {\n\
    \t}\n\
    \truntime.GC()\n\
    }\n";

// The output and the reports of these files.
const ROWS: [Row; 4] = [
    Row {
        shows: "a finaliser is set later on an object that a dead goroutine shares",
        line: "run",
        file: SET_LATER,
        status: Status::Found,
        out: "end\n",
        err: r"collection 1: marked 1, reported 1, kept 1, reclaimed 0, objects 2
goroutine 2: chan receive at line 14, started at line 18
collection 2: marked 0, reported 0, kept 1, reclaimed 0, objects 2
",
    },
    Row {
        shows: "a finaliser is set later on an object that a dead goroutine shares with recovery",
        line: "run --recover",
        file: SET_LATER,
        status: Status::Found,
        out: "end\n",
        err: r"collection 1: marked 1, reported 1, kept 1, reclaimed 0, objects 2
goroutine 2: chan receive at line 14, started at line 18
collection 2: marked 0, reported 0, kept 1, reclaimed 0, objects 2
",
    },
    Row {
        shows: "an unreachable object with a finaliser holds the channel of a waiter",
        line: "run",
        file: HELD,
        status: Status::Clean,
        out: "got 9\n",
        err: r"collection 1: marked 1, reported 0, kept 0, reclaimed 0, objects 2
collection 2: marked 0, reported 0, kept 0, reclaimed 0, objects 0
",
    },
    Row {
        shows: "an unreachable object with a finaliser holds the channel of a waiter with recovery",
        line: "run --recover",
        file: HELD,
        status: Status::Clean,
        out: "got 9\n",
        err: r"collection 1: marked 1, reported 0, kept 0, reclaimed 0, objects 2
collection 2: marked 0, reported 0, kept 0, reclaimed 0, objects 0
",
    },
];

#[test]
fn finalisers_run_and_keep_goroutines(rt: HostRuntime) -> Result<(), Fail> {
    expect_rows(&rt, &ROWS)
}
