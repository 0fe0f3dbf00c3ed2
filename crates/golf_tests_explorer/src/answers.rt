//! Tests of the answers of a search. `bench/explored.py` has a model of the machine in another language.
//! The numbers of states and of turns are those of that model. The lines of a leak are those of `golf run`
//! with its words.

use crate::calls::{NONE, NOTE, Row, expect_rows, sink_of, source_of, words_of};
use golf_base::OpenGate;
use golf_command::golf;
use golf_run_texts::Status;
use std::test::Fail;

/// Two senders, and one receiver of both values.
pub const TWO_SENDERS: &str =
    "package main\n\nimport \"fmt\"\n\nfunc send(c chan int, n int) {\n\tc <- n\n}\n\nfunc main() {\n\tc := make(chan int)\n\tgo send(c, 1)\n\tgo send(c, 2)\n\tfmt.Println(<-c + <-c)\n}\n";

// Two senders that differ in their numbers alone, and one receiver.
const ALIKE_SENDERS: &str =
    "package main\n\nimport \"fmt\"\n\nfunc send(c chan int) {\n\tc <- 1\n}\n\nfunc main() {\n\tc := make(chan int)\n\tfor i := 0; i < 2; i++ {\n\t\tgo send(c)\n\t}\n\tfmt.Println(<-c + <-c)\n}\n";

// A receiver on a channel that no other goroutine has.
pub const LEAK: &str =
    "package main\n\nfunc wait(c chan int) {\n\t<-c\n}\n\nfunc main() {\n\tc := make(chan int)\n\tgo wait(c)\n\tfor i := 0; i < 2; i++ {\n\t}\n}\n";

const LEAK_WORDS: &str = "run --every 8 --schedule choices:0,0,0,0,0,0,1,1";

const LEAK_LINES: &str =
    "collection 1: marked 0, reported 1, kept 1, reclaimed 0, objects 1\ngoroutine 2: chan receive at line 4, started at line 9\nstopped after 8 turns\n";

pub const LEAK_ANSWER: &str =
    "leak: --every 8 --schedule choices:0,0,0,0,0,0,1,1\ncollection 1: marked 0, reported 1, kept 1, reclaimed 0, objects 1\ngoroutine 2: chan receive at line 4, started at line 9\nstopped after 8 turns\n";

// A loop that makes a channel in each turn.
const ENDLESS: &str =
    "package main\n\nfunc main() {\n\tfor {\n\t\tc := make(chan int)\n\t\tc = nil\n\t\tif c != nil {\n\t\t\treturn\n\t\t}\n\t}\n}\n";

const FINALISER: &str =
    "package main\n\nimport \"runtime\"\n\ntype node struct {\n\tn int\n}\n\nfunc drop(x *node) {\n}\n\nfunc main() {\n\tx := &node{n: 1}\n\truntime.SetFinalizer(x, drop)\n}\n";

const ANSWERS: [Row; 8] = [
    Row {
        shows: "all schedules of three goroutines are looked at",
        line: "all",
        file: TWO_SENDERS,
        failing: NONE,
        status: Status::Clean,
        out: "every schedule: 31 states, no leak\nnever panics\nnever all asleep\nalways ends\n",
        err: NOTE,
    },
    Row {
        shows: "of states that differ in numbers of goroutines alone one counts",
        line: "all",
        file: ALIKE_SENDERS,
        failing: NONE,
        status: Status::Clean,
        out: "every schedule: 21 states, no leak\nnever panics\nnever all asleep\nalways ends\n",
        err: NOTE,
    },
    Row {
        shows: "a program that panics is said to",
        line: "all",
        file: "package main\n\nfunc main() {\n\tpanic(\"a\")\n}\n",
        failing: NONE,
        status: Status::Clean,
        out: "every schedule: 3 states, no leak\npanics under some schedule\nnever all asleep\nalways ends\n",
        err: NOTE,
    },
    Row {
        shows: "a program that falls asleep is said to",
        line: "all",
        file: "package main\n\nfunc main() {\n\tc := make(chan int)\n\t<-c\n}\n",
        failing: NONE,
        status: Status::Clean,
        out: "every schedule: 4 states, no leak\nnever panics\nall asleep under some schedule\nalways ends\n",
        err: NOTE,
    },
    Row {
        shows: "of a loop without an end it is not said that each run ends",
        line: "all",
        file: "package main\n\nfunc main() {\n\tfor {\n\t}\n}\n",
        failing: NONE,
        status: Status::Clean,
        out: "every schedule: 2 states, no leak\nnever panics\nnever all asleep\n",
        err: NOTE,
    },
    Row {
        shows: "a leak is told with the words of a run and what that run writes",
        line: "all",
        file: LEAK,
        failing: NONE,
        status: Status::Found,
        out: LEAK_ANSWER,
        err: NOTE,
    },
    Row {
        shows: "objects without end stop the search",
        line: "all --states 40",
        file: ENDLESS,
        failing: NONE,
        status: Status::Spent,
        out: "stopped: more than 40 states\n",
        err: "at most 40 states, about 1 MB of memory\n",
    },
    Row {
        shows: "a finaliser stops the search",
        line: "all --states=200",
        file: FINALISER,
        failing: NONE,
        status: Status::Spent,
        out: "stopped: the file sets finalisers\n",
        err: "at most 200 states, about 2 MB of memory\n",
    },
];

#[test]
fn each_answer_has_its_lines_and_its_status(rt: HostRuntime) -> Result<(), Fail> {
    expect_rows(&rt, &ANSWERS)
}

#[test]
fn golf_run_replays_a_leak_by_its_words(rt: HostRuntime) -> Result<(), Fail> {
    let alloc = rt.alloc();
    let mut source = source_of(alloc, LEAK, 0)?;
    let mut out = sink_of(alloc, 0)?;
    let mut err = sink_of(alloc, 0)?;
    let words = words_of(alloc, LEAK_WORDS)?;
    let status = golf(&rt, &words, &mut source, &mut out, &mut err, &OpenGate);
    assert!(rt; status == Status::Spent);
    assert_eq!(rt; err.written(), LEAK_LINES.as_bytes());
    Ok(())
}
