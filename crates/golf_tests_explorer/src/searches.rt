//! Tests of a search by preemptions. Each of these files has one schedule of the fewest turns, which is found by hand:
//! the goroutine of the last turn goes on until it must be preempted. The numbers of states are those of the model of
//! `tests/explored.py`.

use crate::answers::{LEAK, LEAK_ANSWER};
use crate::calls::{NONE, NOTE, Row, expect_rows};
use crate::streams::USAGE;
use golf_run_texts::Status;
use std::test::Fail;

const ASLEEP: &str = "package main\n\nfunc main() {\n\tc := make(chan int)\n\t<-c\n}\n";

const SEARCHES: [Row; 7] = [
    Row {
        shows: "a leak that one preemption brings about is found",
        line: "search",
        file: LEAK,
        failing: NONE,
        status: Status::Found,
        out: LEAK_ANSWER,
        err: NOTE,
    },
    Row {
        shows: "without a preemption main goes on to its end",
        line: "search --preemptions 0",
        file: LEAK,
        failing: NONE,
        status: Status::Clean,
        out: "nothing found: 4 states, at most 0 preemptions\n",
        err: NOTE,
    },
    Row {
        shows: "a panic is told with the words of a run and what that run writes",
        line: "search --for panic",
        file: "package main\n\nfunc main() {\n\tpanic(\"a\")\n}\n",
        failing: NONE,
        status: Status::Found,
        out: "panic: --schedule choices:0,0,0,0,0\npanic: a (goroutine 1, line 4)\n",
        err: NOTE,
    },
    Row {
        shows: "a sleep is told with the words of a run and what that run writes",
        line: "search --for asleep",
        file: ASLEEP,
        failing: NONE,
        status: Status::Found,
        out: "asleep: --schedule choices:0,0,0,0,0,0\nfatal error: all goroutines are asleep - deadlock!\n",
        err: NOTE,
    },
    Row {
        shows: "a file that falls asleep has no panic",
        line: "search --for panic --states 9",
        file: ASLEEP,
        failing: NONE,
        status: Status::Clean,
        out: "nothing found: 3 states, at most 2 preemptions\n",
        err: "at most 9 states, about 1 MB of memory\n",
    },
    Row {
        shows: "more states than were allowed stop the search",
        line: "search --states 3",
        file: LEAK,
        failing: NONE,
        status: Status::Spent,
        out: "stopped: more than 3 states\n",
        err: "at most 3 states, about 1 MB of memory\n",
    },
    Row {
        shows: "words after which no search follows have the usage",
        line: "search --for luck",
        file: LEAK,
        failing: NONE,
        status: Status::Usage,
        out: "",
        err: USAGE,
    },
];

#[test]
fn each_search_has_its_answer(rt: HostRuntime) -> Result<(), Fail> {
    expect_rows(&rt, &SEARCHES)
}
