//! Tests of the lines that a trace tells of each turn. `bench/traced.py` makes them by a model of the machine in
//! another language. That model has no goroutine 0.

use crate::calls::{Failing, NONE, Row, expect_rows, sink_of, source_of, words_of};
use golf_explore_command::explorer;
use golf_run_texts::Status;
use std::test::Fail;

// A sender wakes the receiver, and ends.
const SENDER: &str =
    "package main\n\nfunc send(c chan int) {\n\tc <- 1\n}\n\nfunc main() {\n\tc := make(chan int)\n\tgo send(c)\n\t<-c\n}\n";

const SENDER_TURNS: &str =
    "turn 1: goroutine 1 at line 7\nturn 2: goroutine 1 at line 8\nturn 3: goroutine 1 at line 8\nturn 4: goroutine 1 at line 8\nturn 5: goroutine 1 at line 9\nturn 6: goroutine 1 at line 9, starts goroutine 2\nturn 7: goroutine 1 at line 10\nturn 8: goroutine 2 at line 4\nturn 9: goroutine 1 at line 10, blocks\nturn 10: goroutine 2 at line 4\nturn 11: goroutine 2 at line 4, wakes goroutine 1\nturn 12: goroutine 2 at line 3, ends\nturn 13: goroutine 1 at line 10\nturn 14: goroutine 1 at line 7\nturn 15: goroutine 1 at line 7, ends\n";

// A goroutine that panics unwinds through a deferred call, which wakes the other.
const UNWINDS: &str =
    "package main\n\nimport \"sync\"\n\nfunc work(w *sync.WaitGroup) {\n\tdefer w.Done()\n\tpanic(\"a\")\n}\n\nfunc main() {\n\tw := new(sync.WaitGroup)\n\tw.Add(1)\n\tgo work(w)\n\tw.Wait()\n}\n";

const UNWINDS_TURNS: &str =
    "turn 1: goroutine 1 at line 10\nturn 2: goroutine 1 at line 11\nturn 3: goroutine 1 at line 11\nturn 4: goroutine 1 at line 12\nturn 5: goroutine 1 at line 12\nturn 6: goroutine 1 at line 12\nturn 7: goroutine 1 at line 13\nturn 8: goroutine 1 at line 13, starts goroutine 2\nturn 9: goroutine 1 at line 14\nturn 10: goroutine 1 at line 14, blocks\nturn 11: goroutine 2 at line 6\nturn 12: goroutine 2 at line 6\nturn 13: goroutine 2 at line 7\nturn 14: goroutine 2 at line 7\nturn 15: goroutine 2 at line 7\nturn 16: goroutine 2 at line 6\nturn 17: goroutine 2 at line 6\nturn 18: goroutine 2 at line 6, wakes goroutine 1\nturn 19: goroutine 2 at line 6\nturn 20: goroutine 2 at line 7, ends\npanic: a (goroutine 2, line 7)\n";

const LEAK: &str =
    "package main\n\nfunc wait(c chan int) {\n\t<-c\n}\n\nfunc main() {\n\tc := make(chan int)\n\tgo wait(c)\n\tfor i := 0; i < 2; i++ {\n\t}\n}\n";

const LEAK_TURNS: &str =
    "turn 1: goroutine 1 at line 7\nturn 2: goroutine 1 at line 8\nturn 3: goroutine 1 at line 8\nturn 4: goroutine 1 at line 8\nturn 5: goroutine 1 at line 9\nturn 6: goroutine 1 at line 9, starts goroutine 2\nturn 7: goroutine 2 at line 4\nturn 8: goroutine 2 at line 4, blocks\ncollection 1: marked 0, reported 1, kept 1, reclaimed 0, objects 1\ngoroutine 2: chan receive at line 4, started at line 9\nstopped after 8 turns\n";

// One thread has the numbers 0, 1, 2 and so on, while one goroutine can run.
const SEVEN: &str = "package main\n\nimport \"fmt\"\n\nfunc main() {\n\tfmt.Println(7)\n}\n";

const SEVEN_TURNS: &str =
    "turn 1: goroutine 1 at line 5\nturn 2: goroutine 1 at line 6\nturn 3: goroutine 1 at line 6\nturn 4: goroutine 1 at line 5\nturn 5: goroutine 1 at line 5, ends\nhistory: 0,1,2,3,4\n";

const TRACES: [Row; 5] = [
    Row {
        shows: "a turn starts, blocks, wakes or ends a goroutine",
        line: "trace --schedule rotate",
        file: SENDER,
        failing: NONE,
        status: Status::Clean,
        out: "",
        err: SENDER_TURNS,
    },
    Row {
        shows: "a goroutine that unwinds is at the line of its panic",
        line: "trace --schedule choices:0,0,0,0,0,0,0,0,0,0,0,0,0,0,0,0,1,1,1,1,1",
        file: UNWINDS,
        failing: NONE,
        status: Status::Crashed,
        out: "",
        err: UNWINDS_TURNS,
    },
    Row {
        shows: "the lines of a collection follow the line of its turn",
        line: "trace --every 8 --schedule choices:0,0,0,0,0,0,1,1",
        file: LEAK,
        failing: NONE,
        status: Status::Spent,
        out: "",
        err: LEAK_TURNS,
    },
    Row {
        shows: "the output of the program is written too",
        line: "trace --turns 3",
        file: SEVEN,
        failing: NONE,
        status: Status::Spent,
        out: "7\n",
        err: "turn 1: goroutine 1 at line 5\nturn 2: goroutine 1 at line 6\nturn 3: goroutine 1 at line 6\nstopped after 3 turns\n",
    },
    Row {
        shows: "a run by threads is told turn by turn, and then its numbers",
        line: "trace --threads 1",
        file: SEVEN,
        failing: NONE,
        status: Status::Clean,
        out: "7\n",
        err: SEVEN_TURNS,
    },
];

#[test]
fn each_turn_has_its_line(rt: HostRuntime) -> Result<(), Fail> {
    expect_rows(&rt, &TRACES)
}

// Goroutine 0 runs a finaliser of three lines, after the collection that finds its object.
const FINALISER: &str =
    "package main\n\nimport \"runtime\"\n\ntype node struct {\n\tn int\n}\n\nfunc drop(x *node) {\n\tx.n = 2\n}\n\nfunc main() {\n\tx := &node{n: 1}\n\truntime.SetFinalizer(x, drop)\n\tx = nil\n\truntime.GC()\n\tfor i := 0; i < 20; i++ {\n\t}\n}\n";

// Whether the text has the piece.
fn has(text: &[u8], piece: &[u8]) -> bool {
    for at in 0..text.len() {
        let (_, rest) = text.split_at(at);
        if rest.starts_with(piece) {
            return true;
        }
    }
    false
}

#[test]
fn goroutine_0_takes_turns_at_the_lines_of_a_finaliser(rt: HostRuntime) -> Result<(), Fail> {
    let alloc = rt.alloc();
    let mut source = source_of(alloc, FINALISER, 0)?;
    let mut out = sink_of(alloc, 0)?;
    let mut err = sink_of(alloc, 0)?;
    let words = words_of(alloc, "trace")?;
    let status = explorer(&rt, &words, false, &mut source, &mut out, &mut err);
    assert!(rt; status == Status::Clean);
    assert!(rt; has(err.written(), b": goroutine 0 at line 9\n"));
    assert!(rt; has(err.written(), b": goroutine 0 at line 10\n"));
    Ok(())
}

#[test]
fn a_write_that_fails_ends_a_trace(rt: HostRuntime) -> Result<(), Fail> {
    expect_rows(
        &rt,
        &[Row {
            shows: "the first line fails after 16 bytes",
            line: "trace",
            file: SENDER,
            failing: Failing {
                source: 0,
                out: 0,
                err: 2,
            },
            status: Status::WriteFault,
            out: "",
            err: "turn 1: goroutin",
        }],
    )
}
