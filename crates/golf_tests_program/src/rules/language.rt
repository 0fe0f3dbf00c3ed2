//! Tests of rules of the language and of this runtime, each shown by a file. Expected values are from:
//!
//! - the Go specification ("Select statements", "Defer statements", "Handling panics", "For statements"),
//! - the documentation of packages sync and runtime,
//! - the rules of this runtime.

use crate::calls::{Row, expect_rows};
use golf_run_texts::Status;
use std::test::Fail;

// Rules that the output of a file shows.
const PRINTED: [Row; 7] = [
    Row {
        shows: "a closed select receives by its first case",
        line: "run",
        file: "\
            package main\n\
            \n\
            import \"fmt\"\n\
            \n\
            func closes(c chan int) {\n\
            \tfor i := 0; i < 50; i++ {\n\
            \t}\n\
            \tclose(c)\n\
            }\n\
            \n\
            func main() {\n\
            \tc := make(chan int)\n\
            \tgo closes(c)\n\
            \tselect {\n\
            \tcase v := <-c:\n\
            \t\tfmt.Println(\"received\", v)\n\
            \tcase c <- 1:\n\
            \t\tfmt.Println(\"sent\")\n\
            \t}\n\
            }\n",
        status: Status::Clean,
        out: "received 0\n",
        err: "",
    },
    Row {
        shows: "who is passed on to a mutex stands after its waiters",
        line: "run",
        file: "\
            package main\n\
            \n\
            import (\n\
            \t\"fmt\"\n\
            \t\"sync\"\n\
            )\n\
            \n\
            var mu = &sync.Mutex{}\n\
            var cond = sync.NewCond(mu)\n\
            \n\
            func first() {\n\
            \tmu.Lock()\n\
            \tcond.Wait()\n\
            \tfmt.Println(\"waited on the condition\")\n\
            \tmu.Unlock()\n\
            }\n\
            \n\
            func second() {\n\
            \tmu.Lock()\n\
            \tfmt.Println(\"waited for the mutex\")\n\
            \tmu.Unlock()\n\
            }\n\
            \n\
            func pause() {\n\
            \tfor i := 0; i < 50; i++ {\n\
            \t}\n\
            }\n\
            \n\
            func main() {\n\
            \tgo first()\n\
            \tpause()\n\
            \tmu.Lock()\n\
            \tgo second()\n\
            \tpause()\n\
            \tcond.Signal()\n\
            \tmu.Unlock()\n\
            \tpause()\n\
            }\n",
        status: Status::Clean,
        out: "waited for the mutex\nwaited on the condition\n",
        err: "",
    },
    Row {
        shows: "deferred calls run last first and after a return",
        line: "run",
        file: "\
            package main\n\
            \n\
            import \"fmt\"\n\
            \n\
            func say(text string) {\n\
            \tfmt.Println(text)\n\
            }\n\
            \n\
            func f() int {\n\
            \tdefer say(\"first\")\n\
            \tdefer say(\"second\")\n\
            \tsay(\"body\")\n\
            \treturn 7\n\
            }\n\
            \n\
            func main() {\n\
            \tfmt.Println(f())\n\
            }\n",
        status: Status::Clean,
        out: "body\nsecond\nfirst\n7\n",
        err: "",
    },
    Row {
        shows: "blank names of a range have no code",
        line: "run",
        file: "\
            package main\n\
            \n\
            import \"fmt\"\n\
            \n\
            func main() {\n\
            \ts := []int{4, 5}\n\
            \tfor _, v := range s {\n\
            \t\tfmt.Println(v)\n\
            \t}\n\
            \tfor i, _ := range s {\n\
            \t\tfmt.Println(i)\n\
            \t}\n\
            \tfor range s {\n\
            \t\tfmt.Println(\"both\")\n\
            \t}\n\
            }\n",
        status: Status::Clean,
        out: "4\n5\n0\n1\nboth\nboth\n",
        err: "",
    },
    Row {
        shows: "continue goes to the post statement",
        line: "run",
        file: "\
            package main\n\
            \n\
            import \"fmt\"\n\
            \n\
            func main() {\n\
            \tfor i := 0; i < 4; i++ {\n\
            \t\tif i%2 == 0 {\n\
            \t\t\tcontinue\n\
            \t\t}\n\
            \t\tfmt.Println(i)\n\
            \t}\n\
            \tn := 0\n\
            \tfor ; n < 3; {\n\
            \t\tn++\n\
            \t\tif n == 2 {\n\
            \t\t\tcontinue\n\
            \t\t}\n\
            \t\tfmt.Println(\"n\", n)\n\
            \t}\n\
            }\n",
        status: Status::Clean,
        out: "1\n3\nn 1\nn 3\n",
        err: "",
    },
    Row {
        shows: "a deferred done lets a group go",
        line: "run",
        file: "\
            package main\n\
            \n\
            import (\n\
            \t\"fmt\"\n\
            \t\"sync\"\n\
            )\n\
            \n\
            func work(wg *sync.WaitGroup, results chan int, n int) {\n\
            \tdefer wg.Done()\n\
            \tresults <- n\n\
            }\n\
            \n\
            func main() {\n\
            \twg := &sync.WaitGroup{}\n\
            \tresults := make(chan int, 3)\n\
            \tfor n := 1; n <= 3; n++ {\n\
            \t\twg.Add(1)\n\
            \t\tgo work(wg, results, n*n)\n\
            \t}\n\
            \twg.Wait()\n\
            \tclose(results)\n\
            \tsum := 0\n\
            \tfor v := range results {\n\
            \t\tsum += v\n\
            \t}\n\
            \tfmt.Println(sum)\n\
            }\n",
        status: Status::Clean,
        out: "14\n",
        err: "",
    },
    Row {
        shows: "the receiver that blocked first gets the first value",
        line: "run",
        file: "\
            package main\n\
            \n\
            import \"fmt\"\n\
            \n\
            func take(n int, spins int, c chan int, done chan int) {\n\
            \tfor i := 0; i < spins; i++ {\n\
            \t}\n\
            \tv := <-c\n\
            \tfmt.Println(n, v)\n\
            \tdone <- n\n\
            }\n\
            \n\
            func main() {\n\
            \tc := make(chan int)\n\
            \tdone := make(chan int)\n\
            \tgo take(1, 50, c, done)\n\
            \tgo take(2, 0, c, done)\n\
            \tfor i := 0; i < 100; i++ {\n\
            \t}\n\
            \tc <- 10\n\
            \t<-done\n\
            \tc <- 20\n\
            \t<-done\n\
            }\n",
        status: Status::Clean,
        out: "2 10\n1 20\n",
        err: "",
    },
];

#[test]
fn rules_that_the_output_shows(rt: HostRuntime) -> Result<(), Fail> {
    expect_rows(&rt, &PRINTED)
}

// Rules that the ending of a file shows.
const ENDED: [Row; 6] = [
    Row {
        shows: "a closed select panics by its first case",
        line: "run",
        file: "\
            package main\n\
            \n\
            func closes(c chan int) {\n\
            \tfor i := 0; i < 50; i++ {\n\
            \t}\n\
            \tclose(c)\n\
            }\n\
            \n\
            func main() {\n\
            \tc := make(chan int)\n\
            \tgo closes(c)\n\
            \tselect {\n\
            \tcase c <- 1:\n\
            \tcase <-c:\n\
            \t}\n\
            }\n",
        status: Status::Crashed,
        out: "",
        err: "panic: send on closed channel (goroutine 1, line 12)\n",
    },
    Row {
        shows: "a panic unwinds each frame",
        line: "run",
        file: "\
            package main\n\
            \n\
            import \"fmt\"\n\
            \n\
            func say(text string) {\n\
            \tfmt.Println(text)\n\
            }\n\
            \n\
            func inner() {\n\
            \tdefer say(\"inner\")\n\
            \tpanic(\"lost\")\n\
            }\n\
            \n\
            func outer() {\n\
            \tdefer say(\"outer\")\n\
            \tinner()\n\
            \tsay(\"never\")\n\
            }\n\
            \n\
            func main() {\n\
            \touter()\n\
            }\n",
        status: Status::Crashed,
        out: "inner\nouter\n",
        err: "panic: lost (goroutine 1, line 11)\n",
    },
    Row {
        shows: "a finaliser runs as goroutine 0 and may panic",
        line: "run",
        file: "\
            package main\n\
            \n\
            import \"runtime\"\n\
            \n\
            type T struct {\n\
            \tn int\n\
            }\n\
            \n\
            func late(t *T) {\n\
            \tpanic(\"late\")\n\
            }\n\
            \n\
            func drop() {\n\
            \tt := &T{n: 1}\n\
            \truntime.SetFinalizer(t, late)\n\
            }\n\
            \n\
            func main() {\n\
            \tdrop()\n\
            \truntime.GC()\n\
            \tfor i := 0; i < 50; i++ {\n\
            \t}\n\
            }\n",
        status: Status::Crashed,
        out: "",
        err: r"collection 1: marked 0, reported 0, kept 0, reclaimed 0, objects 1
panic: late (goroutine 0, line 10)
",
    },
    Row {
        shows: "main may be blocked for ever",
        line: "run",
        file: "\
            package main\n\
            \n\
            import \"runtime\"\n\
            \n\
            func spin() {\n\
            \tfor i := 0; i < 50; i++ {\n\
            \t}\n\
            \truntime.GC()\n\
            \tfor {\n\
            \t}\n\
            }\n\
            \n\
            func main() {\n\
            \tgo spin()\n\
            \t<-make(chan int)\n\
            }\n",
        status: Status::Spent,
        out: "",
        err: r"collection 1: marked 0, reported 1, kept 1, reclaimed 0, objects 1
goroutine 1: chan receive at line 15, started at line 13
stopped after 1000000 turns
",
    },
    Row {
        shows: "a send case on a closed channel panics",
        line: "run",
        file: "\
            package main\n\
            \n\
            func main() {\n\
            \tc := make(chan int)\n\
            \tclose(c)\n\
            \tselect {\n\
            \tcase c <- 1:\n\
            \tdefault:\n\
            \t}\n\
            }\n",
        status: Status::Crashed,
        out: "",
        err: "panic: send on closed channel (goroutine 1, line 6)\n",
    },
    Row {
        shows: "deferred calls overflow at the line of the return",
        line: "run",
        file: "\
            package main\n\
            \n\
            func f() {\n\
            \tdefer f()\n\
            \treturn\n\
            }\n\
            \n\
            func main() {\n\
            \tf()\n\
            }\n",
        status: Status::Crashed,
        out: "",
        err: "fatal error: stack overflow (goroutine 1, line 5)\n",
    },
];

#[test]
fn rules_that_the_end_shows(rt: HostRuntime) -> Result<(), Fail> {
    expect_rows(&rt, &ENDED)
}
