//! Worked examples of the whole language: the output of a file, the reports of its collections, and its
//! ending.

use crate::calls::{Row, expect_rows};
use golf_run_texts::Status;
use std::test::Fail;

/// A worker pool, and a reply that no goroutine takes.
pub const POOL: &str = "\
    package main\n\
    \n\
    import (\n\
    \t\"fmt\"\n\
    \t\"runtime\"\n\
    \t\"sync\"\n\
    )\n\
    \n\
    type Total struct {\n\
    \tmu  *sync.Mutex\n\
    \tsum int\n\
    }\n\
    \n\
    func (t *Total) add(n int) {\n\
    \tt.mu.Lock()\n\
    \tdefer t.mu.Unlock()\n\
    \tt.sum += n\n\
    }\n\
    \n\
    func work(jobs <-chan int, t *Total, wg *sync.WaitGroup) {\n\
    \tdefer wg.Done()\n\
    \tfor n := range jobs {\n\
    \t\tt.add(n)\n\
    \t}\n\
    }\n\
    \n\
    func ask(n int) chan int {\n\
    \treply := make(chan int)\n\
    \tgo answer(n, reply)\n\
    \treturn reply\n\
    }\n\
    \n\
    func answer(n int, reply chan<- int) {\n\
    \treply <- n + 1\n\
    }\n\
    \n\
    func main() {\n\
    \tt := &Total{mu: &sync.Mutex{}}\n\
    \twg := &sync.WaitGroup{}\n\
    \tjobs := make(chan int, 4)\n\
    \tfor i := 0; i < 3; i++ {\n\
    \t\twg.Add(1)\n\
    \t\tgo work(jobs, t, wg)\n\
    \t}\n\
    \task(1)\n\
    \tfor i := 1; i <= 10; i++ {\n\
    \t\tjobs <- i\n\
    \t}\n\
    \tclose(jobs)\n\
    \twg.Wait()\n\
    \tfor i := 0; i < 50; i++ {\n\
    \t}\n\
    \truntime.GC()\n\
    \tfmt.Println(\"sum\", t.sum)\n\
    }\n";

pub const POOL_ERRORS: &str = r"collection 1: marked 2, reported 1, kept 1, reclaimed 0, objects 3
goroutine 5: chan send at line 34, started at line 29
";

pub const POOL_RECOVERED: &str =
    r"collection 1: marked 2, reported 1, kept 0, reclaimed 1, objects 2
goroutine 5: chan send at line 34, started at line 29
";

pub const POOL_OUT: &str = "sum 55\n";

/// A `select` with two cases, both of which are ready.
pub const CHOICE: &str = "\
    package main\n\
    import \"fmt\"\n\
    func main() {\n\
    \tc := make(chan int, 1)\n\
    \tc <- 1\n\
    \tselect {\n\
    \tcase v := <-c:\n\
    \t\tfmt.Println(\"first\", v)\n\
    \tcase v := <-c:\n\
    \t\tfmt.Println(\"second\", v)\n\
    \t}\n\
    }\n";

/// Two goroutines that wait for each other, and two collections.
pub const CYCLE: &str = "\
    package main\n\
    import \"runtime\"\n\
    func wait(x, y chan int) {\n\
    \t<-x\n\
    \ty <- 1\n\
    }\n\
    func start() {\n\
    \tx := make(chan int)\n\
    \ty := make(chan int)\n\
    \tgo wait(x, y)\n\
    \tgo wait(y, x)\n\
    }\n\
    func main() {\n\
    \tstart()\n\
    \tfor i := 0; i < 50; i++ {\n\
    \t}\n\
    \truntime.GC()\n\
    \truntime.GC()\n\
    }\n";

pub const CYCLE_ERRORS: &str = r"collection 1: marked 0, reported 2, kept 2, reclaimed 0, objects 2
goroutine 2: chan receive at line 4, started at line 10
goroutine 3: chan receive at line 4, started at line 11
collection 2: marked 0, reported 0, kept 2, reclaimed 0, objects 2
";

// Files, and their output.
const PRINTED: [Row; 2] = [
    Row {
        shows: "buffers default close range",
        line: "run",
        file: "\
            package main\n\
            import \"fmt\"\n\
            func main() {\n\
            \tc := make(chan int, 2)\n\
            \tc <- 1\n\
            \tc <- 2\n\
            \tselect {\n\
            \tcase c <- 3:\n\
            \t\tfmt.Println(\"sent\")\n\
            \tdefault:\n\
            \t\tfmt.Println(\"full\", len(c))\n\
            \t}\n\
            \tclose(c)\n\
            \tfor v := range c {\n\
            \t\tfmt.Println(v)\n\
            \t}\n\
            \tv, ok := <-c\n\
            \tfmt.Println(v, ok)\n\
            }\n",
        status: Status::Clean,
        out: "full 2\n1\n2\n0 false\n",
        err: "",
    },
    Row {
        shows: "choice of a select case",
        line: "run",
        file: CHOICE,
        status: Status::Clean,
        out: "second 1\n",
        err: "",
    },
];

#[test]
fn what_files_print(rt: HostRuntime) -> Result<(), Fail> {
    expect_rows(&rt, &PRINTED)
}

const CLASSIC_LEAK: &str = "\
    package main\n\
    import \"runtime\"\n\
    func recv(c chan int) {\n\
    \t<-c\n\
    }\n\
    func leak() {\n\
    \tc := make(chan int)\n\
    \tgo recv(c)\n\
    }\n\
    func main() {\n\
    \tleak()\n\
    \tfor i := 0; i < 50; i++ {\n\
    \t}\n\
    \truntime.GC()\n\
    }\n";

/// Goroutine 2 is dead, and refers to an object with a finaliser.
pub const FINALISED_HELD: &str = "\
    package main\n\
    import (\n\
    \t\"fmt\"\n\
    \t\"runtime\"\n\
    )\n\
    type Res struct {\n\
    \tn int\n\
    }\n\
    func done(r *Res) {\n\
    \tfmt.Println(\"done\", r.n)\n\
    }\n\
    func hold(r *Res, c chan int) {\n\
    \t<-c\n\
    \tfmt.Println(r.n)\n\
    }\n\
    func start() {\n\
    \tr := &Res{n: 7}\n\
    \truntime.SetFinalizer(r, done)\n\
    \tgo hold(r, make(chan int))\n\
    }\n\
    func main() {\n\
    \tstart()\n\
    \tfor i := 0; i < 50; i++ {\n\
    \t}\n\
    \truntime.GC()\n\
    \tfor i := 0; i < 50; i++ {\n\
    \t}\n\
    }\n";

const FINALISED_HELD_ERRORS: &str =
    r"collection 1: marked 0, reported 1, kept 1, reclaimed 0, objects 2
goroutine 2: chan receive at line 13, started at line 19
";

const GLOBAL_MUTEX_HELD: &str = "\
    package main\n\
    import (\n\
    \t\"runtime\"\n\
    \t\"sync\"\n\
    )\n\
    var mu = &sync.Mutex{}\n\
    func hold(c chan int) {\n\
    \tmu.Lock()\n\
    \t<-c\n\
    }\n\
    func next() {\n\
    \tmu.Lock()\n\
    }\n\
    func main() {\n\
    \tgo hold(make(chan int))\n\
    \tfor i := 0; i < 50; i++ {\n\
    \t}\n\
    \tgo next()\n\
    \tfor i := 0; i < 50; i++ {\n\
    \t}\n\
    \truntime.GC()\n\
    }\n";

const LOST_CONDITION: &str = "\
    package main\n\
    import (\n\
    \t\"fmt\"\n\
    \t\"runtime\"\n\
    \t\"sync\"\n\
    )\n\
    var mu = &sync.Mutex{}\n\
    var cond = sync.NewCond(mu)\n\
    var ready = 0\n\
    func consumer() {\n\
    \tmu.Lock()\n\
    \tfor ready == 0 {\n\
    \t\tcond.Wait()\n\
    \t}\n\
    \tcond.L.Unlock()\n\
    \tfmt.Println(\"ready\", ready)\n\
    }\n\
    func lost() {\n\
    \tm := &sync.Mutex{}\n\
    \tc := sync.NewCond(m)\n\
    \tm.Lock()\n\
    \tc.Wait()\n\
    }\n\
    func main() {\n\
    \tgo consumer()\n\
    \tgo lost()\n\
    \tfor i := 0; i < 50; i++ {\n\
    \t}\n\
    \truntime.GC()\n\
    \tmu.Lock()\n\
    \tready = 3\n\
    \tcond.Signal()\n\
    \tmu.Unlock()\n\
    \tfor i := 0; i < 50; i++ {\n\
    \t}\n\
    }\n";

// Files whose collections report goroutines.
const REPORTED: [Row; 16] = [
    Row {
        shows: "channel whose variable is read no more",
        line: "run",
        file: "\
            package main\n\
            import \"runtime\"\n\
            func recv(c chan int) {\n\
            \t<-c\n\
            }\n\
            func main() {\n\
            \tc := make(chan int)\n\
            \tgo recv(c)\n\
            \tfor i := 0; i < 50; i++ {\n\
            \t}\n\
            \truntime.GC()\n\
            }\n",
        status: Status::Found,
        out: "",
        err: r"collection 1: marked 0, reported 1, kept 1, reclaimed 0, objects 1
goroutine 2: chan receive at line 4, started at line 8
",
    },
    Row {
        shows: "classic leak",
        line: "run",
        file: CLASSIC_LEAK,
        status: Status::Found,
        out: "",
        err: r"collection 1: marked 0, reported 1, kept 1, reclaimed 0, objects 1
goroutine 2: chan receive at line 4, started at line 8
",
    },
    Row {
        shows: "classic leak with recovery",
        line: "run --recover",
        file: CLASSIC_LEAK,
        status: Status::Found,
        out: "",
        err: r"collection 1: marked 0, reported 1, kept 0, reclaimed 1, objects 0
goroutine 2: chan receive at line 4, started at line 8
",
    },
    Row {
        shows: "cycle collected twice",
        line: "run",
        file: CYCLE,
        status: Status::Found,
        out: "",
        err: CYCLE_ERRORS,
    },
    Row {
        shows: "cycle collected twice with recovery",
        line: "run --recover",
        file: CYCLE,
        status: Status::Found,
        out: "",
        err: r"collection 1: marked 0, reported 2, kept 0, reclaimed 2, objects 0
goroutine 2: chan receive at line 4, started at line 10
goroutine 3: chan receive at line 4, started at line 11
collection 2: marked 0, reported 0, kept 0, reclaimed 0, objects 0
",
    },
    Row {
        shows: "dead holder of a finalised object",
        line: "run",
        file: FINALISED_HELD,
        status: Status::Found,
        out: "",
        err: FINALISED_HELD_ERRORS,
    },
    Row {
        shows: "dead holder of a finalised object with recovery",
        line: "run --recover",
        file: FINALISED_HELD,
        status: Status::Found,
        out: "",
        err: FINALISED_HELD_ERRORS,
    },
    Row {
        shows: "dead holder of a global mutex",
        line: "run",
        file: GLOBAL_MUTEX_HELD,
        status: Status::Found,
        out: "",
        err: r"collection 1: marked 1, reported 1, kept 1, reclaimed 0, objects 2
goroutine 2: chan receive at line 9, started at line 15
",
    },
    Row {
        shows: "dead holder of a global mutex with recovery",
        line: "run --recover",
        file: GLOBAL_MUTEX_HELD,
        status: Status::Found,
        out: "",
        err: r"collection 1: marked 1, reported 1, kept 0, reclaimed 1, objects 1
goroutine 2: chan receive at line 9, started at line 15
",
    },
    Row {
        shows: "empty waits",
        line: "run",
        file: "\
            package main\n\
            import \"runtime\"\n\
            func never() {\n\
            \tselect {}\n\
            }\n\
            func none(c chan int) {\n\
            \tc <- 1\n\
            }\n\
            func main() {\n\
            \tgo never()\n\
            \tgo none(nil)\n\
            \tfor i := 0; i < 50; i++ {\n\
            \t}\n\
            \truntime.GC()\n\
            }\n",
        status: Status::Found,
        out: "",
        err: r"collection 1: marked 0, reported 2, kept 2, reclaimed 0, objects 0
goroutine 2: select (no cases) at line 4, started at line 10
goroutine 3: chan send (nil chan) at line 7, started at line 11
",
    },
    Row {
        shows: "lost condition",
        line: "run",
        file: LOST_CONDITION,
        status: Status::Found,
        out: "ready 3\n",
        err: r"collection 1: marked 2, reported 1, kept 1, reclaimed 0, objects 4
goroutine 3: sync.Cond.Wait at line 22, started at line 26
",
    },
    Row {
        shows: "lost condition with recovery",
        line: "run --recover",
        file: LOST_CONDITION,
        status: Status::Found,
        out: "ready 3\n",
        err: r"collection 1: marked 2, reported 1, kept 0, reclaimed 1, objects 2
goroutine 3: sync.Cond.Wait at line 22, started at line 26
",
    },
    Row {
        shows: "one done too few",
        line: "run",
        file: "\
            package main\n\
            import (\n\
            \t\"runtime\"\n\
            \t\"sync\"\n\
            )\n\
            func waiter() {\n\
            \twg := &sync.WaitGroup{}\n\
            \twg.Add(2)\n\
            \twg.Done()\n\
            \twg.Wait()\n\
            }\n\
            func main() {\n\
            \tgo waiter()\n\
            \tfor i := 0; i < 50; i++ {\n\
            \t}\n\
            \truntime.GC()\n\
            }\n",
        status: Status::Found,
        out: "",
        err: r"collection 1: marked 0, reported 1, kept 1, reclaimed 0, objects 1
goroutine 2: sync.WaitGroup.Wait at line 10, started at line 13
",
    },
    Row {
        shows: "reader after a lost writer",
        line: "run",
        file: "\
            package main\n\
            import (\n\
            \t\"fmt\"\n\
            \t\"runtime\"\n\
            \t\"sync\"\n\
            )\n\
            func reader(rw *sync.RWMutex) {\n\
            \trw.RLock()\n\
            \trw.RUnlock()\n\
            }\n\
            func start() {\n\
            \trw := &sync.RWMutex{}\n\
            \trw.Lock()\n\
            \tgo reader(rw)\n\
            }\n\
            func main() {\n\
            \tstart()\n\
            \tfor i := 0; i < 50; i++ {\n\
            \t}\n\
            \truntime.GC()\n\
            \tfmt.Println(\"on\")\n\
            }\n",
        status: Status::Found,
        out: "on\n",
        err: r"collection 1: marked 0, reported 1, kept 1, reclaimed 0, objects 1
goroutine 2: sync.RWMutex.RLock at line 8, started at line 14
",
    },
    Row {
        shows: "worker pool with an abandoned reply",
        line: "run",
        file: POOL,
        status: Status::Found,
        out: POOL_OUT,
        err: POOL_ERRORS,
    },
    Row {
        shows: "worker pool with an abandoned reply with recovery",
        line: "run --recover",
        file: POOL,
        status: Status::Found,
        out: POOL_OUT,
        err: POOL_RECOVERED,
    },
];

#[test]
fn who_is_reported(rt: HostRuntime) -> Result<(), Fail> {
    expect_rows(&rt, &REPORTED)
}

// Files whose goroutines wait and are live.
const LIVE: [Row; 2] = [
    Row {
        shows: "select with one live channel",
        line: "run",
        file: "\
            package main\n\
            import \"runtime\"\n\
            var g = make(chan int)\n\
            func pick(c chan int) {\n\
            \tselect {\n\
            \tcase <-g:\n\
            \tcase v := <-c:\n\
            \t\tg <- v\n\
            \t}\n\
            }\n\
            func main() {\n\
            \tgo pick(make(chan int))\n\
            \tfor i := 0; i < 50; i++ {\n\
            \t}\n\
            \truntime.GC()\n\
            }\n",
        status: Status::Clean,
        out: "",
        err: "collection 1: marked 2, reported 0, kept 0, reclaimed 0, objects 2\n",
    },
    Row {
        shows: "two rounds of root growth",
        line: "run",
        file: "\
            package main\n\
            import \"runtime\"\n\
            var c1 = make(chan int)\n\
            func two(c2 chan int) {\n\
            \t<-c1\n\
            \tc2 <- 1\n\
            }\n\
            func three(c2 chan int) {\n\
            \t<-c2\n\
            }\n\
            func start() {\n\
            \tc2 := make(chan int)\n\
            \tgo two(c2)\n\
            \tgo three(c2)\n\
            }\n\
            func main() {\n\
            \tstart()\n\
            \tfor i := 0; i < 50; i++ {\n\
            \t}\n\
            \truntime.GC()\n\
            }\n",
        status: Status::Clean,
        out: "",
        err: "collection 1: marked 2, reported 0, kept 0, reclaimed 0, objects 2\n",
    },
];

#[test]
fn who_waits_and_is_live_is_not_reported(rt: HostRuntime) -> Result<(), Fail> {
    expect_rows(&rt, &LIVE)
}

// Files that panic, or end by a fatal error.
const CRASHED: [Row; 7] = [
    Row {
        shows: "methods slices and an index out of range",
        line: "run",
        file: "\
            package main\n\
            import \"fmt\"\n\
            type P struct {\n\
            \tn int\n\
            }\n\
            func (p *P) up(d int) int {\n\
            \tp.n += d\n\
            \treturn p.n\n\
            }\n\
            func main() {\n\
            \ta := make([]int, 3)\n\
            \tp := &P{n: 4}\n\
            \tfor i := range a {\n\
            \t\ta[i] = p.up(i)\n\
            \t}\n\
            \tfmt.Println(a[0], a[1], a[2], len(a))\n\
            \ta[3] = 1\n\
            }\n",
        status: Status::Crashed,
        out: "4 5 7 3\n",
        err: "panic: runtime error: index out of range [3] with length 3 (goroutine 1, line 17)\n",
    },
    Row {
        shows: "a send on a closed channel panics",
        line: "run",
        file: "\
            package main\n\
            func main() {\n\
            \tc := make(chan int)\n\
            \tclose(c)\n\
            \tc <- 1\n\
            }\n",
        status: Status::Crashed,
        out: "",
        err: "panic: send on closed channel (goroutine 1, line 5)\n",
    },
    Row {
        shows: "a close wakes a sender that panics",
        line: "run",
        file: "\
            package main\n\
            func send(c chan int) {\n\
            \tc <- 1\n\
            }\n\
            func main() {\n\
            \tc := make(chan int)\n\
            \tgo send(c)\n\
            \tfor i := 0; i < 50; i++ {\n\
            \t}\n\
            \tclose(c)\n\
            \tfor i := 0; i < 50; i++ {\n\
            \t}\n\
            }\n",
        status: Status::Crashed,
        out: "",
        err: "panic: send on closed channel (goroutine 2, line 3)\n",
    },
    Row {
        shows: "a panic runs deferred calls",
        line: "run",
        file: "\
            package main\n\
            import \"fmt\"\n\
            func bye() {\n\
            \tfmt.Println(\"bye\")\n\
            }\n\
            func main() {\n\
            \tdefer bye()\n\
            \tx := 0\n\
            \tfmt.Println(1 / x)\n\
            }\n",
        status: Status::Crashed,
        out: "bye\n",
        err: "panic: runtime error: integer divide by zero (goroutine 1, line 9)\n",
    },
    Row {
        shows: "a negative group counter panics",
        line: "run",
        file: "\
            package main\n\
            import \"sync\"\n\
            func main() {\n\
            \twg := &sync.WaitGroup{}\n\
            \twg.Done()\n\
            }\n",
        status: Status::Crashed,
        out: "",
        err: "panic: sync: negative WaitGroup counter (goroutine 1, line 5)\n",
    },
    Row {
        shows: "runlock of an unlocked rwmutex",
        line: "run",
        file: "\
            package main\n\
            import \"sync\"\n\
            func main() {\n\
            \trw := new(sync.RWMutex)\n\
            \trw.RUnlock()\n\
            }\n",
        status: Status::Crashed,
        out: "",
        err: "fatal error: sync: RUnlock of unlocked RWMutex (goroutine 1, line 5)\n",
    },
    Row {
        shows: "unlock of an unlocked mutex",
        line: "run",
        file: "\
            package main\n\
            import \"sync\"\n\
            func main() {\n\
            \tmu := new(sync.Mutex)\n\
            \tmu.Unlock()\n\
            }\n",
        status: Status::Crashed,
        out: "",
        err: "fatal error: sync: unlock of unlocked mutex (goroutine 1, line 5)\n",
    },
];

#[test]
fn how_programs_crash(rt: HostRuntime) -> Result<(), Fail> {
    expect_rows(&rt, &CRASHED)
}
