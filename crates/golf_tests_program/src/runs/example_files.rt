//! Tests of the files of `examples/`, with the output and the reports that their head comments state.
//! Expected values are written by hand.

use crate::calls::{Row, expect_rows};
use golf_run_texts::Status;
use std::test::Fail;

// examples/worker_pool.go
const WORKER_POOL: &str = "\
    // Workers take jobs from a channel that nobody closes. Once the pool is no longer used, each of them waits for\n\
    // one more job for ever.\n\
    //\n\
    //\tsum 385\n\
    //\tcollection 1: marked 0, reported 2, kept 2, reclaimed 0, objects 2\n\
    //\tgoroutine 2: chan receive at line 17, started at line 28\n\
    //\tgoroutine 3: chan receive at line 17, started at line 28\n\
    package main\n\
    \n\
    import (\n\
    \t\"fmt\"\n\
    \t\"runtime\"\n\
    )\n\
    \n\
    // squares sends the square of each job.\n\
    func squares(jobs chan int, results chan int) {\n\
    \tfor n := range jobs {\n\
    \t\tresults <- n * n\n\
    \t}\n\
    }\n\
    \n\
    // sum adds up the squares from 1 to count. It forgets to close jobs.\n\
    func sum(count int) int {\n\
    \tjobs := make(chan int)\n\
    \tresults := make(chan int)\n\
    \n\
    \tfor w := 0; w < 2; w++ {\n\
    \t\tgo squares(jobs, results)\n\
    \t}\n\
    \n\
    \ts := 0\n\
    \tfor n := 1; n <= count; n++ {\n\
    \t\tjobs <- n\n\
    \t\ts += <-results\n\
    \t}\n\
    \treturn s\n\
    }\n\
    \n\
    func main() {\n\
    \tfmt.Println(\"sum\", sum(10))\n\
    \tfor i := 0; i < 50; i++ {\n\
    \t}\n\
    \truntime.GC()\n\
    }\n";

// examples/pipeline.go
const PIPELINE: &str = "\
    // A pipeline of three stages whose last reader takes one value and leaves. Each stage before it waits to hand\n\
    // on a value that nobody takes.\n\
    //\n\
    //\tfirst 2\n\
    //\tcollection 1: marked 0, reported 2, kept 2, reclaimed 0, objects 2\n\
    //\tgoroutine 2: chan send at line 17, started at line 30\n\
    //\tgoroutine 3: chan send at line 23, started at line 31\n\
    package main\n\
    \n\
    import (\n\
    \t\"fmt\"\n\
    \t\"runtime\"\n\
    )\n\
    \n\
    func numbers(out chan<- int) {\n\
    \tfor n := 1; ; n++ {\n\
    \t\tout <- n\n\
    \t}\n\
    }\n\
    \n\
    func doubled(in <-chan int, out chan<- int) {\n\
    \tfor n := range in {\n\
    \t\tout <- 2 * n\n\
    \t}\n\
    }\n\
    \n\
    func first() int {\n\
    \traw := make(chan int)\n\
    \ttwice := make(chan int)\n\
    \tgo numbers(raw)\n\
    \tgo doubled(raw, twice)\n\
    \treturn <-twice\n\
    }\n\
    \n\
    func main() {\n\
    \tfmt.Println(\"first\", first())\n\
    \tfor i := 0; i < 50; i++ {\n\
    \t}\n\
    \truntime.GC()\n\
    }\n";

// examples/mutex.go
const MUTEX: &str = "\
    // A goroutine locks a mutex and waits for a message that never comes. Whoever wants the mutex waits with it.\n\
    //\n\
    //\tcollection 1: marked 0, reported 2, kept 2, reclaimed 0, objects 3\n\
    //\tgoroutine 2: chan receive at line 21, started at line 32\n\
    //\tgoroutine 3: sync.Mutex.Lock at line 25, started at line 35\n\
    package main\n\
    \n\
    import (\n\
    \t\"runtime\"\n\
    \t\"sync\"\n\
    )\n\
    \n\
    type account struct {\n\
    \tmu      *sync.Mutex\n\
    \tbalance int\n\
    }\n\
    \n\
    func (a *account) settle(news chan int) {\n\
    \ta.mu.Lock()\n\
    \tdefer a.mu.Unlock()\n\
    \ta.balance += <-news\n\
    }\n\
    \n\
    func (a *account) deposit(amount int) {\n\
    \ta.mu.Lock()\n\
    \ta.balance += amount\n\
    \ta.mu.Unlock()\n\
    }\n\
    \n\
    func open() {\n\
    \ta := &account{mu: &sync.Mutex{}}\n\
    \tgo a.settle(make(chan int))\n\
    \tfor i := 0; i < 20; i++ {\n\
    \t}\n\
    \tgo a.deposit(5)\n\
    }\n\
    \n\
    func main() {\n\
    \topen()\n\
    \tfor i := 0; i < 50; i++ {\n\
    \t}\n\
    \truntime.GC()\n\
    }\n";

// examples/select.go
const SELECT: &str = "\
    // A goroutine waits for a result or for a signal to stop, and nobody holds either channel any more. Another one\n\
    // waits on a channel that main still closes: it is not reported.\n\
    //\n\
    //\tstopped\n\
    //\tcollection 1: marked 2, reported 1, kept 1, reclaimed 0, objects 4\n\
    //\tgoroutine 3: select at line 15, started at line 26\n\
    package main\n\
    \n\
    import (\n\
    \t\"fmt\"\n\
    \t\"runtime\"\n\
    )\n\
    \n\
    func watch(result chan string, stop chan struct{}) {\n\
    \tselect {\n\
    \tcase text := <-result:\n\
    \t\tfmt.Println(text)\n\
    \tcase <-stop:\n\
    \t\tfmt.Println(\"stopped\")\n\
    \t}\n\
    }\n\
    \n\
    func main() {\n\
    \tstop := make(chan struct{})\n\
    \tgo watch(make(chan string), stop)\n\
    \tgo watch(make(chan string), make(chan struct{}))\n\
    \tfor i := 0; i < 50; i++ {\n\
    \t}\n\
    \truntime.GC()\n\
    \tclose(stop)\n\
    \tfor i := 0; i < 50; i++ {\n\
    \t}\n\
    }\n";

// examples/condition.go
const CONDITION: &str = "\
    // A consumer waits until an item is there, and the producer adds one without a signal.\n\
    //\n\
    //\tcollection 1: marked 0, reported 1, kept 1, reclaimed 0, objects 3\n\
    //\tgoroutine 2: sync.Cond.Wait at line 26, started at line 40\n\
    package main\n\
    \n\
    import (\n\
    \t\"runtime\"\n\
    \t\"sync\"\n\
    )\n\
    \n\
    type queue struct {\n\
    \tmu    *sync.Mutex\n\
    \tready *sync.Cond\n\
    \titems int\n\
    }\n\
    \n\
    func newQueue() *queue {\n\
    \tmu := &sync.Mutex{}\n\
    \treturn &queue{mu: mu, ready: sync.NewCond(mu)}\n\
    }\n\
    \n\
    func (q *queue) take() {\n\
    \tq.mu.Lock()\n\
    \tfor q.items == 0 {\n\
    \t\tq.ready.Wait()\n\
    \t}\n\
    \tq.items--\n\
    \tq.mu.Unlock()\n\
    }\n\
    \n\
    func (q *queue) put() {\n\
    \tq.mu.Lock()\n\
    \tq.items++\n\
    \tq.mu.Unlock()\n\
    }\n\
    \n\
    func main() {\n\
    \tq := newQueue()\n\
    \tgo q.take()\n\
    \tfor i := 0; i < 50; i++ {\n\
    \t}\n\
    \tq.put()\n\
    \tq = nil\n\
    \truntime.GC()\n\
    }\n";

// examples/finaliser.go
const FINALISER: &str = "\
    // A finaliser wakes a goroutine: nothing comes to the box any more at the first collection, and its finaliser sends\n\
    // on the channel that the goroutine waits on. So the goroutine is live, and nobody is reported.\n\
    //\n\
    //\tgot 9\n\
    //\tcollection 1: marked 1, reported 0, kept 0, reclaimed 0, objects 2\n\
    //\tcollection 2: marked 0, reported 0, kept 0, reclaimed 0, objects 0\n\
    package main\n\
    \n\
    import (\n\
    \t\"fmt\"\n\
    \t\"runtime\"\n\
    )\n\
    \n\
    type box struct {\n\
    \tc chan int\n\
    }\n\
    \n\
    // last is the finaliser of a box.\n\
    func last(b *box) {\n\
    \tb.c <- 9\n\
    }\n\
    \n\
    func wait(c chan int) {\n\
    \tv := <-c\n\
    \tfmt.Println(\"got\", v)\n\
    }\n\
    \n\
    func start() {\n\
    \tb := &box{c: make(chan int)}\n\
    \truntime.SetFinalizer(b, last)\n\
    \tgo wait(b.c)\n\
    }\n\
    \n\
    func main() {\n\
    \tstart()\n\
    \tfor i := 0; i < 50; i++ {\n\
    \t}\n\
    \truntime.GC()\n\
    \tfor i := 0; i < 50; i++ {\n\
    \t}\n\
    \truntime.GC()\n\
    }\n";

const FINALISER_ERRORS: &str = r"collection 1: marked 1, reported 0, kept 0, reclaimed 0, objects 2
collection 2: marked 0, reported 0, kept 0, reclaimed 0, objects 0
";

// examples/late_finaliser.go
const LATE_FINALISER: &str = "\
    // A goroutine that waits for ever holds an object that gets a finaliser later. With --recover it is kept all the same:\n\
    // if it were taken back, the finaliser would be called, and without --recover it is not.\n\
    //\n\
    //\tend\n\
    //\tcollection 1: marked 1, reported 1, kept 1, reclaimed 0, objects 2\n\
    //\tgoroutine 2: chan receive at line 28, started at line 33\n\
    //\tcollection 2: marked 0, reported 0, kept 1, reclaimed 0, objects 2\n\
    package main\n\
    \n\
    import (\n\
    \t\"fmt\"\n\
    \t\"runtime\"\n\
    )\n\
    \n\
    type resource struct {\n\
    \tn int\n\
    }\n\
    \n\
    var keep = &resource{n: 5}\n\
    \n\
    // done is the finaliser of a resource.\n\
    func done(r *resource) {\n\
    \tfmt.Println(\"done\", r.n)\n\
    }\n\
    \n\
    // hold waits for ever, since nobody else knows its channel.\n\
    func hold(r *resource, c chan int) {\n\
    \t<-c\n\
    \tfmt.Println(r.n)\n\
    }\n\
    \n\
    func main() {\n\
    \tgo hold(keep, make(chan int))\n\
    \tfor i := 0; i < 50; i++ {\n\
    \t}\n\
    \truntime.GC()\n\
    \truntime.SetFinalizer(keep, done)\n\
    \tkeep = nil\n\
    \truntime.GC()\n\
    \tfor i := 0; i < 50; i++ {\n\
    \t}\n\
    \tfmt.Println(\"end\")\n\
    }\n";

const LATE_FINALISER_ERRORS: &str =
    r"collection 1: marked 1, reported 1, kept 1, reclaimed 0, objects 2
goroutine 2: chan receive at line 28, started at line 33
collection 2: marked 0, reported 0, kept 1, reclaimed 0, objects 2
";

// The files, and the texts that their head comments state.
const ROWS: [Row; 9] = [
    Row {
        shows: "a pool that nobody closes",
        line: "run",
        file: WORKER_POOL,
        status: Status::Found,
        out: "sum 385\n",
        err: r"collection 1: marked 0, reported 2, kept 2, reclaimed 0, objects 2
goroutine 2: chan receive at line 17, started at line 28
goroutine 3: chan receive at line 17, started at line 28
",
    },
    Row {
        shows: "a pipeline whose reader leaves",
        line: "run",
        file: PIPELINE,
        status: Status::Found,
        out: "first 2\n",
        err: r"collection 1: marked 0, reported 2, kept 2, reclaimed 0, objects 2
goroutine 2: chan send at line 17, started at line 30
goroutine 3: chan send at line 23, started at line 31
",
    },
    Row {
        shows: "a mutex that is held for ever",
        line: "run",
        file: MUTEX,
        status: Status::Found,
        out: "",
        err: r"collection 1: marked 0, reported 2, kept 2, reclaimed 0, objects 3
goroutine 2: chan receive at line 21, started at line 32
goroutine 3: sync.Mutex.Lock at line 25, started at line 35
",
    },
    Row {
        shows: "a select on dead channels",
        line: "run",
        file: SELECT,
        status: Status::Found,
        out: "stopped\n",
        err: r"collection 1: marked 2, reported 1, kept 1, reclaimed 0, objects 4
goroutine 3: select at line 15, started at line 26
",
    },
    Row {
        shows: "a condition that nobody signals",
        line: "run",
        file: CONDITION,
        status: Status::Found,
        out: "",
        err: r"collection 1: marked 0, reported 1, kept 1, reclaimed 0, objects 3
goroutine 2: sync.Cond.Wait at line 26, started at line 40
",
    },
    Row {
        shows: "a finaliser that wakes a goroutine",
        line: "run",
        file: FINALISER,
        status: Status::Clean,
        out: "got 9\n",
        err: FINALISER_ERRORS,
    },
    Row {
        shows: "a finaliser that wakes a goroutine with recovery",
        line: "run --recover",
        file: FINALISER,
        status: Status::Clean,
        out: "got 9\n",
        err: FINALISER_ERRORS,
    },
    Row {
        shows: "a finaliser that is set later keeps who holds its object",
        line: "run",
        file: LATE_FINALISER,
        status: Status::Found,
        out: "end\n",
        err: LATE_FINALISER_ERRORS,
    },
    Row {
        shows: "a finaliser that is set later keeps who holds its object with recovery",
        line: "run --recover",
        file: LATE_FINALISER,
        status: Status::Found,
        out: "end\n",
        err: LATE_FINALISER_ERRORS,
    },
];

#[test]
fn each_file_ends_as_its_head_comment_tells(rt: HostRuntime) -> Result<(), Fail> {
    expect_rows(&rt, &ROWS)
}
