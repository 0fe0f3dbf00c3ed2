//! Files whose code is judged.

/// A method, `up`, that adds, and then the function `main`.
pub(crate) const METHOD: &str = "\
    package main\n\
    import \"fmt\"\n\
    type P struct {\n\
    \tn int\n\
    }\n\
    func (p *P) up(d int) int {\n\
    \tp.n += d\n\
    \treturn p.n\n\
    }\n\
    func main() {\n\
    \ta := make([]int, 3)\n\
    \tp := &P{n: 4}\n\
    \tfor i := range a {\n\
    \t\ta[i] = p.up(i)\n\
    \t}\n\
    \tfmt.Println(a[0], a[1], a[2], len(a))\n\
    \ta[3] = 1\n\
    }\n";

/// A worker pool: a method, `add`, and the functions `work`, `ask`, `answer` and `main`.
pub(crate) const WORKER_POOL: &str = "\
    package main\n\
    \n\
    import (\n\
    \t\"fmt\"\n\
    \t\"runtime\"\n\
    \t\"sync\"\n\
    )\n\
    \n\
    type Total struct {\n\
    \tmu  *sync.Mutex\n\
    \tsum int\n\
    }\n\
    \n\
    func (t *Total) add(n int) {\n\
    \tt.mu.Lock()\n\
    \tdefer t.mu.Unlock()\n\
    \tt.sum += n\n\
    }\n\
    \n\
    func work(jobs <-chan int, t *Total, wg *sync.WaitGroup) {\n\
    \tdefer wg.Done()\n\
    \tfor n := range jobs {\n\
    \t\tt.add(n)\n\
    \t}\n\
    }\n\
    \n\
    func ask(n int) chan int {\n\
    \treply := make(chan int)\n\
    \tgo answer(n, reply)\n\
    \treturn reply\n\
    }\n\
    \n\
    func answer(n int, reply chan<- int) {\n\
    \treply <- n + 1\n\
    }\n\
    \n\
    func main() {\n\
    \tt := &Total{mu: &sync.Mutex{}}\n\
    \twg := &sync.WaitGroup{}\n\
    \tjobs := make(chan int, 4)\n\
    \tfor i := 0; i < 3; i++ {\n\
    \t\twg.Add(1)\n\
    \t\tgo work(jobs, t, wg)\n\
    \t}\n\
    \task(1)\n\
    \tfor i := 1; i <= 10; i++ {\n\
    \t\tjobs <- i\n\
    \t}\n\
    \tclose(jobs)\n\
    \twg.Wait()\n\
    \tfor i := 0; i < 50; i++ {\n\
    \t}\n\
    \truntime.GC()\n\
    \tfmt.Println(\"sum\", t.sum)\n\
    }\n";
