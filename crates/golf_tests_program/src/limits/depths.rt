//! Tests of files whose trees are as deep as the limits allow. The tests make these files.
//!
//! The limit on nesting counts brackets, blocks and operators before an operand. It does not count the
//! links of a chain in a bracket that is closed again, nor an `else if` behind a `;`. A chain of these may
//! be as long as a file.

use crate::calls::{Ends, expect_ends};
use golf_base::List;
use golf_run_texts::Status;
use std::alloc::Global;
use std::process::Abort;
use std::sync::Wait;
use std::test::Fail;
use std::thread::Threads;

/// A file that nests one construct: `before`, then `open` as often as `count`, then `core`, then as often
/// `close` and the links, then `after`.
#[derive(Clone, Copy)]
struct Deep {
    /// The fact that the row shows.
    shows: &'static str,
    count: u32,
    before: &'static str,
    open: &'static str,
    core: &'static str,
    close: &'static str,
    link: &'static str,
    links: u32,
    after: &'static str,
    status: Status,
    err: &'static str,
}

// Adds a piece `count` times.
fn add_times(file: &mut List<u8>, count: u32, piece: &str) -> Result<(), Fail> {
    for _ in 0..count {
        file.extend_from_slice(piece.as_bytes())?;
    }
    Ok(())
}

// The text of a file.
fn file_of(alloc: Global, deep: &Deep) -> Result<List<u8>, Fail> {
    let mut file = List::new(alloc);
    file.extend_from_slice(deep.before.as_bytes())?;
    add_times(&mut file, deep.count, deep.open)?;
    file.extend_from_slice(deep.core.as_bytes())?;
    for _ in 0..deep.count {
        file.extend_from_slice(deep.close.as_bytes())?;
        add_times(&mut file, deep.links, deep.link)?;
    }
    file.extend_from_slice(deep.after.as_bytes())?;
    Ok(file)
}

// Fails the test unless the program, with these words over this file, ends so and writes these texts.
fn expect_deep<R: AllocGlobal + Abort + Threads + Wait + Sync>(
    rt: &R,
    line: &str,
    deep: &Deep,
    out: &str,
) -> Result<(), Fail> {
    let file = file_of(rt.alloc(), deep)?;
    let (out, err) = (out.as_bytes(), deep.err.as_bytes());
    expect_ends(
        rt,
        line,
        file.as_slice(),
        Ends::of(4096),
        deep.status,
        out,
        err,
    )
}

const NODE: &str = "\
    package main\n\
    type T struct {\n\
    n *T\n\
    s []*T\n\
    }\n\
    func (t *T) f() *T {\n\
    return t\n\
    }\n\
    func main() {\n\
    x := &T{}\n\
    x.n = x\n\
    x.s = []*T{x}\n\
    x = ";

// Chains of 400 links of each kind, in each of 25 brackets.
const CHAINS: [Deep; 5] = [
    Deep {
        shows: "sums",
        count: 25,
        before: "package main\nfunc main() {\nx := ",
        open: "(",
        core: "1",
        close: ")",
        link: "+1",
        links: 400,
        after: "\n}\n",
        status: Status::Clean,
        err: "",
    },
    Deep {
        shows: "conjunctions",
        count: 25,
        before: "package main\nfunc main() {\nx := ",
        open: "(",
        core: "true",
        close: ")",
        link: "&&true",
        links: 400,
        after: "\n}\n",
        status: Status::Clean,
        err: "",
    },
    Deep {
        shows: "selectors",
        count: 25,
        before: NODE,
        open: "(",
        core: "x",
        close: ")",
        link: ".n",
        links: 400,
        after: "\n}\n",
        status: Status::Clean,
        err: "",
    },
    Deep {
        shows: "calls of methods",
        count: 25,
        before: NODE,
        open: "(",
        core: "x",
        close: ")",
        link: ".f()",
        links: 200,
        after: "\n}\n",
        status: Status::Clean,
        err: "",
    },
    Deep {
        shows: "elements of fields",
        count: 25,
        before: NODE,
        open: "(",
        core: "x",
        close: ")",
        link: ".s[0]",
        links: 200,
        after: "\n}\n",
        status: Status::Clean,
        err: "",
    },
];

// Chains that a rule refuses, and a chain of `else if` with a first statement in each.
const OTHERS: [Deep; 4] = [
    Deep {
        shows: "calls of calls",
        count: 25,
        before: "package main\nfunc f() int {\nreturn 1\n}\nfunc main() {\nx := ",
        open: "(",
        core: "f",
        close: ")",
        link: "()",
        links: 400,
        after: "\n}\n",
        status: Status::Refused,
        err: "refused: line 6: rule 11\n",
    },
    Deep {
        shows: "elements of elements",
        count: 25,
        before: "package main\nfunc main() {\na := []int{1}\nx := ",
        open: "(",
        core: "a",
        close: ")",
        link: "[0]",
        links: 240,
        after: "\n}\n",
        status: Status::Refused,
        err: "refused: line 4: rule 8\n",
    },
    Deep {
        shows: "a global of 5,000 selectors",
        count: 13,
        before: "package main\ntype T struct {\nn *T\n}\nvar a *T\nvar b = ",
        open: "(",
        core: "a",
        close: ")",
        link: ".n",
        links: 400,
        after: "\nfunc main() {\n}\n",
        status: Status::Crashed,
        err: "panic: runtime error: invalid memory address or nil pointer dereference (goroutine 1, line 6)\n",
    },
    Deep {
        shows: "5,000 else if behind a first statement",
        count: 1,
        before: "package main\nfunc main() {\n",
        open: "",
        core: "",
        close: "",
        link: "if x := 1; x == 2 {} else ",
        links: 5_000,
        after: "{}\n}\n",
        status: Status::Clean,
        err: "",
    },
];

// The deepest nesting of each kind that the limit allows.
const NESTED: [Deep; 12] = [
    Deep {
        shows: "negations",
        count: 992,
        before: "package main\nfunc main() {\nx := true\nx = ",
        open: "!",
        core: "x",
        close: "",
        link: "",
        links: 0,
        after: "\n}\n",
        status: Status::Clean,
        err: "",
    },
    Deep {
        shows: "comparisons in brackets",
        count: 990,
        before: "package main\nfunc main() {\nx := ",
        open: "(",
        core: "true",
        close: " == true)",
        link: "",
        links: 0,
        after: "\n}\n",
        status: Status::Clean,
        err: "",
    },
    Deep {
        shows: "arguments",
        count: 496,
        before: "package main\nfunc f(x int) int {\nreturn x\n}\nfunc main() {\nx := ",
        open: "f(",
        core: "1",
        close: ")",
        link: "",
        links: 0,
        after: "\n}\n",
        status: Status::Clean,
        err: "",
    },
    Deep {
        shows: "indices",
        count: 496,
        before: "package main\nfunc main() {\na := []int{0}\nx := ",
        open: "a[",
        core: "0",
        close: "]",
        link: "",
        links: 0,
        after: "\n}\n",
        status: Status::Clean,
        err: "",
    },
    Deep {
        shows: "fields of literals",
        count: 198,
        before: "package main\ntype T struct {\nn *T\n}\nfunc main() {\nx := ",
        open: "&T{n: ",
        core: "nil",
        close: "}",
        link: "",
        links: 0,
        after: "\n}\n",
        status: Status::Clean,
        err: "",
    },
    Deep {
        shows: "channels of channels",
        count: 995,
        before: "package main\nfunc f(c ",
        open: "chan ",
        core: "int",
        close: "",
        link: "",
        links: 0,
        after: ") {\n}\nfunc main() {\n}\n",
        status: Status::Clean,
        err: "",
    },
    Deep {
        shows: "slices of slices",
        count: 496,
        before: "package main\nfunc main() {\nvar x ",
        open: "[]",
        core: "int",
        close: "",
        link: "",
        links: 0,
        after: "\n}\n",
        status: Status::Clean,
        err: "",
    },
    Deep {
        shows: "selects",
        count: 248,
        before: "package main\nfunc main() {\n",
        open: "select {default: ",
        core: "",
        close: "}",
        link: "",
        links: 0,
        after: "\n}\n",
        status: Status::Clean,
        err: "",
    },
    Deep {
        shows: "blocks",
        count: 994,
        before: "package main\nfunc main() {\n",
        open: "{",
        core: "",
        close: "}",
        link: "",
        links: 0,
        after: "\n}\n",
        status: Status::Clean,
        err: "",
    },
    Deep {
        shows: "conditions",
        count: 331,
        before: "package main\nfunc main() {\n",
        open: "if true {",
        core: "",
        close: "}",
        link: "",
        links: 0,
        after: "\n}\n",
        status: Status::Clean,
        err: "",
    },
    Deep {
        shows: "loops",
        count: 331,
        before: "package main\nfunc main() {\n",
        open: "for false {",
        core: "",
        close: "}",
        link: "",
        links: 0,
        after: "\n}\n",
        status: Status::Clean,
        err: "",
    },
    Deep {
        shows: "else if without a first statement",
        count: 1,
        before: "package main\nfunc main() {\n",
        open: "",
        core: "",
        close: "",
        link: "if false {} else ",
        links: 198,
        after: "{}\n}\n",
        status: Status::Clean,
        err: "",
    },
];

#[test]
fn chains_are_read_judged_and_run_without_recursion(rt: HostRuntime) -> Result<(), Fail> {
    for deep in CHAINS.iter() {
        expect_deep(&rt, "run", deep, "")?;
    }
    for deep in OTHERS.iter() {
        expect_deep(&rt, "run", deep, "")?;
    }
    Ok(())
}

#[test]
fn the_code_of_chains_is_that_of_their_source(rt: HostRuntime) -> Result<(), Fail> {
    expect_deep(&rt, "meaning", &CHAINS[0], "meaning: 1 functions agree\n")?;
    expect_deep(&rt, "meaning", &CHAINS[3], "meaning: 2 functions agree\n")
}

#[test]
fn the_deepest_nesting_of_each_kind_runs(rt: HostRuntime) -> Result<(), Fail> {
    for deep in NESTED.iter() {
        expect_deep(&rt, "run", deep, "")?;
    }
    Ok(())
}
