//! Tests of imports, declarations, `main` and globals. Expected verdicts are from the Go specification,
//! "Declarations and scope", "Import declarations", "Program execution", and from the rules of the
//! language.

use crate::verdicts::{expect, expect_types};
use std::test::Fail;

#[test]
fn imports_are_known_and_there_once(rt: HostRuntime) {
    expect(
        &rt,
        r#"
---
package main
import "fmt"
import "sync"
func main() {}
---
package main
import (
"fmt"
"runtime"
)
func main() {}
---
package main
import "os" // rule: WRONG_IMPORT
func main() {}
---
package main
import "fmt"
import ( // rule: WRONG_IMPORT
"runtime"
"fmt"
)
func main() {}
---
package main
import "os" // rule: WRONG_IMPORT
var x = y"#,
    );
}

#[test]
fn names_of_a_file_are_declared_once(rt: HostRuntime) {
    expect(
        &rt,
        r#"
---
package main
var x int
const x = 1 // rule: NOT_DECLARABLE
func main() {}
---
package main
var len int // rule: NOT_DECLARABLE
func main() {}
---
package main
var make int // rule: NOT_DECLARABLE
func main() {}
---
package main
func fmt() {} // rule: NOT_DECLARABLE
func main() {}
---
package main
var _ int // rule: NOT_DECLARABLE
func main() {}
---
package main
func init() {} // rule: NOT_DECLARABLE
func main() {}
---
package main
var init int
func main() {}
---
package main
type T struct { len, init, _ int }
func (t *T) make() {}
func main() {}
---
package main
func main() {}
type T struct {}
func (t *T) main() {}"#,
    );
}

#[test]
fn members_differ_and_methods_have_structs(rt: HostRuntime) {
    expect(
        &rt,
        r#"
---
package main
type T struct { // rule: WRONG_MEMBER
a int
a bool }
func main() {}
---
package main
func (t *T) a() {} // rule: WRONG_MEMBER
func main() {}
---
package main
var T int
func (t *T) a() {} // rule: WRONG_MEMBER
func main() {}
---
package main
func (t *T) a() {} // rule: WRONG_MEMBER
type T struct { a int }
func main() {}
---
package main
type T struct {}
func (t *T) a() {}
func (t *T) a() {} // rule: WRONG_MEMBER
func main() {}
---
package main
type T struct {}
type U struct {}
func (t *T) a() {}
func (t *U) a() {}
func main() {}
---
package main
type T struct { a1,a2,a3,a4,a5,a6,a7,a8,a9,b1,b2,b3,b4,b5,b6,b7,b8,b9,c1,c2,c3,c4,c5,c6,c7,c8,c9,d1,d2,d3,d4,d5,d6,d7,d8,d9,e1,e2,e3,e4,e5,e6,e7,e8,e9,f1,f2,f3,f4,f5,f6,f7,f8,f9,g1,g2,g3,g4,g5,g6,g7,g8,g9,h1 int }
func main() {}
---
package main
type T struct { a1,a2,a3,a4,a5,a6,a7,a8,a9,b1,b2,b3,b4,b5,b6,b7,b8,b9,c1,c2,c3,c4,c5,c6,c7,c8,c9,d1,d2,d3,d4,d5,d6,d7,d8,d9,e1,e2,e3,e4,e5,e6,e7,e8,e9,f1,f2,f3,f4,f5,f6,f7,f8,f9,g1,g2,g3,g4,g5,g6,g7,g8,g9,h1,h2 int } // rule: WRONG_MEMBER
func main() {}"#,
    );
}

#[test]
fn written_types_are_known(rt: HostRuntime) {
    expect(
        &rt,
        r#"
---
package main
import "sync"
type T struct { m *sync.Mutex; w *sync.WaitGroup; r *sync.RWMutex; c *sync.Cond }
func main() {}
---
package main
type T struct { m *sync.Mutex } // rule: UNKNOWN_NAME
func main() {}
---
package main
import "sync"
var m *sync.Map // rule: UNKNOWN_TYPE
func main() {}
---
package main
var m *sync.Map // rule: UNKNOWN_NAME
func main() {}
---
package main
type T struct { n *T; s []chan<- *T }
func main() {}
---
package main
type T struct { n T } // rule: UNKNOWN_TYPE
func main() {}
---
package main
func f(x *int) {} // rule: UNKNOWN_TYPE
func main() {}
---
package main
func f() float { // rule: UNKNOWN_TYPE
return 1 }
func main() {}
---
package main
var T int
var x *T // rule: UNKNOWN_TYPE
func main() {}"#,
    );
}

#[test]
fn main_is_a_function_without_parameters_and_result(rt: HostRuntime) {
    expect(
        &rt,
        r#"
---
package main // rule: NO_MAIN

---
package main
var main int // rule: NO_MAIN
---
package main
func main(x int) {} // rule: NO_MAIN
---
package main

func main() int { return 1 } // rule: NO_MAIN
---
package main
var x float // rule: UNKNOWN_TYPE
---
package main // rule: NO_MAIN
func f() { x }
"#,
    );
}

#[test]
fn initialisers_call_receive_and_read_nothing_below(rt: HostRuntime) {
    expect(
        &rt,
        r#"
---
package main
var s []int
var n = len(s) + 1
var c = make(chan int)
var p = new(T)
type T struct {}
func main() {}
---
package main
var x = y // rule: NOT_STEADY
var y = 1
func main() {}
---
package main
var x int = x // rule: NOT_STEADY
func main() {}
---
package main
var x = k
const k = 1
func main() {}
---
package main
var x = f() // rule: NOT_STEADY
func f() int { return 1 }
func main() {}
---
package main
var x = f(true) // rule: NOT_STEADY
func f(a int) int { return 1 }
func main() {}
---
package main
var c chan int
var x = <-c // rule: NOT_STEADY
func main() {}
---
package main
var c chan<- int
var x = <-c // rule: NOT_STEADY
func main() {}
---
package main
import "sync"
var m = &sync.Mutex{}
var c = sync.NewCond(m)
func main() { c.L.Lock() }
---
package main
var x = nil // rule: NIL_WITHOUT_TYPE
func main() {}
---
package main
var x int = true // rule: NOT_ASSIGNABLE
func main() {}"#,
    );
}

#[test]
fn bodies_use_globals_below_by_their_forms(rt: HostRuntime) {
    expect(
        &rt,
        r#"
---
package main
func main() {
var s string = x // rule: NOT_ASSIGNABLE
}
var x = 1 + 2
---
package main
func main() {
var s int = x
}
var x = 1 + 2
---
package main
func main() {
var s string = x
}
var x = y // rule: NOT_STEADY
var y = 1
---
package main
func main() {
var s int = p.next.n
}
var p = &T{n: 1}
type T struct { n int; next *T }
--- // A form sees written types wherever they stand, and globals above it.
package main
func main() {
var s string = x // rule: NOT_ASSIGNABLE
}
var x = y
var y int
---
package main
func main() {
var s string = x // rule: NOT_ASSIGNABLE
}
var y = 1
var x = y
---
package main
func main() {
var s string = x // rule: NOT_ASSIGNABLE
}
var x = f()
func f() int { return 1 }
---
package main
func main() {
var s string = x
}
var x = nil // rule: NIL_WITHOUT_TYPE
--- // What is not known breaks nothing: the fault is that of the initialiser.
package main
func main() {
x.y = 1
x.m()
go x.m(2)
_ = x.y.z[0].w + x.m()
x.n++
}
var x = y // rule: NOT_STEADY
var y = 1
---
package main
func main() {
for a, b := range x { c := a == b }
x <- 1
v, ok := <-x
close(x)
_ = len(x)
panic(x)
}
var x = y // rule: NOT_STEADY
var y = 1
---
package main
func main() {
x.y // rule: WRONG_USE
}
var x = y
var y = 1
---
package main
func main() {
x.y = 1
x() // rule: WRONG_CALL
}
var x = y
---
package main
func main() {
var s string = x
}
var x = s[0] // rule: NOT_STEADY
var s = []int{1}"#,
    );
}

#[test]
fn integers_have_64_bits(rt: HostRuntime) {
    expect(
        &rt,
        r#"
---
package main
const k = 9223372036854775807
func main() {}
---
package main
const k = 9223372036854775808 // rule: TOO_LARGE
func main() {}
---
package main
const k = -9223372036854775808 // rule: TOO_LARGE
func main() {}
---
package main
func main() {
x := -9223372036854775808 // rule: TOO_LARGE
_ = x }"#,
    );
}

#[test]
fn functions_with_a_result_end_in_a_terminating_statement(rt: HostRuntime) {
    expect(
        &rt,
        r#"
---
package main
func f() int { // rule: NOT_TERMINATING
}
func main() {}
---
package main
func f() int {
for { }
}
func main() {}
---
package main
func f() int { // rule: NOT_TERMINATING
for { break }
}
func main() {}
---
package main
func f() int {
for {
for { break } }
}
func main() {}
---
package main
func f(b bool) int {
if b { return 1 } else { panic("x") }
}
func main() {}
---
package main
func f(b bool) int { // rule: NOT_TERMINATING
if b { return 1 }
}
func main() {}
---
package main
func f(c chan int) int {
select {
case <-c: return 1
default: (panic("x")) }
}
func main() {}
---
package main
func f(c chan int) int { // rule: NOT_TERMINATING
select {
case <-c: break
default: return 1 }
}
func main() {}
---
package main
func f() int {
x // rule: UNKNOWN_NAME
}
func main() {}"#,
    );
}

#[test]
fn each_expression_has_its_type_in_print_order(rt: HostRuntime) -> Result<(), Fail> {
    let text = r"package main
func f(a int) bool { return a == 1 }
func main() {
go f(-1)
f(2)
var s []string = nil
_ = s[0]
c := make(chan bool)
v, ok := <-c
_ = (v == ok)
}";
    // `a == 1`, `a`, `1`; `f`, `-1`, `1`; `f(2)`, `f`, `2`; `nil`; `_`, `s[0]`, `s`, `0`; `make`; `c`; `_`, the
    // parentheses, `v == ok`, `v`, `ok`.
    let expected = "\
        bool int int none int int bool none int none none string layered int layered layered none \
        bool bool bool bool";
    expect_types(&rt, text, expected)
}

#[test]
fn calls_literals_and_clauses_have_types_of_their_parts(rt: HostRuntime) -> Result<(), Fail> {
    let text = r#"package main
import "fmt"
type T struct { a int }
func (t *T) m(n int) int { return t.a + n }
func main() {
t := &T{a: 1}
s := []bool{true}
fmt.Println(t.m(len(s)), "x")
defer t.m(2)
c := make(chan int, 3)
select {
case c <- (4):
case v := <-c: v++
}
for i, b := range s { t.a = i; _ = !b }
}"#;
    // `t.a + n`, `t.a`, `t`, `n`; the literal of a struct, `1`; that of a slice, `true`;
    // `fmt.Println(..)`, `fmt.Println`, `fmt`, `t.m(..)`, `t.m`, `t`, `len(s)`, `len`, `s`, `"x"`;
    // `t.m`, `t`, `2`; `make`, `3`; `c`, `(4)`, `4`; `c`; `v`; `s`; `t.a`, `t`, `i`; `_`, `!b`,
    // `b`.
    let expected = "\
        int int other int other int layered bool none none none int none other int none layered \
        string none other int layered int layered int int layered int layered int other int none \
        bool bool";
    expect_types(&rt, text, expected)
}
