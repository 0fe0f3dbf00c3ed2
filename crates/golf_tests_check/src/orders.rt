//! Tests of files that break two rules: the checker names the first one in walk order. Expected verdicts
//! are from the rules of the language. The walk order is:
//!
//! - imports, declared names, written types and `main`, one after another,
//! - then constants, initialisers and bodies, in source order,
//! - parts before the whole, from left to right,
//! - for one node the rules in rising order of number.

use crate::verdicts::{expect, expect_in_main};

#[test]
fn passes_follow_one_another(rt: HostRuntime) {
    expect(
        &rt,
        r#"
--- // Imports, then names.
package main
var x int
var x int // rule: NOT_DECLARABLE

---
package main
import "os" // rule: WRONG_IMPORT
var x int
var x int

--- // Names and members in source order, then written types.
package main
var a float
var b int
var b int // rule: NOT_DECLARABLE
---
package main
var a float
func (t *T) m() {} // rule: WRONG_MEMBER
---
package main
type T struct { a, a int } // rule: WRONG_MEMBER
var len int
---
package main
var len int // rule: NOT_DECLARABLE
type T struct { a, a int }
---
package main
type T struct {}
type T struct { a, a int } // rule: NOT_DECLARABLE
--- // Written types in source order, then `main`.
package main
func f(a float) {} // rule: UNKNOWN_TYPE
---
package main
func f(a float) *sync.Map {} // rule: UNKNOWN_TYPE
var m *sync.Map
---
package main
var m *sync.Map // rule: UNKNOWN_NAME
func f(a float) {}
--- // `main`, then constants, initialisers and bodies in source order.
package main
const k = 9223372036854775808
var main int // rule: NO_MAIN
---
package main
func f() { x } // rule: UNKNOWN_NAME
const k = 9223372036854775808
func main() {}
---
package main
var a int = true // rule: NOT_ASSIGNABLE
func f() { x }
func main() {}
--- // The names of a head, then the body, then its end.
package main
func f(a, a int) int { x } // rule: NOT_DECLARABLE
func main() {}
---
package main
func f(a int) int {
x } // rule: UNKNOWN_NAME
func main() {}
--- // Fields, imports in a group and parameters have the line of their declaration.
package main
import ( // rule: WRONG_IMPORT
"fmt"
"os"
)
func main() {}
---
package main
type T struct { // rule: UNKNOWN_TYPE
a int
b float
}
func main() {}
---
package main
func f(a int, // rule: UNKNOWN_TYPE
b float) {}
func main() {}
---
package main
func f(a int, // rule: NOT_DECLARABLE
a int) {}
func main() {}"#,
    );
}

#[test]
fn rules_of_initialisers_and_calls_follow_one_another(rt: HostRuntime) {
    expect(
        &rt,
        r#"
--- // The parts of a call, then rule 7, then those on its arguments.
package main
var a = f(x) // rule: UNKNOWN_NAME
func f(n int) int { return n }
func main() {}
---
package main
var a = f(true) // rule: NOT_STEADY
func f(n int) int { return n }
func main() {}
---
package main
var a = f() // rule: NOT_STEADY
func f(n int) int { return n }
func main() {}
---
package main
var a = f() // rule: NOT_STEADY
func f() {}
func main() {}
---
package main
var a int
var b = a() // rule: NOT_STEADY
func main() {}
---
package main
var a = <-1 // rule: NOT_STEADY
func main() {}
---
package main
var a = len(b) // rule: NOT_STEADY
var b = 1
func main() {}
---
package main
var a bool = len(1) // rule: WRONG_OPERAND
func main() {}
--- // Leading pairs, then the number of arguments.
package main
func f(n int) {}
func main() {
f(true, 2) } // rule: NOT_ASSIGNABLE
---
package main
func f(n int, b bool) {}
func main() {
f(true) } // rule: NOT_ASSIGNABLE
---
package main
func f(n int, b bool) {}
func main() {
f(1, x) } // rule: UNKNOWN_NAME
---
package main
func f(n int) {}
func main() {
go f(true, 2) } // rule: NOT_ASSIGNABLE
--- // A call without a result is no value: after its own rules, before those of what it prints.
package main
func f() {}
func main() {
_ = f(1) } // rule: WRONG_CALL
---
package main
func f() {}
func g() int {
return f() } // rule: WRONG_USE
func main() {}
---
package main
func f() {}
func main() {
return f() } // rule: WRONG_USE
---
package main
import "fmt"
func main() {
_ = fmt.Println(main) } // rule: UNKNOWN_NAME
---
package main
import "fmt"
func main() {
_ = fmt.Println(nil) } // rule: WRONG_USE
---
package main
import "runtime"
func main() {
runtime.SetFinalizer(1, main, 2) } // rule: WRONG_CALL
---
package main
import "runtime"
func main() {
_ = runtime.SetFinalizer(1, main) } // rule: WRONG_USE
---
package main
import "fmt"
func main() {
go fmt.Println(nil) } // rule: NOT_PRINTABLE
--- // What stands in a struct literal: the values, rule 9 of the fields that are known, then rule 20.
package main
type T struct { a int }
func main() {
_ = &T{a: true, a: x} } // rule: UNKNOWN_NAME
---
package main
type T struct { a int }
func main() {
_ = &T{b: 1, a: true} } // rule: NOT_ASSIGNABLE
---
package main
func main() {
_ = &T{a: x} } // rule: UNKNOWN_NAME"#,
    );
}

#[test]
fn rules_of_a_statement_follow_one_another(rt: HostRuntime) {
    expect_in_main(
        &rt,
        r#"
--- // Parts from left to right, then the whole.
_ = (1 + true) < x // rule: WRONG_OPERAND
---
_ = x < (1 + true) // rule: UNKNOWN_NAME
---
x = 1 + true // rule: UNKNOWN_NAME
---
panic(-true, x) // rule: WRONG_OPERAND
--- // A value without a type, then a name.
var len float = x // rule: UNKNOWN_TYPE
---
var len int = x // rule: UNKNOWN_NAME
---
var len int = true // rule: NOT_DECLARABLE
---
var len = nil // rule: NOT_DECLARABLE
---
len := nil // rule: NOT_DECLARABLE
---
x := 1
x := nil // rule: NIL_WITHOUT_TYPE
---
x := 1
x := y // rule: UNKNOWN_NAME
--- // 8 before 10 and 11, 9 before 10, 10 alone.
nil++ // rule: WRONG_OPERAND
---
1 += true // rule: WRONG_OPERAND
---
1 += 1 // rule: NO_PLACE
---
true = 1 // rule: NOT_ASSIGNABLE
---
true = false // rule: NO_PLACE
---
nil = 1 // rule: NO_PLACE
---
_ = make(int, true) // rule: WRONG_OPERAND
---
_ = make(int, 1) // rule: WRONG_CALL
---
_ = make(float, true) // rule: UNKNOWN_TYPE
---
_ = len(1, 2) // rule: WRONG_OPERAND
--- // 9 before 16, 11 before 16, 16 before 18, 11 before 21.
var c <-chan int
c <- true // rule: NOT_ASSIGNABLE
---
close(nil, 1) // rule: WRONG_CALL
---
_ = close(nil) // rule: WRONG_CHANNEL
---
panic(1, 2) // rule: WRONG_CALL
---
_ = panic(1) // rule: WRONG_USE
--- // What is called, then 12.
go nil() // rule: WRONG_CALL
---
x := 1
defer x() // rule: WRONG_CALL
---
defer panic(1) // rule: NOT_PRINTABLE
---
go len(1) // rule: WRONG_OPERAND
--- // Two names beside a receive: 16, then 2, then 9, then 24; 3, then 9, then 10.
var c chan<- int
len, ok := <-c // rule: WRONG_CHANNEL
---
var c chan int
ok := 1
len, ok := <-c // rule: NOT_DECLARABLE
---
var c chan int
v := 1
v, v := <-c // rule: NOTHING_NEW
---
var c chan int
v := "a"
v, v := <-c // rule: NOTHING_NEW
---
var c chan int
v := "a"
v, w := <-c // rule: NOT_ASSIGNABLE
---
var c chan int
v := 1
v, _ := <-c // rule: NOTHING_NEW
---
var c chan int
x, true = <-c // rule: UNKNOWN_NAME
---
var c chan int
nil, main = <-c // rule: NO_PLACE
---
var c chan int
_, nil = <-c // rule: NO_PLACE
--- // `for`: before, condition, after, body.
for i := nil; 1; x++ { 2 } // rule: NIL_WITHOUT_TYPE
---
for i := 0; 1; x++ { 2 } // rule: WRONG_OPERAND
---
for i := 0; true; x++ { 2 } // rule: UNKNOWN_NAME
---
for i := 0; true; i++ { 2 } // rule: WRONG_USE
--- // `range`: the expression, 2, 16, 17, the body.
for len, len := range x { y } // rule: UNKNOWN_NAME
---
var c chan<- int
for len, v := range c { y } // rule: NOT_DECLARABLE
---
var c chan<- int
for i, v := range c { y } // rule: WRONG_CHANNEL
---
var c chan int
for i, v := range c { y } // rule: WRONG_RANGE
---
var c chan int
for i := range c {
y } // rule: UNKNOWN_NAME
--- // `if`: before, condition, branches.
if x := nil; 1 { 2 } // rule: NIL_WITHOUT_TYPE
---
if x := 1; x { 2 } else { y } // rule: WRONG_OPERAND
---
if true { 2 } else { y } // rule: WRONG_USE
---
if true {
} else if 1 { // rule: WRONG_OPERAND
y }
--- // `select`: clause by clause, its operands on its own line, its names on that of `case`.
select { // rule: UNKNOWN_NAME

case <-x:
y
}
---
var c chan int
select {
case len := <-c: // rule: NOT_DECLARABLE
y
case <-x:
}
---
var c chan int
select {
case main = <-c: // rule: NO_PLACE
}
---
var c chan int
select {
case <-c:
1 // rule: WRONG_USE
case x <- 1:
}
---
var c chan bool
select { // rule: NOT_ASSIGNABLE

case c <- 1:
}
---
var c <-chan int
select { // rule: WRONG_CHANNEL

case c <- 1:
}
---
var c chan<- int
select { // rule: WRONG_CHANNEL

case v, ok := <-c:
}
---
var c chan int
select {

case v, v := <-c: // rule: NOT_DECLARABLE
}"#,
    );
}
