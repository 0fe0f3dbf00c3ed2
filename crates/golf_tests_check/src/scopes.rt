//! Tests of names in each kind of scope. Expected verdicts are from the Go specification, "Declarations and
//! scope", "Blocks".

use crate::verdicts::{expect, expect_in_main};

#[test]
fn names_of_a_file_are_shadowed_in_functions(rt: HostRuntime) {
    expect(
        &rt,
        r#"
--- // A local, a parameter, a receiver hides a function, a global, a constant, a struct.
package main
func main() {
main := 1
main() } // rule: WRONG_CALL
---
package main
func main() {
main()
main := 1
_ = main }
---
package main
var x bool
func f(x int) int { return x }
func main() { _ = !x }
---
package main
const k = 1
func f(k bool) { k = true }
func main() {}
---
package main
type T struct {}
func (T *T) m(p *T) { var q *T } // rule: UNKNOWN_TYPE
func main() {}
---
package main
type T struct {}
func (T *T) m(p *T) { p = T }
func main() {}
---
package main
type T struct {}
func f(T int, p *T) { _ = T }
func main() {}
---
package main
type T struct {}
func f() {
T := 1
_ = &T{} } // rule: WRONG_LITERAL
func main() {}
---
package main
type T struct {}
func f() {
{ T := 1 }
_ = &T{} }
func main() {}
--- // What stands in another function is not known, nor is a method by its name alone.
package main
func f(x int) { y := x }
func main() {
x = 1 } // rule: UNKNOWN_NAME
---
package main
type T struct {}
func (t *T) m() {
m() } // rule: UNKNOWN_NAME
func main() {}
--- // A global's own initialiser does not see it as above; a body sees what is below.
package main
func main() { x = 2 }
var x = 1
---
package main
var x = x // rule: NOT_STEADY
func main() {}
--- // Calls of what is no function.
package main
type T struct { a int }
func main() {
t := &T{}
t.a() } // rule: WRONG_CALL
---
package main
type T struct { a int }
func main() {
T(nil) } // rule: WRONG_CALL"#,
    );
}

#[test]
fn names_of_a_block_end_with_it(rt: HostRuntime) {
    expect_in_main(
        &rt,
        r#"
--- // A block, in itself and after it.
x := 1
{
x := "a"
x = "b"
}
x = 2
---
{
x := 1
}
x = 2 // rule: UNKNOWN_NAME
---
x := 1
{
x = 2
x := true
x = false
}
x = 3
--- // The header of an `if` holds in both branches, and they are scopes of their own.
if x := 1; x == 1 {
x := true
_ = !x
} else {
_ = -x
}
---
if x := 1; x == 1 {
} else if y := x; y == 1 {
_ = x + y
} else {
_ = x + y
}
---
if true {
x := 1
} else {
x = 2 // rule: UNKNOWN_NAME
}
---
if x := 1; x == 1 {
}
x = 2 // rule: UNKNOWN_NAME
--- // The header of a `for` holds in its body and its last statement; the body does not hold in it.
for i := 0; i < 1; i++ {
i := true
_ = !i
}
---
for i := 0; i < 1; j++ { // rule: UNKNOWN_NAME
j := 1
}
---
for i := 0; i < 1; i++ {
}
i = 1 // rule: UNKNOWN_NAME
---
for {
x := 1
break
}
x = 1 // rule: UNKNOWN_NAME
--- // The names of a `range` are not known in its expression.
for x := range x { // rule: UNKNOWN_NAME
}
---
x := []bool{}
for x := range x {
_ = x + 1
}
_ = len(x)
---
s := []bool{}
for i, v := range s {
i := v
_ = !i
}
_ = i // rule: UNKNOWN_NAME
--- // Each clause of a `select` is a scope.
c := make(chan int)
select {
case v := <-c:
_ = v
case v, ok := <-c:
_ = ok && v == 1
default:
v := true
_ = !v
}
---
c := make(chan int)
select { // rule: UNKNOWN_NAME
case v := <-c:
_ = v
case c <- v:
}
---
c := make(chan int)
select {
case v := <-c:
_ = v
}
_ = v // rule: UNKNOWN_NAME
---
c := make(chan int)
select {
case c := <-c:
_ = c + 1
}
_ = <-c
---
c := make(chan int)
select {
default:
v := 1
}
_ = v // rule: UNKNOWN_NAME
--- // A name is known after its declaration alone.
x := x // rule: UNKNOWN_NAME
---
var x int = x // rule: UNKNOWN_NAME
---
x = 1 // rule: UNKNOWN_NAME
var x int
---
c := make(chan int)
c, ok := <-c // rule: NOT_ASSIGNABLE
--- // In one scope a name is declared once, also beside a new one.
x := 1
var x int // rule: NOT_DECLARABLE
---
c := make(chan int)
x := 1
{
x, y := <-c
_ = y
}"#,
    );
}
