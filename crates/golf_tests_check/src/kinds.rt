//! Tests of operands of the wrong kind: no channel, no value, or nil. Expected verdicts are from the Go
//! specification, "Send statements", "Comparison operators", "Assignability", "Short variable
//! declarations", and from the rules of the language.

use crate::verdicts::{expect, expect_in_main};

#[test]
fn a_send_on_what_is_no_channel_breaks_16_and_not_9(rt: HostRuntime) {
    expect_in_main(
        &rt,
        r#"
---
var s []int
s <- true // rule: WRONG_CHANNEL
---
var s []int
s <- 1 // rule: WRONG_CHANNEL
---
var s []chan int
s <- s // rule: WRONG_CHANNEL
---
var n int
n <- true // rule: WRONG_CHANNEL
---
nil <- 1 // rule: WRONG_CHANNEL
--- // In a clause of `select` too, on the line of `select`.
var s []int
select { // rule: WRONG_CHANNEL

case s <- true:
}
--- // What is received from alone is a channel, and carries something.
var c <-chan int
c <- true // rule: NOT_ASSIGNABLE
---
var c <-chan int
c <- 1 // rule: WRONG_CHANNEL
---
var c chan int
select { // rule: NOT_ASSIGNABLE

case c <- true:
}"#,
    );
}

#[test]
fn a_type_of_a_package_is_judged_like_the_name_of_a_struct(rt: HostRuntime) {
    expect(
        &rt,
        r#"
---
package main
import "sync"
type T struct {}
func main() {
sync.Cond() // rule: WRONG_CALL
}
---
package main
import "sync"
type T struct {}
func main() {
T() // rule: WRONG_CALL
}
---
package main
import "sync"
func main() {
go sync.Mutex() // rule: WRONG_CALL
}
---
package main
import "sync"
func main() {
(sync.RWMutex)(1) // rule: WRONG_CALL
}
---
package main
import "sync"
func main() {
x := 1
sync.Cond = x // rule: NO_PLACE
}
---
package main
import "sync"
func main() {
sync.Cond++ // rule: NO_PLACE
}
---
package main
import "sync"
func main() {
sync.WaitGroup += 1 // rule: NO_PLACE
}
---
package main
import ("runtime"; "sync")
type T struct {}
func main() {
t := &T{}
runtime.SetFinalizer(t, sync.Mutex) // rule: WRONG_FINALISER
}
---
package main
import ("runtime"; "sync")
type T struct {}
func main() {
t := &T{}
runtime.SetFinalizer(t, T) // rule: WRONG_FINALISER
}
---
package main
import "sync"
func main() {
x := sync.Mutex // rule: UNKNOWN_NAME
}
---
package main
import "sync"
func main() {
sync.Mutex // rule: UNKNOWN_NAME
}
---
package main
import "sync"
func main() {
sync.Mutex.Lock() // rule: UNKNOWN_NAME
}
---
package main
import "sync"
var x = sync.Mutex() // rule: NOT_STEADY
func main() {}"#,
    );
}

#[test]
fn what_a_package_lacks_is_unknown(rt: HostRuntime) {
    expect(
        &rt,
        r#"
---
package main
import "sync"
func main() {
sync.Map() // rule: UNKNOWN_NAME
}
---
package main
import "sync"
func main() {
sync.Once = 1 // rule: UNKNOWN_NAME
}
---
package main
func main() {
sync.Mutex() // rule: UNKNOWN_NAME
}
---
package main
import ("fmt"; "sync")
func main() {
fmt.Mutex() // rule: UNKNOWN_NAME
}
---
package main
import ("runtime"; "sync")
func main() {
runtime.Cond++ // rule: UNKNOWN_NAME
}"#,
    );
}

#[test]
fn make_and_new_left_of_an_assignment_are_judged_like_len(rt: HostRuntime) {
    expect_in_main(
        &rt,
        r#"
---
var c chan int
var v int
v, len = <-c // rule: NO_PLACE
---
var c chan int
var v int
v, make = <-c // rule: NO_PLACE
---
var c chan int
var v int
v, new = <-c // rule: NO_PLACE
---
var c chan int
var ok bool
make, ok = <-c // rule: NO_PLACE
---
var c chan int
select {

case new = <-c: // rule: NO_PLACE
}
---
var c chan int
v, make := <-c // rule: NOT_DECLARABLE
---
var new int // rule: NOT_DECLARABLE"#,
    );
}

#[test]
fn channels_are_compared_where_either_is_assignable_to_the_other(rt: HostRuntime) {
    expect_in_main(
        &rt,
        r#"
---
var c chan int
var d <-chan int
_ = c == d
---
var c chan int
var d <-chan int
_ = d == c
---
var c chan int
var d chan<- int
_ = d != c
---
var c chan<- int
var d <-chan int
_ = d == c // rule: WRONG_OPERAND
---
var c chan bool
var d <-chan int
_ = d == c // rule: WRONG_OPERAND"#,
    );
}

#[test]
fn a_name_of_an_outer_block_is_new_in_an_inner_one(rt: HostRuntime) {
    expect_in_main(
        &rt,
        r#"
---
c := make(chan int)
x := true
{
x, y := <-c
_ = x + 1
_ = y
}
---
c := make(chan int)
x := true
x, y := <-c // rule: NOT_ASSIGNABLE
---
c := make(chan int)
y := 1
{ y := 2
x, y := <-c // rule: NOT_ASSIGNABLE
}"#,
    );
}

#[test]
fn nil_is_a_value_of_each_pointer_of_sync(rt: HostRuntime) {
    expect(
        &rt,
        r#"
---
package main
import "sync"
type T struct { c *sync.Cond; w *sync.WaitGroup; r *sync.RWMutex; m *sync.Mutex }
func f(c *sync.Cond) *sync.RWMutex { return nil }
func main() {
var c *sync.Cond = nil
var w *sync.WaitGroup = nil
var r *sync.RWMutex = nil
var m *sync.Mutex = nil
_ = c == nil
_ = nil == w
_ = r != nil
_ = nil != m
t := &T{c: nil, w: nil, r: nil, m: nil}
t.w = nil
_ = f(nil)
}"#,
    );
}
