//! Tests of statements. Expected verdicts are from the Go specification, "Statements", "Blocks", and from
//! the rules of the language.

use crate::verdicts::expect;

#[test]
fn locals_are_declared_once_in_a_scope(rt: HostRuntime) {
    expect(
        &rt,
        r#"
---
package main
func main() {
var x int
var x int // rule: NOT_DECLARABLE
}
---
package main
func f(x int) {
var x int // rule: NOT_DECLARABLE
}
func main() {}
---
package main
func f(x, x int) { // rule: NOT_DECLARABLE
}
func main() {}
---
package main
type T struct {}
func (x *T) f(x int) { // rule: NOT_DECLARABLE
}
func main() {}
---
package main
func f(_ int) { // rule: NOT_DECLARABLE
}
func main() {}
---
package main
func main() {
x := 1
x := 2 // rule: NOTHING_NEW
}
---
package main
func f(x int) {
x := 2 // rule: NOTHING_NEW
}
func main() {}
---
package main
func main() {
_ := 1 // rule: NOT_DECLARABLE
}
---
package main
func main() {
len := 1 // rule: NOT_DECLARABLE
}
---
package main
func main() {
init := 1
_ = init }
---
package main
func main() {
x := nil // rule: NIL_WITHOUT_TYPE
}
---
package main
func main() {
var x = nil // rule: NIL_WITHOUT_TYPE
}
---
package main
func main() {
var x float = true // rule: UNKNOWN_TYPE
}
---
package main
func main() {
var x int = y // rule: UNKNOWN_NAME
var x int }"#,
    );
}

#[test]
fn each_kind_of_scope_shadows_and_ends(rt: HostRuntime) {
    expect(
        &rt,
        r#"
---
package main
var x int
func main() {
x := true
{
x := "a"
_ = x == "b" }
_ = !x
}
func f() int { return x }
---
package main
func main() {
{
x := 1
_ = x }
_ = x // rule: UNKNOWN_NAME
}
---
package main
func main() {
x := 1
if x := true; x {
x := "a"
_ = x == "b" } else {
_ = !x }
_ = x + 1
}
---
package main
func main() {
if x := 1; x == 1 { }
_ = x // rule: UNKNOWN_NAME
}
---
package main
func main() {
for i := 0; i < 2; i++ {
i := true
_ = !i }
_ = i // rule: UNKNOWN_NAME
}
---
package main
func main() {
var s []bool
for i, v := range s {
v := i + 1
_ = v }
_ = v // rule: UNKNOWN_NAME
}
---
package main
func main() {
var c chan int
select {
case v := <-c:
_ = v + 1
default:
_ = v } // rule: UNKNOWN_NAME
}
---
package main
func main() {
var c chan int
select {
case v := <-c:
v := 2 // rule: NOTHING_NEW
_ = v }
}
---
package main
func main() {
x := x // rule: UNKNOWN_NAME
}
---
package main
func main() {
if a := 1; a == 1 {
} else if b := a; b == 2 {
_ = a + b }
}"#,
    );
}

#[test]
fn values_are_assigned_to_places(rt: HostRuntime) {
    expect(
        &rt,
        r#"
---
package main
type T struct { a int }
var g bool
func main() {
x := 1
(x) = 2
t := &T{}
t.a = 3
s := []int{1}
s[0] = 4
g = true
_ = nil
}
---
package main
func main() {
x := 1
x = true // rule: NOT_ASSIGNABLE
}
---
package main
const k = 1
func main() {
k = 2 // rule: NO_PLACE
}
---
package main
const k = 1
func main() {
k = true // rule: NOT_ASSIGNABLE
}
---
package main
func main() {
main = 1 // rule: NO_PLACE
}
---
package main
func f() {}
func main() {
f() = 1 // rule: WRONG_USE
}
---
package main
func f() int { return 1 }
func main() {
f() = 1 // rule: NO_PLACE
}
---
package main
func main() {
_ += 1 // rule: UNKNOWN_NAME
}
---
package main
func main() {
_++ // rule: UNKNOWN_NAME
}
---
package main
func main() {
x := true
x++ // rule: WRONG_OPERAND
}
---
package main
func main() {
5++ // rule: NO_PLACE
}
---
package main
func main() {
x := 1
x += true // rule: WRONG_OPERAND
}
---
package main
func main() {
var c chan int
var d <-chan int = c
var e chan<- int = c
c = d // rule: NOT_ASSIGNABLE
}
---
package main
func main() {
var s []chan int
var t []<-chan int = s // rule: NOT_ASSIGNABLE
}"#,
    );
}

#[test]
fn two_names_receive_a_value_and_a_truth_value(rt: HostRuntime) {
    expect(
        &rt,
        r#"
---
package main
func main() {
var c chan int
v, ok := <-c
_ = ok && v == 1
w, ok := <-c
_ = w
_, z := <-c
_ = !z
v, ok = <-c
_, _ = <-c
}
---
package main
func main() {
var c chan int
_, _ := <-c // rule: NOTHING_NEW
}
---
package main
func main() {
var c chan int
v, v := <-c // rule: NOT_DECLARABLE
}
---
package main
func main() {
var c chan bool
v := true
v, v := <-c // rule: NOTHING_NEW
}
---
package main
func main() {
var c chan int
ok := 1
v, ok := <-c // rule: NOT_ASSIGNABLE
}
---
package main
func main() {
var c chan int
v, len := <-c // rule: NOT_DECLARABLE
}
---
package main
func main() {
var c chan<- int
v, ok := <-c // rule: WRONG_CHANNEL
}
---
package main
func main() {
var c chan int
v, ok = <-c // rule: UNKNOWN_NAME
}
---
package main
const k = true
func main() {
var c chan int
_, k = <-c // rule: NO_PLACE
}
---
package main
func main() {
var c chan int
ok := 1
_, ok = <-c // rule: NOT_ASSIGNABLE
}"#,
    );
}

#[test]
fn calls_and_receives_stand_as_statements(rt: HostRuntime) {
    expect(
        &rt,
        r#"
---
package main
func f() int { return 1 }
func main() {
var c chan int
f()
(f())
<-c
(<-c)
}
---
package main
func main() {
1 // rule: WRONG_USE
}
---
package main
func main() {
nil // rule: WRONG_USE
}
---
package main
func main() {
main // rule: UNKNOWN_NAME
}
---
package main
func main() {
var s []int
len(s) // rule: WRONG_USE
}
---
package main
func main() {
make(chan int) // rule: WRONG_USE
}
---
package main
type T struct {}
func main() {
new(T) // rule: WRONG_USE
}
---
package main
func main() {
var c chan int
-<-c // rule: WRONG_USE
}"#,
    );
}

#[test]
fn go_and_defer_begin_calls(rt: HostRuntime) {
    expect(
        &rt,
        r#"
---
package main
import "sync"
type T struct {}
func (t *T) m(n int) int { return n }
func main() {
t := &T{}
go t.m(1)
defer main()
c := make(chan int)
defer close(c)
w := &sync.WaitGroup{}
go w.Done()
}
---
package main
func main() {
go panic("a") // rule: NOT_BEGUN
}
---
package main
func main() {
go panic(1) // rule: NOT_PRINTABLE
}
---
package main
import "fmt"
func main() {
defer fmt.Println(1) // rule: NOT_BEGUN
}
---
package main
import "runtime"
func main() {
defer runtime.GC(1) // rule: WRONG_CALL
}
---
package main
func main() {
var s []int
go len(s) // rule: NOT_BEGUN
}
---
package main
func f(n int) {}
func main() {
go f(true) // rule: NOT_ASSIGNABLE
}"#,
    );
}

#[test]
fn returns_give_the_result(rt: HostRuntime) {
    expect(
        &rt,
        r#"
---
package main
func f() int {
return true // rule: NOT_ASSIGNABLE
}
func main() {
return
}
---
package main
func f() int {
return // rule: WRONG_RETURN
}
func main() {}
---
package main
func main() {
return 1 // rule: WRONG_RETURN
}
---
package main
func main() {
return main() // rule: WRONG_USE
}
---
package main
func f() []int {
return nil
}
func main() {}"#,
    );
}

#[test]
fn break_and_continue_stand_in_what_they_leave(rt: HostRuntime) {
    expect(
        &rt,
        r#"
---
package main
func main() {
for {
if true { break }
select {
default: continue }
}
select {
default: break }
}
---
package main
func main() {
break // rule: NOTHING_TO_LEAVE
}
---
package main
func main() {
select {
default:
continue } // rule: NOTHING_TO_LEAVE
}
---
package main
func main() {
for { }
continue // rule: NOTHING_TO_LEAVE
}"#,
    );
}

#[test]
fn conditions_come_before_bodies(rt: HostRuntime) {
    expect(
        &rt,
        r#"
---
package main
func main() {
if 1 { // rule: WRONG_OPERAND
x
}
}
---
package main
func main() {
for 1 { // rule: WRONG_OPERAND
x
}
}
---
package main
func main() {
for i := 0; i; i++ { // rule: WRONG_OPERAND
x
}
}
---
package main
func main() {
for i := 0; i < 1; x++ { // rule: UNKNOWN_NAME
y
}
}
---
package main
func main() {
if x := y; z { // rule: UNKNOWN_NAME
}
}"#,
    );
}

#[test]
fn ranges_go_over_slices_and_channels(rt: HostRuntime) {
    expect(
        &rt,
        r#"
---
package main
func main() {
var s []bool
var c <-chan int
for range s { }
for i := range s { _ = i + 1 }
for _, v := range s { _ = !v }
for _, _ := range s { }
for v := range c { _ = v + 1 }
for _ := range c { }
}
---
package main
func main() {
var c chan int
for i, v := range c { // rule: WRONG_RANGE
}
}
---
package main
func main() {
for i := range 3 { // rule: WRONG_RANGE
}
}
---
package main
func main() {
for i := range nil { // rule: WRONG_RANGE
}
}
---
package main
func main() {
var c chan<- int
for i, v := range c { // rule: WRONG_CHANNEL
}
}
---
package main
func main() {
var s []int
for i, i := range s { // rule: NOT_DECLARABLE
}
}
---
package main
func main() {
var c chan<- int
for len := range c { // rule: NOT_DECLARABLE
}
}
---
package main
func main() {
for len := range x { // rule: UNKNOWN_NAME
}
}"#,
    );
}

#[test]
fn sends_and_clauses_have_their_lines(rt: HostRuntime) {
    expect(
        &rt,
        r#"
---
package main
func main() {
c := make(<-chan int)
c <- 1 // rule: WRONG_CHANNEL
}
---
package main
func main() {
c := make(<-chan int)
c <- true // rule: NOT_ASSIGNABLE
}
---
package main
func main() {
nil <- 1 // rule: WRONG_CHANNEL
}
---
package main
func main() {
var c chan int
select { // rule: NOT_ASSIGNABLE

case c <- true:
}
}
---
package main
func main() {
var c chan<- int
select { // rule: WRONG_CHANNEL

case <-c:
}
}
---
package main
func main() {
var c chan int
select {

case len := <-c: // rule: NOT_DECLARABLE
}
}
---
package main
func main() {
var c chan int
select {

case _ := <-c: // rule: NOT_DECLARABLE
}
}
---
package main
func main() {
var c chan int
select {

case x = <-c: // rule: UNKNOWN_NAME
}
}
---
package main
func main() {
var c chan int
var b bool
select {

case b = <-c: // rule: NOT_ASSIGNABLE
}
}
---
package main
func main() {
var c chan int
select {

case _, _ := <-c: // rule: NOTHING_NEW
}
}
---
package main
func main() {
var c chan int
select {
case <-c:
x // rule: UNKNOWN_NAME
case <-y:
}
}"#,
    );
}
