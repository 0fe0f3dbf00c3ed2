//! Tests of expressions. Expected verdicts are from the Go specification, "Expressions", and from the rules
//! of the language.

use crate::verdicts::expect;

#[test]
fn names_are_known_values(rt: HostRuntime) {
    expect(
        &rt,
        r#"
---
package main
func main() {
y := x // rule: UNKNOWN_NAME
}
---
package main
func main() {
x := main // rule: UNKNOWN_NAME
}
---
package main
func main() {
x := int // rule: UNKNOWN_NAME
}
---
package main
func main() {
x := _ // rule: UNKNOWN_NAME
}
---
package main
func main() {
fmt.Println(1) // rule: UNKNOWN_NAME
}
---
package main
import "fmt"
func main() {
fmt.Print(1) // rule: UNKNOWN_NAME
}
---
package main
import "fmt"
func main() {
(fmt).Println(1) // rule: UNKNOWN_NAME
}
---
package main
import "fmt"
func main() {
(fmt.Println)(1)
}
---
package main
import "fmt"
func main() {
x := fmt // rule: UNKNOWN_NAME
}
---
package main
type T struct { a int }
func main() {
t := &T{}
_ = t.b // rule: UNKNOWN_NAME
}
---
package main
type T struct { a int }
func (t *T) m() {}
func main() {
t := &T{}
_ = t.m // rule: UNKNOWN_NAME
}"#,
    );
}

#[test]
fn operands_have_their_types(rt: HostRuntime) {
    expect(
        &rt,
        r#"
---
package main
func main() {
_ = 1 + true // rule: WRONG_OPERAND
}
---
package main
func main() {
_ = "a" + "b" // rule: WRONG_OPERAND
}
---
package main
func main() {
_ = -true // rule: WRONG_OPERAND
}
---
package main
func main() {
_ = !1 // rule: WRONG_OPERAND
}
---
package main
func main() {
_ = 1 && true // rule: WRONG_OPERAND
}
---
package main
func main() {
_ = "a" == "b" || 1 < 2
}
---
package main
func main() {
_ = nil == nil // rule: WRONG_OPERAND
}
---
package main
func main() {
var s []int
_ = s == nil
_ = s == s // rule: WRONG_OPERAND
}
---
package main
func main() {
var c chan int
var d <-chan int
_ = c == d
_ = d != nil
_ = 1 == nil // rule: WRONG_OPERAND
}
---
package main
func main() {
_ = struct{}{} == struct{}{}
}
---
package main
func main() {
var s []int
_ = s[true] // rule: WRONG_OPERAND
}
---
package main
func main() {
_ = 1[0] // rule: WRONG_OPERAND
}
---
package main
func main() {
var s []int
_ = s[0].x // rule: WRONG_OPERAND
}
---
package main
func main() {
_ = nil.x // rule: WRONG_OPERAND
}
---
package main
func main() {
_ = len(1) // rule: WRONG_OPERAND
}
---
package main
func main() {
_ = len(nil) // rule: WRONG_OPERAND
}
---
package main
func main() {
_ = len(1, 2) // rule: WRONG_OPERAND
}
---
package main
func main() {
_ = len() // rule: WRONG_CALL
}
---
package main
func main() {
_ = make([]int, true) // rule: WRONG_OPERAND
}"#,
    );
}

#[test]
fn literals_name_fields_once(rt: HostRuntime) {
    expect(
        &rt,
        r#"
---
package main
type T struct { a int; b bool }
func main() {
_ = &T{b: true, a: 1}
}
---
package main
type T struct { a int; b bool }
func main() {
_ = &T{c: 1} // rule: WRONG_LITERAL
}
---
package main
type T struct { a int; b bool }
func main() {
_ = &T{a: 1, a: 2} // rule: WRONG_LITERAL
}
---
package main
type T struct { a int; b bool }
func main() {
_ = &T{a: true, c: 2} // rule: NOT_ASSIGNABLE
}
---
package main
type T struct { a int; b bool }
func main() {
_ = &T{a: x, c: 2} // rule: UNKNOWN_NAME
}
---
package main
func main() {
_ = &T{} // rule: WRONG_LITERAL
}
---
package main
type T struct {}
func main() {
T := 1
_ = &T{} // rule: WRONG_LITERAL
}
---
package main
type T struct {}
func main() {
T := 1
_ = new(T) // rule: UNKNOWN_TYPE
}
---
package main
type T struct {}
func main() {
T := 1
var x *T // rule: UNKNOWN_TYPE
}
---
package main
func main() {
_ = new(int) // rule: UNKNOWN_TYPE
}
---
package main
func main() {
_ = []int{1, true} // rule: NOT_ASSIGNABLE
}
---
package main
func main() {
_ = []float{1} // rule: UNKNOWN_TYPE
}
---
package main
import "sync"
func main() {
_ = &sync.Mutex{}
_ = new(sync.WaitGroup)
_ = &sync.RWMutex{}
_ = &sync.Cond{} // rule: UNKNOWN_TYPE
}
---
package main
func main() {
_ = new(sync.Mutex) // rule: UNKNOWN_NAME
}
---
package main
import "sync"
func main() {
_ = new(sync.Map) // rule: UNKNOWN_TYPE
}
---
package main
func main() {
_ = make(int) // rule: WRONG_CALL
}
---
package main
func main() {
_ = make([]int) // rule: WRONG_CALL
}
---
package main
func main() {
_ = make(chan int)
_ = make([]int, 3)
_ = make(int, 3) // rule: WRONG_CALL
}"#,
    );
}

#[test]
fn calls_have_their_arguments(rt: HostRuntime) {
    expect(
        &rt,
        r#"
---
package main
func f(a int, b bool) {}
func main() {
f(1, true)
(f)(1, false)
}
---
package main
func f(a int, b bool) {}
func main() {
f(1) // rule: WRONG_CALL
}
---
package main
func f(a int, b bool) {}
func main() {
f(1, 2, 3) // rule: NOT_ASSIGNABLE
}
---
package main
func f(a int) {}
func main() {
f(true, x) // rule: UNKNOWN_NAME
}
---
package main
func main() {
x := 1
x() // rule: WRONG_CALL
}
---
package main
func main() {
int(1) // rule: WRONG_CALL
}
---
package main
import "fmt"
func main() {
fmt() // rule: WRONG_CALL
}
---
package main
func main() {
_() // rule: UNKNOWN_NAME
}
---
package main
func f() {}
func main() {
x := f() // rule: WRONG_USE
}
---
package main
func f() {}
func main() {
x := f(1) // rule: WRONG_CALL
}
---
package main
import "fmt"
func main() {
x := fmt.Println(nil) // rule: WRONG_USE
}
---
package main
import "fmt"
func main() {
fmt.Println(1, true, "a")
fmt.Println(nil) // rule: NOT_PRINTABLE
}
---
package main
import "fmt"
func main() {
fmt.Println(struct{}{}) // rule: NOT_PRINTABLE
}
---
package main
func main() {
panic(1) // rule: NOT_PRINTABLE
}
---
package main
func main() {
panic() // rule: WRONG_CALL
}
---
package main
func main() {
var c <-chan int
close(c) // rule: WRONG_CHANNEL
}
---
package main
func main() {
close(nil) // rule: WRONG_CHANNEL
}
---
package main
func main() {
close(1, 2) // rule: WRONG_CALL
}
---
package main
func main() {
_ = <-nil // rule: WRONG_CHANNEL
}
---
package main
func main() {
var c chan<- int
<-c // rule: WRONG_CHANNEL
}
---
package main
import "sync"
func main() {
var w sync // rule: UNKNOWN_TYPE
}"#,
    );
}

#[test]
fn types_of_package_sync_have_their_methods(rt: HostRuntime) {
    expect(
        &rt,
        r#"
---
package main
import "sync"
func main() {
m := &sync.Mutex{}
m.Lock()
m.Unlock()
r := new(sync.RWMutex)
r.RLock()
r.RUnlock()
r.Lock()
r.Unlock()
w := &sync.WaitGroup{}
w.Add(1)
w.Done()
w.Wait()
c := sync.NewCond(m)
c.Wait()
c.Signal()
c.Broadcast()
c.L.Lock()
}
---
package main
import "sync"
func main() {
m := &sync.Mutex{}
m.RLock() // rule: UNKNOWN_NAME
}
---
package main
import "sync"
func main() {
m := &sync.Mutex{}
x := m.Lock // rule: UNKNOWN_NAME
}
---
package main
import "sync"
func main() {
m := &sync.Mutex{}
m.Lock(1) // rule: WRONG_CALL
}
---
package main
import "sync"
func main() {
w := &sync.WaitGroup{}
w.Add("a") // rule: NOT_ASSIGNABLE
}
---
package main
import "sync"
func main() {
r := &sync.RWMutex{}
_ = sync.NewCond(r) // rule: NOT_ASSIGNABLE
}
---
package main
import "sync"
func main() {
_ = sync.NewCond(nil)
sync.NewCond(nil) // rule: WRONG_USE
}
---
package main
import "sync"
func main() {
m := &sync.Mutex{}
c := sync.NewCond(m)
c.L = m // rule: NO_PLACE
}
---
package main
import "sync"
func main() {
m := &sync.Mutex{}
c := sync.NewCond(m)
c.L = 1 // rule: NOT_ASSIGNABLE
}
---
package main
import "sync"
func main() {
m := &sync.Mutex{}
_ = m.L // rule: UNKNOWN_NAME
}"#,
    );
}

#[test]
fn finalisers_take_a_pointer_to_a_struct(rt: HostRuntime) {
    expect(
        &rt,
        r#"
---
package main
import "runtime"
type T struct {}
func f(t *T) {}
func g(t *T) int { return 1 }
func main() {
t := &T{}
runtime.SetFinalizer(t, f)
runtime.SetFinalizer(t, g)
runtime.SetFinalizer(t, nil)
}
---
package main
import "runtime"
type T struct {}
func f(t *T) {}
func main() {
runtime.SetFinalizer(1, f) // rule: WRONG_FINALISER
}
---
package main
import "runtime"
type T struct {}
func f(t *T, n int) {}
func main() {
runtime.SetFinalizer(&T{}, f) // rule: WRONG_FINALISER
}
---
package main
import "runtime"
type T struct {}
type U struct {}
func f(t *U) {}
func main() {
runtime.SetFinalizer(&T{}, f) // rule: WRONG_FINALISER
}
---
package main
import "runtime"
type T struct {}
func (t *T) f() {}
func main() {
t := &T{}
runtime.SetFinalizer(t, t.f) // rule: WRONG_FINALISER
}
---
package main
import "runtime"
type T struct {}
func main() {
t := &T{}
runtime.SetFinalizer(t, int) // rule: WRONG_FINALISER
}
---
package main
import "runtime"
type T struct {}
func main() {
t := &T{}
runtime.SetFinalizer(t) // rule: WRONG_CALL
}
---
package main
import "runtime"
type T struct {}
func main() {
t := &T{}
runtime.SetFinalizer(t, x) // rule: UNKNOWN_NAME
}
---
package main
import "runtime"
type T struct {}
func f(t *T) {}
func main() {
x := runtime.SetFinalizer(1, f) // rule: WRONG_USE
}"#,
    );
}
