//! For each rule a file that breaks it, and a similar file that breaks no rule. Expected verdicts are from
//! the Go specification and the rules of the language.

use crate::verdicts::{expect, expect_in_main};

#[test]
fn each_rule_of_declarations_is_broken_and_nearly_so(rt: HostRuntime) {
    expect(
        &rt,
        r#"
---
package main
import "time" // rule: WRONG_IMPORT
func main() {}
---
package main
import "sync"
func main() {}
---
package main
var a int
func a() {} // rule: NOT_DECLARABLE
func main() {}
---
package main
var a int
func b() {}
func main() {}
---
package main
var m *sync.Cond // rule: UNKNOWN_NAME
func main() {}
---
package main
import "sync"
var m *sync.Cond
func main() {}
---
package main
type T struct { t T } // rule: UNKNOWN_TYPE
func main() {}
---
package main
type T struct { t *T }
func main() {}
---
package main
type T struct { a, a int } // rule: WRONG_MEMBER
func main() {}
---
package main
type T struct { a, b int }
func main() {}
---
package main
func main() int { return 1 } // rule: NO_MAIN
---
package main
func main() { return }
---
package main
var a = b // rule: NOT_STEADY
var b = 1
func main() {}
---
package main
var b = 1
var a = b
func main() {}
---
package main
func f() int { return } // rule: WRONG_RETURN
func main() {}
---
package main
func f() { return }
func main() {}
---
package main
func f() int { for true { } } // rule: NOT_TERMINATING
func main() {}
---
package main
func f() int { for { } }
func main() {}
---
package main
const k = 9223372036854775808 // rule: TOO_LARGE
func main() {}
---
package main
const k = -9223372036854775807
func main() {}"#,
    );
}

#[test]
fn each_rule_of_bodies_is_broken_and_nearly_so(rt: HostRuntime) {
    expect_in_main(
        &rt,
        r#"
---
_ = 1 < true // rule: WRONG_OPERAND
---
_ = 1 < 2
---
var s []int = 1 // rule: NOT_ASSIGNABLE
---
var s []int = nil
---
x := 1
-x = 2 // rule: NO_PLACE
---
x := 1
(x) = 2
---
s := make([]int) // rule: WRONG_CALL
---
s := make([]int, 0)
---
c := make(chan int)
go panic("a") // rule: NOT_BEGUN
---
c := make(chan int)
go close(c)
---
return nil // rule: WRONG_RETURN
---
return
---
select {
default: continue } // rule: NOTHING_TO_LEAVE
---
select {
default: break }
---
var c <-chan int
c <- 1 // rule: WRONG_CHANNEL
---
var c chan<- int
c <- 1
---
var c chan int
for a, b := range c { } // rule: WRONG_RANGE
---
var c []int
for a, b := range c { }
---
var s []int
len(s) // rule: WRONG_USE
---
var s []int
_ = len(s)
---
_ = 9223372036854775808 // rule: TOO_LARGE
---
_ = 9223372036854775807
---
panic(1) // rule: NOT_PRINTABLE
---
panic("1")
---
var x = nil // rule: NIL_WITHOUT_TYPE
---
var x []int = nil
---
var c chan int
a, b := <-c
a, b := <-c // rule: NOTHING_NEW
---
var c chan int
a, b := <-c
a, d := <-c"#,
    );
    expect(
        &rt,
        r#"
---
package main
type T struct { a int }
func main() { _ = &T{b: 1} } // rule: WRONG_LITERAL
---
package main
type T struct { a int }
func main() { _ = &T{a: 1} }
---
package main
import "runtime"
type T struct {}
func f(n int) {}
func main() { runtime.SetFinalizer(&T{}, f) } // rule: WRONG_FINALISER
---
package main
import "runtime"
type T struct {}
func f(n *T) {}
func main() { runtime.SetFinalizer(&T{}, f) }"#,
    );
}
