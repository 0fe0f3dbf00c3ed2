//! Tests of the code of constructs. The expected code is written by hand, from the rules of the language
//! and its tables of instructions.

use crate::told::expect;
use std::test::Fail;

const LOOPS: [(&str, &str); 3] = [
    (
        r"package main
func main() {
for i := 0; i < 9; i++ {
if i == 1 {
continue
}
break
}
}",
        "2: 0 0 0; Call(1, 0) on 2; Return on 2\n2: 0 1 2; Int(0) on 3; Store(0) on 3; Load(0) on 3; Int(9) on 3; Less on 3; JumpIfNot(17) on 3; Load(0) on 4; Int(1) on 4; Eq on 4; JumpIfNot(11) on 4; Jump(12) on 5; Jump(17) on 7; Load(0) on 3; Int(1) on 3; Add on 3; Store(0) on 3; Jump(2) on 3; Return on 2\n",
    ),
    (
        r"package main
func main() {
for i, v := range []int{7} {
v += i
}
}",
        "2: 0 0 0; Call(1, 0) on 2; Return on 2\n2: 0 5 4; Int(1) on 3; NewSlice(Int(0)) on 3; Dup on 3; Int(0) on 3; Int(7) on 3; SetIndex on 3; Store(0) on 3; Load(0) on 3; Len on 3; Store(1) on 3; Int(0) on 3; Store(2) on 3; Load(2) on 3; Load(1) on 3; Less on 3; JumpIfNot(31) on 3; Load(2) on 3; Store(3) on 3; Load(0) on 3; Load(2) on 3; Index on 3; Store(4) on 3; Load(4) on 4; Load(3) on 4; Add on 4; Store(4) on 4; Load(2) on 3; Int(1) on 3; Add on 3; Store(2) on 3; Jump(12) on 3; Return on 2\n",
    ),
    (
        r"package main
func main() {
var c chan int
for v := range c {
c <- v
}
}",
        "2: 0 0 0; Call(1, 0) on 2; Return on 2\n2: 0 3 2; Nil on 3; Store(0) on 3; Load(0) on 4; Store(1) on 4; Load(1) on 4; ReceiveOk on 4; JumpIfNot(12) on 4; Store(2) on 4; Load(0) on 5; Load(2) on 5; Send on 5; Jump(4) on 4; Drop on 4; Return on 2\n",
    ),
];

#[test]
fn loops_have_their_code(rt: HostRuntime) -> Result<(), Fail> {
    for &(source, told) in LOOPS.iter() {
        expect(&rt, rt.alloc(), source, told)?;
    }
    Ok(())
}

// The function that `docs/MEANING.md` explains.
#[test]
fn a_function_that_gathers_what_it_receives_has_its_code(rt: HostRuntime) -> Result<(), Fail> {
    expect(
        &rt,
        rt.alloc(),
        r"package main
func gather(c chan int, n int) int {
sum := 0
for i := 0; i < n; i++ {
sum += <-c
}
return sum
}
func main() {
}",
        "9: 0 0 0; Call(2, 0) on 9; Return on 9\n2: 2 4 2; Int(0) on 3; Store(2) on 3; Int(0) on 4; Store(3) on 4; Load(3) on 4; Load(1) on 4; Less on 4; JumpIfNot(18) on 4; Load(2) on 5; Load(0) on 5; Receive on 5; Add on 5; Store(2) on 5; Load(3) on 4; Int(1) on 4; Add on 4; Store(3) on 4; Jump(4) on 4; Load(2) on 7; ReturnValue on 7; Int(0) on 2; ReturnValue on 2\n9: 0 0 0; Return on 9\n",
    )
}

const STATEMENTS: [(&str, &str); 4] = [
    (
        r"package main
func main() {
x := 1
if x < 2 {
x = 3
} else {
x = 4
}
}",
        "2: 0 0 0; Call(1, 0) on 2; Return on 2\n2: 0 1 2; Int(1) on 3; Store(0) on 3; Load(0) on 4; Int(2) on 4; Less on 4; JumpIfNot(9) on 4; Int(3) on 5; Store(0) on 5; Jump(11) on 4; Int(4) on 7; Store(0) on 7; Return on 2\n",
    ),
    (
        r"package main
func main() {
var c chan bool
var ok bool
v, ok := <-c
_, ok = <-c
}",
        "2: 0 0 0; Call(1, 0) on 2; Return on 2\n2: 0 3 2; Nil on 3; Store(0) on 3; Bool(false) on 4; Store(1) on 4; Load(0) on 5; ReceiveOk on 5; Store(1) on 5; Store(2) on 5; Load(0) on 6; ReceiveOk on 6; Store(1) on 6; Drop on 6; Return on 2\n",
    ),
    (
        r"package main
func main() {
c := make(chan int)
select {
case v, ok := <-c:
ok = v == 0
case c <- 1:
default:
c = nil
}
}",
        "2: 0 0 0; Call(1, 0) on 2; Return on 2\n2: 0 3 3; Int(0) on 3; NewChan(Int(0)) on 3; Store(0) on 3; Load(0) on 4; Load(0) on 4; Int(1) on 4; Select(List { items: [SelectCase { kind: TakeOk, target: 7 }, SelectCase { kind: Send, target: 14 }] }, Some(15)) on 4; Store(2) on 5; Store(1) on 5; Load(1) on 6; Int(0) on 6; Eq on 6; Store(2) on 6; Jump(18) on 5; Jump(18) on 7; Nil on 9; Store(0) on 9; Jump(18) on 8; Return on 2\n",
    ),
    (
        r#"package main
import "sync"
func main() {
wg := &sync.WaitGroup{}
wg.Add(1)
defer wg.Done()
}"#,
        "3: 0 0 0; Call(1, 0) on 3; Return on 3\n3: 0 1 2; NewGroup on 4; Store(0) on 4; Load(0) on 5; Int(1) on 5; GroupAdd on 5; Load(0) on 6; Defer(2, 1) on 6; Return on 3\n6: 1 1 2; Load(0) on 6; Int(-1) on 6; GroupAdd on 6; Return on 6\n",
    ),
];

#[test]
fn statements_have_their_code(rt: HostRuntime) -> Result<(), Fail> {
    for &(source, told) in STATEMENTS.iter() {
        expect(&rt, rt.alloc(), source, told)?;
    }
    Ok(())
}

const EXPRESSIONS: [(&str, &str); 3] = [
    (
        r"package main
func main() {
a := true
b := a && !a || a
}",
        "2: 0 0 0; Call(1, 0) on 2; Return on 2\n2: 0 2 1; Bool(true) on 3; Store(0) on 3; Load(0) on 4; JumpIfNot(7) on 4; Load(0) on 4; Not on 4; Jump(8) on 4; Bool(false) on 4; Not on 4; JumpIfNot(12) on 4; Load(0) on 4; Jump(13) on 4; Bool(true) on 4; Store(1) on 4; Return on 2\n",
    ),
    (
        r"package main
type T struct {
n int
}
func (t *T) up(a []int) {
t.n += a[0]
a[1] *= 2
}
func main() {
}",
        "9: 0 0 0; Call(2, 0) on 9; Return on 9\n5: 2 2 4; Load(0) on 6; Dup on 6; Field(0) on 6; Load(1) on 6; Int(0) on 6; Index on 6; Add on 6; SetField(0) on 6; Load(1) on 7; Int(1) on 7; Dup2 on 7; Index on 7; Int(2) on 7; Mul on 7; SetIndex on 7; Return on 5\n9: 0 0 0; Return on 9\n",
    ),
    (
        r"package main
type T struct {
a int
b bool
}
func (t *T) get(x int) int {
return t.a
}
func main() {
t := &T{b: true}
t.get(4)
}",
        "9: 0 0 0; Call(2, 0) on 9; Return on 9\n6: 2 2 1; Load(0) on 7; Field(0) on 7; ReturnValue on 7; Int(0) on 6; ReturnValue on 6\n9: 0 1 3; NewStruct(0) on 10; Dup on 10; Bool(true) on 10; SetField(1) on 10; Store(0) on 10; Load(0) on 11; Int(4) on 11; Call(1, 2) on 11; Drop on 11; Return on 9\n",
    ),
];

#[test]
fn expressions_have_their_code(rt: HostRuntime) -> Result<(), Fail> {
    for &(source, told) in EXPRESSIONS.iter() {
        expect(&rt, rt.alloc(), source, told)?;
    }
    Ok(())
}
