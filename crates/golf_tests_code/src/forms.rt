//! Tests of the code of more constructs. The expected code is written by hand, from the rules of the
//! language and its tables of instructions.

use crate::told::expect;
use std::test::Fail;

const LOOPS: [(&str, &str); 4] = [
    (
        r"package main
func main() {
for {
continue
}
}",
        "2: 0 0 0; Call(1, 0) on 2; Return on 2\n2: 0 0 0; Jump(0) on 4; Jump(0) on 3; Return on 2\n",
    ),
    (
        r"package main
func main() {
i := 0
for i < 3 {
i++
if i == 1 {
continue
}
break
}
}",
        "2: 0 0 0; Call(1, 0) on 2; Return on 2\n2: 0 1 2; Int(0) on 3; Store(0) on 3; Load(0) on 4; Int(3) on 4; Less on 4; JumpIfNot(17) on 4; Load(0) on 5; Int(1) on 5; Add on 5; Store(0) on 5; Load(0) on 6; Int(1) on 6; Eq on 6; JumpIfNot(15) on 6; Jump(2) on 7; Jump(17) on 9; Jump(2) on 4; Return on 2\n",
    ),
    (
        r"package main
func main() {
for i := 0; ; i++ {
if i == 2 {
break
}
continue
}
}",
        "2: 0 0 0; Call(1, 0) on 2; Return on 2\n2: 0 1 2; Int(0) on 3; Store(0) on 3; Load(0) on 4; Int(2) on 4; Eq on 4; JumpIfNot(7) on 4; Jump(13) on 5; Jump(8) on 7; Load(0) on 3; Int(1) on 3; Add on 3; Store(0) on 3; Jump(2) on 3; Return on 2\n",
    ),
    (
        r"package main
func main() {
b := true
for ; b; {
continue
}
}",
        "2: 0 0 0; Call(1, 0) on 2; Return on 2\n2: 0 1 1; Bool(true) on 3; Store(0) on 3; Load(0) on 4; JumpIfNot(6) on 4; Jump(5) on 5; Jump(2) on 4; Return on 2\n",
    ),
];

#[test]
fn every_loop_has_its_code(rt: HostRuntime) -> Result<(), Fail> {
    for &(source, told) in LOOPS.iter() {
        expect(&rt, rt.alloc(), source, told)?;
    }
    Ok(())
}

const RANGES: [(&str, &str); 2] = [
    (
        r"package main
func main() {
s := []int{5, 6}
for range s {
continue
}
for _, v := range s {
if v == 5 {
break
}
}
}",
        "2: 0 0 0; Call(1, 0) on 2; Return on 2\n2: 0 8 4; Int(2) on 3; NewSlice(Int(0)) on 3; Dup on 3; Int(0) on 3; Int(5) on 3; SetIndex on 3; Dup on 3; Int(1) on 3; Int(6) on 3; SetIndex on 3; Store(0) on 3; Load(0) on 4; Store(1) on 4; Load(1) on 4; Len on 4; Store(2) on 4; Int(0) on 4; Store(3) on 4; Load(3) on 4; Load(2) on 4; Less on 4; JumpIfNot(28) on 4; Jump(23) on 5; Load(3) on 4; Int(1) on 4; Add on 4; Store(3) on 4; Jump(18) on 4; Load(0) on 7; Store(4) on 7; Load(4) on 7; Len on 7; Store(5) on 7; Int(0) on 7; Store(6) on 7; Load(6) on 7; Load(5) on 7; Less on 7; JumpIfNot(53) on 7; Load(4) on 7; Load(6) on 7; Index on 7; Store(7) on 7; Load(7) on 8; Int(5) on 8; Eq on 8; JumpIfNot(48) on 8; Jump(53) on 9; Load(6) on 7; Int(1) on 7; Add on 7; Store(6) on 7; Jump(35) on 7; Return on 2\n",
    ),
    (
        r"package main
func main() {
var c chan int
for range c {
continue
}
for range c {
break
}
}",
        "2: 0 0 0; Call(1, 0) on 2; Return on 2\n2: 0 3 2; Nil on 3; Store(0) on 3; Load(0) on 4; Store(1) on 4; Load(1) on 4; ReceiveOk on 4; JumpIfNot(10) on 4; Drop on 4; Jump(4) on 5; Jump(4) on 4; Drop on 4; Load(0) on 7; Store(2) on 7; Load(2) on 7; ReceiveOk on 7; JumpIfNot(19) on 7; Drop on 7; Jump(20) on 8; Jump(13) on 7; Drop on 7; Return on 2\n",
    ),
];

#[test]
fn every_range_has_its_code(rt: HostRuntime) -> Result<(), Fail> {
    for &(source, told) in RANGES.iter() {
        expect(&rt, rt.alloc(), source, told)?;
    }
    Ok(())
}

const SELECTS: [(&str, &str); 2] = [
    (
        r"package main
func main() {
c := make(chan int, 2)
for {
select {
case c <- 1:
break
case <-c:
continue
}
}
}",
        "2: 0 0 0; Call(1, 0) on 2; Return on 2\n2: 0 1 3; Int(2) on 3; NewChan(Int(0)) on 3; Store(0) on 3; Load(0) on 5; Int(1) on 5; Load(0) on 5; Select(List { items: [SelectCase { kind: Send, target: 7 }, SelectCase { kind: Take, target: 9 }] }, None) on 5; Jump(12) on 7; Jump(12) on 6; Drop on 8; Jump(3) on 9; Jump(12) on 8; Jump(3) on 4; Return on 2\n",
    ),
    (
        r"package main
func main() {
c := make(chan int)
x := 0
select {
case v := <-c:
x = v
case x = <-c:
case _, ok := <-c:
ok = false
}
select {
}
}",
        "2: 0 0 0; Call(1, 0) on 2; Return on 2\n2: 0 4 3; Int(0) on 3; NewChan(Int(0)) on 3; Store(0) on 3; Int(0) on 4; Store(1) on 4; Load(0) on 5; Load(0) on 5; Load(0) on 5; Select(List { items: [SelectCase { kind: Take, target: 9 }, SelectCase { kind: Take, target: 13 }, SelectCase { kind: TakeOk, target: 15 }] }, None) on 5; Store(2) on 6; Load(2) on 7; Store(1) on 7; Jump(20) on 6; Store(1) on 8; Jump(20) on 8; Store(3) on 9; Drop on 9; Bool(false) on 10; Store(3) on 10; Jump(20) on 9; Select(List { items: [] }, None) on 12; Return on 2\n",
    ),
];

#[test]
fn every_select_has_its_code(rt: HostRuntime) -> Result<(), Fail> {
    for &(source, told) in SELECTS.iter() {
        expect(&rt, rt.alloc(), source, told)?;
    }
    Ok(())
}

const PLACES: [(&str, &str); 2] = [
    (
        r"package main
type T struct {
n int
}
var g = 3
func main() {
x := 1
x += 2
x--
g -= x
g++
t := &T{}
t.n /= 2
t.n++
a := make([]int, 2)
a[1] %= x
a[0]--
}",
        "6: 0 0 1; Int(3) on 5; StoreGlobal(0) on 5; Call(1, 0) on 6; Return on 6\n6: 0 3 4; Int(1) on 7; Store(0) on 7; Load(0) on 8; Int(2) on 8; Add on 8; Store(0) on 8; Load(0) on 9; Int(1) on 9; Sub on 9; Store(0) on 9; LoadGlobal(0) on 10; Load(0) on 10; Sub on 10; StoreGlobal(0) on 10; LoadGlobal(0) on 11; Int(1) on 11; Add on 11; StoreGlobal(0) on 11; NewStruct(0) on 12; Store(1) on 12; Load(1) on 13; Dup on 13; Field(0) on 13; Int(2) on 13; Div on 13; SetField(0) on 13; Load(1) on 14; Dup on 14; Field(0) on 14; Int(1) on 14; Add on 14; SetField(0) on 14; Int(2) on 15; NewSlice(Int(0)) on 15; Store(2) on 15; Load(2) on 16; Int(1) on 16; Dup2 on 16; Index on 16; Load(0) on 16; Rem on 16; SetIndex on 16; Load(2) on 17; Int(0) on 17; Dup2 on 17; Index on 17; Int(1) on 17; Sub on 17; SetIndex on 17; Return on 6\n",
    ),
    (
        r#"package main
type T struct {
a int
s []string
}
func main() {
t := &T{s: []string{"x", ""}, a: -4}
u := new(T)
b := []bool{}
_ = t
}"#,
        "6: 0 0 0; Call(1, 0) on 6; Return on 6\n6: 0 3 6; NewStruct(0) on 7; Dup on 7; Int(2) on 7; NewSlice(Text(0)) on 7; Dup on 7; Int(0) on 7; Text(1) on 7; SetIndex on 7; Dup on 7; Int(1) on 7; Text(0) on 7; SetIndex on 7; SetField(1) on 7; Dup on 7; Int(4) on 7; Neg on 7; SetField(0) on 7; Store(0) on 7; NewStruct(0) on 8; Store(1) on 8; Int(0) on 9; NewSlice(Bool(false)) on 9; Store(2) on 9; Load(0) on 10; Drop on 10; Return on 6\n",
    ),
];

#[test]
fn every_place_has_its_code(rt: HostRuntime) -> Result<(), Fail> {
    for &(source, told) in PLACES.iter() {
        expect(&rt, rt.alloc(), source, told)?;
    }
    Ok(())
}

const CALLS: [(&str, &str); 4] = [
    (
        r"package main
type T struct {
n int
}
func (t *T) m(a int, b bool) {
}
func f(a int) int {
return a
}
func main() {
t := &T{}
go f(1)
defer f(2)
go t.m(3, true)
defer t.m(4, false)
t.m(5, true)
}",
        "10: 0 0 0; Call(3, 0) on 10; Return on 10\n5: 3 3 0; Return on 5\n7: 1 1 1; Load(0) on 8; ReturnValue on 8; Int(0) on 7; ReturnValue on 7\n10: 0 1 3; NewStruct(0) on 11; Store(0) on 11; Int(1) on 12; Go(2, 1) on 12; Int(2) on 13; Defer(2, 1) on 13; Load(0) on 14; Int(3) on 14; Bool(true) on 14; Go(1, 3) on 14; Load(0) on 15; Int(4) on 15; Bool(false) on 15; Defer(1, 3) on 15; Load(0) on 16; Int(5) on 16; Bool(true) on 16; Call(1, 3) on 16; Return on 10\n",
    ),
    (
        r#"package main
import "sync"
func f(m *sync.Mutex, w *sync.WaitGroup) {
m.Lock()
defer m.Unlock()
go w.Add(2)
}
func main() {
w := new(sync.WaitGroup)
go w.Wait()
}"#,
        "8: 0 0 0; Call(2, 0) on 8; Return on 8\n3: 2 2 2; Load(0) on 4; Lock on 4; Load(0) on 5; Defer(3, 1) on 5; Load(1) on 6; Int(2) on 6; Go(4, 2) on 6; Return on 3\n8: 0 1 1; NewGroup on 9; Store(0) on 9; Load(0) on 10; Go(5, 1) on 10; Return on 8\n5: 1 1 1; Load(0) on 5; Unlock on 5; Return on 5\n6: 2 2 2; Load(0) on 6; Load(1) on 6; GroupAdd on 6; Return on 6\n10: 1 1 1; Load(0) on 10; GroupWait on 10; Return on 10\n",
    ),
    (
        r#"package main
func f(b bool) bool {
if b {
return false
} else {
return true
}
}
func g(n int) chan int {
for {
if n == 0 {
return nil
}
}
}
func h() struct{} {
return struct{}{}
}
func k() string {
panic("p")
}
func main() {
f(true)
h()
}"#,
        "22: 0 0 0; Call(5, 0) on 22; Return on 22\n2: 1 1 1; Load(0) on 3; JumpIfNot(5) on 3; Bool(false) on 4; ReturnValue on 4; Jump(7) on 3; Bool(true) on 6; ReturnValue on 6; Bool(false) on 2; ReturnValue on 2\n9: 1 1 2; Load(0) on 11; Int(0) on 11; Eq on 11; JumpIfNot(6) on 11; Nil on 12; ReturnValue on 12; Jump(0) on 10; Nil on 9; ReturnValue on 9\n16: 0 0 1; Unit on 17; ReturnValue on 17; Unit on 16; ReturnValue on 16\n19: 0 0 1; Text(1) on 20; Panic on 20; Text(0) on 19; ReturnValue on 19\n22: 0 0 1; Bool(true) on 23; Call(1, 1) on 23; Drop on 23; Call(3, 0) on 24; Drop on 24; Return on 22\n",
    ),
    (
        r#"package main
const c = "b"
var x = "a"
var y = c
var z []string
var n = len(z) + 1
func main() {
s := "a"
x = c
}"#,
        "7: 0 0 2; Text(2) on 3; StoreGlobal(0) on 3; Text(1) on 4; StoreGlobal(1) on 4; LoadGlobal(2) on 6; Len on 6; Int(1) on 6; Add on 6; StoreGlobal(3) on 6; Call(1, 0) on 7; Return on 7\n7: 0 1 1; Text(2) on 8; Store(0) on 8; Text(1) on 9; StoreGlobal(0) on 9; Return on 7\n",
    ),
];

#[test]
fn every_call_has_its_code(rt: HostRuntime) -> Result<(), Fail> {
    for &(source, told) in CALLS.iter() {
        expect(&rt, rt.alloc(), source, told)?;
    }
    Ok(())
}
