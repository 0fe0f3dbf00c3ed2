//! Tests of the code of whole files. The expected code is written by hand, from the rules of the language
//! and its tables of instructions.

use crate::told::expect;
use std::test::Fail;

#[test]
fn function_0_calls_main(rt: HostRuntime) -> Result<(), Fail> {
    expect(
        &rt,
        rt.alloc(),
        r#"package main
const s = "a"
type T struct {
}
func helper() {
}
func main() {
}"#,
        "7: 0 0 0; Call(2, 0) on 7; Return on 7\n5: 0 0 0; Return on 5\n7: 0 0 0; Return on 7\n",
    )
}

#[test]
fn initialisers_come_first(rt: HostRuntime) -> Result<(), Fail> {
    expect(
        &rt,
        rt.alloc(),
        r"package main
var a int
var b = 2
func main() {
}",
        "4: 0 0 1; Int(2) on 3; StoreGlobal(1) on 3; Call(1, 0) on 4; Return on 4\n4: 0 0 0; Return on 4\n",
    )
}

#[test]
fn a_function_is_made_for_go(rt: HostRuntime) -> Result<(), Fail> {
    expect(
        &rt,
        rt.alloc(),
        r"package main
func main() {
c := make(chan int)
go close(c)
}",
        "2: 0 0 0; Call(1, 0) on 2; Return on 2\n2: 0 1 1; Int(0) on 3; NewChan(Int(0)) on 3; Store(0) on 3; Load(0) on 4; Go(2, 1) on 4; Return on 2\n4: 1 1 1; Load(0) on 4; Close on 4; Return on 4\n",
    )
}

#[test]
fn each_branch_has_a_made_function_of_its_own(rt: HostRuntime) -> Result<(), Fail> {
    expect(
        &rt,
        rt.alloc(),
        r"package main
func main() {
var c chan int
b := true
if b {
go close(c)
} else {
go close(c)
}
}",
        "2: 0 0 0; Call(1, 0) on 2; Return on 2\n2: 0 2 1; Nil on 3; Store(0) on 3; Bool(true) on 4; Store(1) on 4; Load(1) on 5; JumpIfNot(9) on 5; Load(0) on 6; Go(2, 1) on 6; Jump(11) on 5; Load(0) on 8; Go(3, 1) on 8; Return on 2\n6: 1 1 1; Load(0) on 6; Close on 6; Return on 6\n8: 1 1 1; Load(0) on 8; Close on 8; Return on 8\n",
    )
}

#[test]
fn a_text_is_returned(rt: HostRuntime) -> Result<(), Fail> {
    expect(
        &rt,
        rt.alloc(),
        r#"package main
func f(s string) string {
return "x"
}
func main() {
f("y")
}"#,
        "5: 0 0 0; Call(2, 0) on 5; Return on 5\n2: 1 1 1; Text(1) on 3; ReturnValue on 3; Text(0) on 2; ReturnValue on 2\n5: 0 0 1; Text(2) on 6; Call(1, 1) on 6; Drop on 6; Return on 5\n",
    )
}

#[test]
fn jumps_have_places(rt: HostRuntime) -> Result<(), Fail> {
    expect(
        &rt,
        rt.alloc(),
        r"package main
func main() {
for {
break
}
}",
        "2: 0 0 0; Call(1, 0) on 2; Return on 2\n2: 0 0 0; Jump(2) on 4; Jump(0) on 3; Return on 2\n",
    )
}
