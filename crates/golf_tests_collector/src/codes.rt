//! Codes for the tests of worlds.

use golf_base::List;
use golf_data::{Code, Value};
use golf_tests_support::{TextFault, code, function, instrs, lines};
use std::alloc::Global;

// The code of `main` and of function 1, which has one argument. These are their instructions.
fn program(alloc: Global, main: &str, other: &str) -> Result<Code, TextFault> {
    let mut functions = List::new(alloc);
    functions.push(function(alloc, 0, lines(alloc, instrs(alloc, main)?)?)?)?;
    functions.push(function(alloc, 1, lines(alloc, instrs(alloc, other)?)?)?)?;
    Ok(code(alloc, functions, &[Value::Nil], &[Value::Nil])?)
}

/// Returns the classic leak: a goroutine receives from a channel that no other goroutine has. Meanwhile
/// `main` goes on, and then collects.
pub fn leak(alloc: Global) -> Result<Code, TextFault> {
    let main = "
    Int(0); NewChan(Int(0)); Go(1, 1); Int(1); Drop; Int(2); Drop; Int(3); Drop; Collect; Return";
    program(
        alloc,
        main,
        "Load(0); Drop; Load(0); Drop; Load(0); Receive; Return",
    )
}

/// Returns a code in which two goroutines print their arguments, and `main` prints and collects.
pub fn printers(alloc: Global) -> Result<Code, TextFault> {
    let main = "
    Int(1); Go(1, 1); Int(2); Go(1, 1); Int(3); Print(1); Collect; Int(4); Print(1); Return";
    program(alloc, main, "Load(0); Print(1); Return")
}

/// Returns a code that never ends.
pub fn endless(alloc: Global) -> Result<Code, TextFault> {
    program(alloc, "Jump(0)", "Return")
}
