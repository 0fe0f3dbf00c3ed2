//! The code of a text, written as a text.

use crate::made::{checked, code_of};
use golf_data::{Code, Function};
use std::alloc::{AllocError, Global};
use std::process::Abort;
use std::test::Fail;

// The line of a function, its parameters, slots and depth, and each instruction with its line.
fn told_function(alloc: Global, function: &Function) -> Result<String, AllocError> {
    let mut out = format!(in alloc;
        "{}: {} {} {}",
        function.line, function.params, function.slots, function.depth
    )?;
    for line in function.body.as_slice() {
        out.push_str(&format!(in alloc; "; {:?} on {}", line.instr, line.line)?)?;
    }
    out.push_str("\n")?;
    Ok(out)
}

fn told(alloc: Global, code: &Code) -> Result<String, AllocError> {
    let mut out = String::new(alloc);
    for function in code.functions.as_slice() {
        out.push_str(&told_function(alloc, function)?)?;
    }
    Ok(out)
}

/// Fails the test unless the functions of a text are written so. Each has the line of its declaration, its
/// parameters, slots and depth, and its instructions with their lines.
pub(crate) fn expect(
    rt: &impl Abort,
    alloc: Global,
    source: &str,
    expected: &str,
) -> Result<(), Fail> {
    let checked = checked(rt, alloc, source);
    let code = code_of(rt, alloc, &checked);
    let found = told(alloc, &code)?;
    assert_eq!(rt; found.as_str(), expected);
    Ok(())
}
