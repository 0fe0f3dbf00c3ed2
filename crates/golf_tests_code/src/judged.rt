//! Tests of how code is judged: code of its file, and the same code with one other instruction.

use crate::made::{checked, code_of};
use crate::sources::{METHOD, WORKER_POOL};
use golf_base::Memory;
use golf_check::Checked;
use golf_data::{Code, CodeLine, Instr};
use golf_meaning::{check_all, check_body, function_count};
use std::alloc::Global;
use std::process::Abort;
use std::test::Fail;

const UP: u32 = 1;

const MAIN: u32 = 2;

// The place of the first such instruction, or the number of lines if there is none.
fn first_place(lines: &[CodeLine], instr: &Instr) -> usize {
    for at in 0..lines.len() {
        if lines[at].instr == *instr {
            return at;
        }
    }
    lines.len()
}

// Replaces the first `Add` of a function by `Sub`.
fn subtract(rt: &impl Abort, code: &mut Code, number: u32) {
    let number = number as usize;
    assert!(rt; number < code.functions.len());
    let function = code.functions.item_mut(number);
    let at = first_place(function.body.as_slice(), &Instr::Add);
    assert!(rt; at < function.body.len());
    let line = function.body.as_slice()[at].line;
    function.body.set(
        at,
        CodeLine {
            instr: Instr::Sub,
            line,
        },
    );
}

// Whether a function is judged to have the code of the file.
fn judged(rt: &impl Abort, alloc: Global, checked: &Checked, code: &Code, number: u32) -> bool {
    match check_body(alloc, checked, code, number) {
        Ok(same) => same,
        Err(Memory) => panic!(rt; "out of memory"),
    }
}

#[test]
fn one_instruction_is_another(rt: HostRuntime) -> Result<(), Fail> {
    let alloc = rt.alloc();
    let checked = checked(&rt, alloc, METHOD);
    let mut code = code_of(&rt, alloc, &checked);
    assert!(rt; judged(&rt, alloc, &checked, &code, UP));
    subtract(&rt, &mut code, UP);
    assert!(rt; !judged(&rt, alloc, &checked, &code, UP));
    assert!(rt; judged(&rt, alloc, &checked, &code, MAIN));
    Ok(())
}

#[test]
fn there_is_no_such_function(rt: HostRuntime) -> Result<(), Fail> {
    let alloc = rt.alloc();
    let checked = checked(&rt, alloc, METHOD);
    let code = code_of(&rt, alloc, &checked);
    assert!(rt; !judged(&rt, alloc, &checked, &code, MAIN + 1));
    Ok(())
}

// Whether all functions are judged to have the code of the file.
fn all_judged(rt: &impl Abort, alloc: Global, checked: &Checked, code: &Code) -> bool {
    match check_all(alloc, checked, code) {
        Ok(same) => same,
        Err(Memory) => panic!(rt; "out of memory"),
    }
}

#[test]
fn all_functions_of_a_worker_pool_agree(rt: HostRuntime) -> Result<(), Fail> {
    let alloc = rt.alloc();
    let checked = checked(&rt, alloc, WORKER_POOL);
    let code = code_of(&rt, alloc, &checked);
    assert!(rt; all_judged(&rt, alloc, &checked, &code));
    assert_eq!(rt; function_count(checked.file().declarations.as_slice()), 5);
    Ok(())
}

#[test]
fn one_of_all_functions_is_another(rt: HostRuntime) -> Result<(), Fail> {
    let alloc = rt.alloc();
    let checked = checked(&rt, alloc, METHOD);
    let mut code = code_of(&rt, alloc, &checked);
    subtract(&rt, &mut code, UP);
    assert!(rt; !all_judged(&rt, alloc, &checked, &code));
    Ok(())
}
