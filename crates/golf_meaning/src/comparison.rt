//! Compares the functions of a code with those that the file's own code has.
//!
//! A function that is the same agrees with its source. Nothing here runs code.

ghost use Rattle.std.specs.Prelude.{◌≡◌, ◌↔◌, drop, slice_get, IfOk, IsTrue};
ghost use Rattle.golf_meaning_statements.specs.Files.{function_count as function_count_of};
ghost use Rattle.golf_meaning.specs.Judged.{AreSame, IsCodeOf, Agrees, AllAreCodeOf, AllAgree};

use golf_base::Memory;
use golf_check::Checked;
use golf_code::{begin_with_code, generate, has_same_body};
use golf_data::{Code, Function};
use golf_syntax_trees::Decl;
use std::alloc::Global;

// Whether both codes have a function of this number, with the same parameters, slots and body.
fn are_same(code: &Code, other: &Code, number: usize) -> bool
    ensures { IsTrue result ↔ AreSame (slice_get code.now.functions number) (slice_get other.now.functions number) }
{
    match (
        code.functions.as_slice().get(number),
        other.functions.as_slice().get(number),
    ) {
        (Some(function), Some(other)) => has_same_body(function, other),
        _ => false,
    }
}

/// Returns whether the code has this function as the code of the file has it: the same parameters, slots
/// and body. The body includes the place in the source of each instruction.
///
/// Suppose that it has. Then source and code agree, for as many arguments as the function has parameters,
/// and for all answers. The source of function 0 is the initialisers of the globals and the call of `main`.
/// That of a function made for `go` or `defer` is the operation that the statement names.
///
/// - Each bound of one has a bound of the other with which the operations and the end are the same.
/// - If the bound is too short for the end, the operations of one are a prefix of the other's.
///
/// This holds unless the source lacks a rule. It never lacks one in a file that breaks no rule
/// (`golf_meaning_runs`).
pub fn check_body(
    alloc: Global,
    checked: &Checked,
    code: &Code,
    function: u32,
) -> Result<bool, Memory>
    ensures exact { IfOk result (λ same. IsTrue same ↔ IsCodeOf checked.now code.now function) }
    ensures agrees { IfOk result (λ same. IsTrue same → Agrees checked.now code.now function) }
{
    let made = generate(alloc, checked)?;
    Ok(are_same(code, &made, function as usize))
}

/// Returns how many functions and methods these declarations have.
pub fn function_count(declarations: &[Decl]) -> usize
    ensures { result ≡ function_count_of declarations.now }
{
    let mut count = 0;
    for declaration in declarations {
        match declaration {
            Decl::Func(_) => count += 1,
            Decl::Const(_, _, _) | Decl::Var(_) | Decl::Struct(_, _, _) => {}
        }
    }
    count
}

// The functions except for the first one, which runs the initialisers.
fn past_entry(functions: &[Function]) -> &[Function]
    ensures { result.now ≡ drop 1 functions.now }
{
    match functions {
        [] => functions,
        [_, others @ ..] => others,
    }
}

/// Returns whether the code has each function and method of the file as the code of the file has it. Then
/// each one agrees with its source, as with `check_body`. It makes the functions of the file one at a time,
/// in one walk, and drops each after the comparison.
pub fn check_all(alloc: Global, checked: &Checked, code: &Code) -> Result<bool, Memory>
    ensures exact { IfOk result (λ same. IsTrue same ↔ AllAreCodeOf checked.now code.now) }
    ensures agrees { IfOk result (λ same. IsTrue same → AllAgree checked.now code.now) }
{
    let decls = checked.file().declarations.as_slice();
    let functions = past_entry(code.functions.as_slice());
    begin_with_code(
        alloc,
        &checked.scope().file,
        decls,
        checked.facts(),
        functions,
    )
}
