//! The check of constants and of the initialisers of globals.
//!
//! An initialiser is judged outside all functions. Meanwhile the scope has the number of its global, so that no global
//! below it can be read.

ghost use Rattle.std.specs.Prelude.{◌≡◌};
ghost use Rattle.golf_syntax_trees.specs.declared.statements.VarContent.TheVariants as content_as;
ghost use Rattle.golf_check_types.specs.Statements.{judges};
ghost use Rattle.golf_check_types.specs.Files.{const_faults, const_facts, initial_walk};
ghost use Rattle.golf_check_bodies.specs.CheckerClauses.{AddsFacts};
ghost use Rattle.golf_check.specs.Heads.{Stays};

use golf_check_bodies::{Checker, is_nil};
use golf_check_operands::{assignable, int_value, written_type};
use golf_check_types::rules::{NIL_WITHOUT_TYPE, NOT_ASSIGNABLE};
use golf_check_types::{Fact, TypeFault};
use golf_syntax_trees::{Const, Expr, TypeExpr, Var, VarContent};

/// Checks a constant on a line. The fact of its value is added if it is an integer.
pub fn constant(checker: &mut Checker, line: u32, value: &Const) -> Result<(), TypeFault>
    ensures { AddsFacts result (judges (const_faults line value.now) (const_facts value.now)) checker.old checker.new }
{
    match value {
        Const::Integer(digits) => {
            let number = int_value(line, digits.as_slice())?;
            checker.facts.push(Fact::Number(number))?;
            Ok(())
        }
        Const::Negative(digits) => {
            let number = int_value(line, digits.as_slice())?;
            checker.facts.push(Fact::Number(-number))?;
            Ok(())
        }
        _ => Ok(()),
    }
}

// Checks the initialiser of a global with a written type.
fn typed_initialiser(checker: &mut Checker, t: &TypeExpr, e: &Expr) -> Result<(), TypeFault>
    ensures { AddsFacts result (initial_walk checker.old.line (content_as.Typed t.now e.now) checker.old.scope) checker.old checker.new }
{
    let value = checker.given(e)?;
    let of_type = written_type(checker.alloc, checker.line, &checker.scope, t)?;
    checker.require(NOT_ASSIGNABLE, assignable(&value, &of_type))
}

// Checks the initialiser of a global without a written type.
fn untyped_initialiser(checker: &mut Checker, e: &Expr) -> Result<(), TypeFault>
    ensures { AddsFacts result (initial_walk checker.old.line (content_as.Untyped e.now) checker.old.scope) checker.old checker.new }
{
    let value = checker.given(e)?;
    checker.require(NIL_WITHOUT_TYPE, !is_nil(&value))
}

// Checks the initialiser of a global, if it has one.
fn initialiser(checker: &mut Checker, content: &VarContent) -> Result<(), TypeFault>
    ensures { AddsFacts result (initial_walk checker.old.line content.now checker.old.scope) checker.old checker.new }
{
    match content {
        VarContent::Zero(_) => Ok(()),
        VarContent::Typed(t, e) => typed_initialiser(checker, t.get(), e.get()),
        VarContent::Untyped(e) => untyped_initialiser(checker, e.get()),
    }
}

/// Checks the initialiser of the global of this number. Its written type was checked before.
pub fn global(checker: &mut Checker, number: u32, var: &Var) -> Result<(), TypeFault>
    requires { checker.old.scope.initialises ≡ None }
    ensures { Stays result (initial_walk var.now.line var.now.content (record checker.old.scope { initialises = Some number })) checker.old checker.new }
{
    checker.line = var.line;
    checker.scope.initialises = Some(number);
    initialiser(checker, var.content.get())?;
    checker.scope.initialises = None;
    Ok(())
}
