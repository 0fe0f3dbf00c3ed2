//! Statements that contain no other statement: variables, calls by `go` and `defer`, and returns.
//!
//! Types and expressions are judged first, then the other rules of the statement. Names are
//! declared last.

ghost use Rattle.std.specs.Prelude.{◌≡◌};
ghost use Rattle.golf_check_types.specs.Faults.{AnswersOrFault};
ghost use Rattle.golf_check_types.specs.Statements.{zero, typed, untyped, var_content, may_be_begun as may_be_begun_of};
ghost use Rattle.golf_check_types.specs.Statements.{can_begin as can_begin_of, done_faults, begin_call as begin_call_of};
ghost use Rattle.golf_check_types.specs.Statements.{result_faults, returned};
ghost use Rattle.golf_check_bodies.specs.CheckerClauses.{AddsFacts, Walks};

use crate::checker::{Checker, is_nil};
use golf_check_operands::{assignable, assignable_to, late, written};
use golf_check_types::rules::{
    NIL_WITHOUT_TYPE, NOT_ASSIGNABLE, NOT_BEGUN, NOT_DECLARABLE, WRONG_RETURN,
};
use golf_check_types::{BuiltIn, Given, Operand, TypeFault, may_be_declared};
use golf_syntax_trees::{Expr, OwnedExpr, TypeExpr, Var, VarContent};

// Returns whether `go` and `defer` can call this built-in operation.
fn can_begin(built_in: BuiltIn) -> bool
    ensures { result ≡ can_begin_of built_in }
{
    match built_in {
        BuiltIn::Length
        | BuiltIn::Panic
        | BuiltIn::Print
        | BuiltIn::Collect
        | BuiltIn::SetFinalizer
        | BuiltIn::NewCondition => false,
        BuiltIn::Close
        | BuiltIn::Lock
        | BuiltIn::Unlock
        | BuiltIn::Add
        | BuiltIn::Done
        | BuiltIn::WaitGroup
        | BuiltIn::WriteLock
        | BuiltIn::WriteUnlock
        | BuiltIn::ReadLock
        | BuiltIn::ReadUnlock
        | BuiltIn::WaitCondition
        | BuiltIn::Signal
        | BuiltIn::Broadcast => true,
    }
}

// Returns whether `go` and `defer` can call this.
fn may_be_begun(callee: &Operand) -> bool
    ensures { result ≡ may_be_begun_of callee.now }
{
    match callee {
        Operand::BuiltIn(built_in) => can_begin(*built_in),
        Operand::Function(_) => true,
        Operand::Method(_) => true,
        Operand::Unknown => true,
        _ => false,
    }
}

impl Checker {
    /// Walks over a variable: its type and its expression, and then its name.
    pub(crate) fn variable(&mut self, var: &Var) -> Result<(), TypeFault>
        ensures { Walks result (var_content var.now.line var.now.name var.now.content self.old.scope) self.old self.new }
    {
        self.line = var.line;
        let name = var.name.as_slice();
        match var.content.get() {
            VarContent::Zero(t) => self.zero_variable(name, t.get()),
            VarContent::Typed(t, e) => self.typed_variable(name, t.get(), e.get()),
            VarContent::Untyped(e) => self.untyped_variable(name, e.get()),
        }
    }

    // `var name T`
    fn zero_variable(&mut self, name: &[u8], t: &TypeExpr) -> Result<(), TypeFault>
        ensures { Walks result (zero self.old.line name.now t.now self.old.scope) self.old self.new }
    {
        let of_type = written(self.alloc, self.line, &self.scope, t)?;
        self.require(NOT_DECLARABLE, may_be_declared(&self.scope, name))?;
        self.declare(name, of_type)
    }

    // `var name T = e`
    fn typed_variable(&mut self, name: &[u8], t: &TypeExpr, e: &Expr) -> Result<(), TypeFault>
        ensures { Walks result (typed self.old.line name.now t.now e.now self.old.scope) self.old self.new }
    {
        let of_type = written(self.alloc, self.line, &self.scope, t)?;
        let value = self.given(e)?;
        self.require(NOT_DECLARABLE, may_be_declared(&self.scope, name))?;
        self.require(NOT_ASSIGNABLE, assignable(&value, &of_type))?;
        self.declare(name, of_type)
    }

    // `var name = e`
    fn untyped_variable(&mut self, name: &[u8], e: &Expr) -> Result<(), TypeFault>
        ensures { Walks result (untyped self.old.line name.now e.now self.old.scope) self.old self.new }
    {
        let value = self.given(e)?;
        self.require(NOT_DECLARABLE, may_be_declared(&self.scope, name))?;
        self.require(NIL_WITHOUT_TYPE, !is_nil(&value))?;
        self.declare(name, value.into_type())
    }

    /// Walks over the call of `go` or `defer`.
    pub(crate) fn begin_call(&mut self, f: &Expr, xs: &[Expr]) -> Result<(), TypeFault>
        ensures { AddsFacts result (begin_call_of self.old.line f.now xs.now self.old.scope) self.old self.new }
    {
        let callee = self.name_or_value(f)?;
        let operand = self.called(&callee, xs)?;
        self.is_done(&operand)?;
        self.require(NOT_BEGUN, may_be_begun(&callee))
    }

    // Reports the rule that the arguments of a call without a result break. It comes last, since
    // the call is no value here.
    fn is_done(&self, operand: &Operand) -> Result<(), TypeFault>
        ensures { AnswersOrFault result (done_faults self.now.line operand.now) (λ _. Unit {0}) }
    {
        match operand {
            Operand::Nothing(rule) => late(self.line, *rule),
            _ => Ok(()),
        }
    }

    /// Walks over a `return`, with or without a value.
    pub(crate) fn return_statement(&mut self, e: &Option<OwnedExpr>) -> Result<(), TypeFault>
        ensures { AddsFacts result (returned self.old.line e.now self.old.scope) self.old self.new }
    {
        match e {
            None => self.require(WRONG_RETURN, self.scope.result.is_none()),
            Some(e) => self.return_value(e.get()),
        }
    }

    // `return e`
    fn return_value(&mut self, e: &Expr) -> Result<(), TypeFault>
        ensures { AddsFacts result (returned self.old.line (Some e.now) self.old.scope) self.old self.new }
    {
        let value = self.given(e)?;
        self.fits_result(&value)
    }

    // Checks that a value can be returned.
    fn fits_result(&self, value: &Given) -> Result<(), TypeFault>
        ensures { AnswersOrFault result (result_faults self.now.line self.now.scope.result value.now) (λ _. Unit {0}) }
    {
        match &self.scope.result {
            None => self.require(WRONG_RETURN, false),
            Some(t) => self.require(NOT_ASSIGNABLE, assignable_to(value, t)),
        }
    }
}
