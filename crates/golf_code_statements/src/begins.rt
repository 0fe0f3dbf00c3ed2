//! The code of go and defer statements (Go specification, "Go statements", "Defer statements").
//!
//! `go` and `defer` begin a function. For a built-in call the next function is made, which does the operation on its
//! parameters.

ghost use Rattle.std.specs.Prelude.{◌≡◌, ◌+◌, ◌∷◌, ◌++◌, [], length, map, IfOk, OnOk};
ghost use Rattle.golf_check_types.specs.Types.{given, type_given};
ghost use Rattle.golf_code_layout.specs.Piece.{all, op as op_of};
ghost use Rattle.golf_code_of.specs.Calls.{pushes, receiver_base as receiver_base_of, with_receiver};
ghost use Rattle.golf_code_facts.specs.Facts.{skip_all};
ghost use Rattle.golf_code_facts.specs.Expressions.{taking, arguments as arguments_of};
ghost use Rattle.golf_code_facts.specs.Statements.{begin_lay};
ghost use Rattle.golf_code_expressions.specs.WriterClauses.{Writes};
ghost use Rattle.golf_code_statements.specs.Begins.{begin_of};
ghost use Rattle.golf_code_statements.specs.Begun.{begun};
ghost use Rattle.golf_code_statements.specs.Lays.{around, Lays};

use crate::targets::Targets;
use golf_base::{List, Memory};
use golf_check_types::{Base, BuiltIn, GoType, Operand, plain, type_of};
use golf_code_expressions::{Writer, count, expression};
use golf_code_layout::op;
use golf_code_of::Making;
use golf_data::Instr;
use golf_syntax_trees::Expr;
use std::alloc::Global;

/// How a statement begins a function.
#[derive(Clone, Copy, Debug, PartialEq, Eq)]
pub enum Begins {
    /// On a new goroutine.
    Go,
    /// When the function around it returns or panics.
    Defer,
}

fn begin(begins: Begins, function: u32, count: u32) -> Instr
    ensures { result ≡ begin_of begins function count }
{
    match begins {
        Begins::Go => Instr::Go(function, count),
        Begins::Defer => Instr::Defer(function, count),
    }
}

fn receiver_base(built_in: BuiltIn) -> Option<Base>
    ensures { result ≡ receiver_base_of built_in }
{
    match built_in {
        BuiltIn::Lock | BuiltIn::Unlock => Some(Base::Mutex),
        BuiltIn::Add | BuiltIn::Done | BuiltIn::WaitGroup => Some(Base::Group),
        BuiltIn::WriteLock | BuiltIn::WriteUnlock | BuiltIn::ReadLock | BuiltIn::ReadUnlock => {
            Some(Base::ReadWriteMutex)
        }
        BuiltIn::WaitCondition | BuiltIn::Signal | BuiltIn::Broadcast => Some(Base::Condition),
        BuiltIn::Length
        | BuiltIn::Close
        | BuiltIn::Panic
        | BuiltIn::Print
        | BuiltIn::Collect
        | BuiltIn::SetFinalizer
        | BuiltIn::NewCondition => None,
    }
}

// Returns a list with the type of the receiver, if there is one.
fn receiver_type(alloc: Global, base: Option<Base>) -> Result<List<Option<GoType>>, Memory>
    ensures { IfOk result (λ ts. ts ≡ with_receiver base []) }
{
    let mut types = List::new(alloc);
    match base {
        None => {}
        Some(base) => types.push(Some(plain(alloc, base)))?,
    }
    Ok(types)
}

// Returns the type of the value that an operand gives, or `None` if it has none.
#[tactic(auto, using(crate::proofs::Types::types_agree))]
fn type_of_value(alloc: Global, operand: &Operand) -> Result<Option<GoType>, Memory>
    ensures { IfOk result (λ t. t ≡ type_given (given operand.now)) }
{
    type_of(alloc, operand)
}

// Adds the code that pushes the arguments.
fn pushed(writer: &mut Writer, line: u32, xs: &[Expr]) -> Result<(), Memory>
    ensures { Writes result (pushes (arguments_of line (map (taking writer.old.draft.tables.now) xs.now) writer.old.facts)) (skip_all (length xs.now) writer.old.facts) writer.old writer.new }
{
    for x in xs {
        expression(writer, line, x)?;
    }
    Ok(())
}

// Does the same, and adds the types of the arguments to a list.
fn pushed_with_types(
    writer: &mut Writer,
    line: u32,
    xs: &[Expr],
    types: &mut List<Option<GoType>>,
) -> Result<(), Memory>
    ensures types { OnOk result (types.new ≡ types.old ++ map (λ y. type_given (given y.meaning)) (arguments_of line (map (taking writer.old.draft.tables.now) xs.now) writer.old.facts)) }
    ensures writer { Writes result (pushes (arguments_of line (map (taking writer.old.draft.tables.now) xs.now) writer.old.facts)) (skip_all (length xs.now) writer.old.facts) writer.old writer.new }
{
    for x in xs {
        let operand = writer.facts.operand();
        types.push(type_of_value(writer.draft.alloc, operand)?)?;
        expression(writer, line, x)?;
    }
    Ok(())
}

// Begins a function or method of the file, with its arguments and `more` operands before them.
fn begin_function(
    writer: &mut Writer,
    line: u32,
    begins: Begins,
    function: u32,
    xs: &[Expr],
    more: usize,
) -> Result<(), Memory>
    ensures { Writes result (all (pushes (arguments_of line (map (taking writer.old.draft.tables.now) xs.now) writer.old.facts) ∷ op_of line (begin_of begins (function + 1) (length xs.now + more)) ∷ [])) (skip_all (length xs.now) writer.old.facts) writer.old writer.new }
{
    pushed(writer, line, xs)?;
    let number = function.checked_add(1).ok_or(Memory)?;
    let operands = count(xs.len().checked_add(more).ok_or(Memory)?)?;
    op(
        &mut writer.draft.emitted,
        line,
        begin(begins, number, operands),
    )
}

// Records the next function to be made.
fn make(writer: &mut Writer, making: Making) -> Result<(), Memory>
    ensures { OnOk result (writer.new ≡ record { facts = writer.old.facts; draft = record writer.old.draft { made = writer.old.draft.made ++ making ∷ []; functions = writer.old.draft.functions + 1 } }) }
{
    writer.draft.made.push(making)?;
    writer.draft.functions = writer.draft.functions.checked_add(1).ok_or(Memory)?;
    Ok(())
}

// Begins a built-in operation, for which the next function is made.
fn begin_operation(
    writer: &mut Writer,
    line: u32,
    begins: Begins,
    operation: BuiltIn,
    xs: &[Expr],
) -> Result<(), Memory>
    ensures { Lays result (begun writer.old.draft.tables.now line (begin_of begins) writer.old.draft.functions (Operand.BuiltIn operation) xs.now writer.old.facts) writer.old writer.new }
{
    let mut parameters = receiver_type(writer.draft.alloc, receiver_base(operation))?;
    pushed_with_types(writer, line, xs, &mut parameters)?;
    let operands = count(parameters.len())?;
    let next = writer.draft.functions;
    op(
        &mut writer.draft.emitted,
        line,
        begin(begins, next, operands),
    )?;
    let making = Making {
        operation,
        parameters,
        line,
    };
    make(writer, making)
}

// Begins a callee that is no built-in operation. If it cannot be called, there is no code after the arguments.
fn begin_callee(
    writer: &mut Writer,
    line: u32,
    begins: Begins,
    callee: &Operand,
    xs: &[Expr],
) -> Result<(), Memory>
    ensures { Lays result (begun writer.old.draft.tables.now line (begin_of begins) writer.old.draft.functions callee.now xs.now writer.old.facts) writer.old writer.new }
{
    match callee {
        Operand::Function(function) => begin_function(writer, line, begins, *function, xs, 0),
        Operand::Method(function) => begin_function(writer, line, begins, *function, xs, 1),
        Operand::BuiltIn(operation) => begin_operation(writer, line, begins, *operation, xs),
        Operand::Value(_)
        | Operand::Outcome(_)
        | Operand::Constant(_, _)
        | Operand::Truth(_)
        | Operand::Variable(_, _)
        | Operand::Field(_, _)
        | Operand::Element(_)
        | Operand::Unknown
        | Operand::Nil
        | Operand::Blank
        | Operand::Nothing(_)
        | Operand::Package(_)
        | Operand::Struct(_)
        | Operand::TypeName => pushed(writer, line, xs),
    }
}

/// Adds the code of a go or defer statement. Receiver and arguments are evaluated now.
pub fn begin_at(
    writer: &mut Writer,
    targets: Targets,
    line: u32,
    begins: Begins,
    f: &Expr,
    xs: &[Expr],
) -> Result<(), Memory>
    ensures { Lays result (begin_lay writer.old.draft.tables.now line (begin_of begins) f.now xs.now (around writer.old targets) writer.old.facts) writer.old writer.new }
{
    let callee = writer.facts.operand();
    expression(writer, line, f)?;
    begin_callee(writer, line, begins, callee, xs)
}
