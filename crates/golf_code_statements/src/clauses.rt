//! The choice of a `select`, before the code of its clauses.
//!
//! The operands of all clauses come before the choice, so the facts of all clauses are gone over
//! twice: here, and for their bodies.

ghost use Rattle.std.specs.Prelude.{◌≡◌, ◌++◌, map, None, IfOk, OnOk};
ghost use Rattle.golf_code_layout.specs.Piece.{all};
ghost use Rattle.golf_code_of.specs.Selects.{kind_of, case_to, default_or};
ghost use Rattle.golf_code_facts.specs.Facts.{skip};
ghost use Rattle.golf_code_facts.specs.Selects.{operands_all, cases_from, default_from, choice as choice_of};
ghost use Rattle.golf_code_facts.specs.StatementCode.{clause_by};
ghost use Rattle.golf_code_expressions.specs.WriterClauses.{Extends, Writes};
ghost use Rattle.golf_code_statements.specs.Clauses.{first_of, opened};
ghost use Rattle.golf_code_statements.specs.Branches.{shut};
ghost use Rattle.golf_code_of.specs.declared.tables.Tables.{Tables};

use golf_base::{List, Memory};
use golf_code_expressions::Writer;
use golf_code_layout::{Emitted, block, end};
use golf_code_simple::operands;
use golf_data::{CaseKind, SelectCase};
use golf_syntax_trees::{Clause, Communication};
use std::alloc::Global;

/// The cases of a `select`, and the number of the `default` clause, if there is one.
#[derive(Drop)]
pub struct Choice {
    pub cases: List<SelectCase>,
    pub otherwise: Option<u32>,
}

fn kind(communication: &Communication) -> CaseKind
    ensures { result ≡ kind_of communication.now }
{
    match communication {
        Communication::Send(_, _) => CaseKind::Send,
        Communication::DefineReceived(_, _, _) => CaseKind::TakeOk,
        _ => CaseKind::Take,
    }
}

/// Returns the line of a clause.
#[tactic(auto, unfolding(golf_code_facts::specs::StatementCode::clause_by))]
pub fn clause_line(clause: &Clause) -> u32
    ensures { (t : Tables) → result ≡ (clause_by t clause.now).line }
{
    match clause {
        Clause::Case(line, _, _) => *line,
        Clause::Default(line, _) => *line,
    }
}

// Adds the code that pushes the operands of a clause.
#[tactic(auto, unfolding(golf_code_facts::specs::StatementCode::clause_by))]
fn clause_operands(writer: &mut Writer, line: u32, clause: &Clause) -> Result<(), Memory>
    ensures { Extends result ((clause_by writer.old.draft.tables.now clause.now).operands line writer.old.facts) writer.old writer.new }
{
    match clause {
        Clause::Case(_, first, _) => {
            writer.facts.skip_one();
            operands(writer, line, first.get())
        }
        Clause::Default(_, _) => Ok(()),
    }
}

// Does the same, and skips the facts of the clause.
fn push_operands(writer: &mut Writer, line: u32, clause: &Clause) -> Result<(), Memory>
    ensures { Writes result ((clause_by writer.old.draft.tables.now clause.now).operands line writer.old.facts) (skip writer.old.facts) writer.old writer.new }
{
    let mut after = writer.facts.copy();
    after.skip();
    clause_operands(writer, line, clause)?;
    writer.facts = after;
    Ok(())
}

fn all_operands(writer: &mut Writer, line: u32, clauses: &[Clause]) -> Result<(), Memory>
    ensures { Extends result (all (operands_all line (map (clause_by writer.old.draft.tables.now) clauses.now) writer.old.facts)) writer.old writer.new }
{
    for clause in clauses {
        push_operands(writer, line, clause)?;
    }
    Ok(())
}

// Adds a clause of this number to the choice.
#[tactic(auto, unfolding(golf_code_facts::specs::StatementCode::clause_by))]
fn add_clause(choice: &mut Choice, clause: &Clause, number: u32) -> Result<(), Memory>
    ensures cases { (t : Tables) → OnOk result (choice.new.cases ≡ choice.old.cases ++ case_to number (clause_by t clause.now).kind) }
    ensures otherwise { (t : Tables) → OnOk result (choice.new.otherwise ≡ first_of choice.old.otherwise (default_or number (clause_by t clause.now).kind None)) }
{
    match clause {
        Clause::Case(_, first, _) => {
            choice.cases.push(SelectCase {
                kind: kind(first.get()),
                target: number,
            })?;
            Ok(())
        }
        Clause::Default(_, _) => {
            if choice.otherwise.is_none() {
                choice.otherwise = Some(number);
            }
            Ok(())
        }
    }
}

fn choice_from(alloc: Global, clauses: &[Clause]) -> Result<Choice, Memory>
    ensures cases { (t : Tables) → IfOk result (λ c. c.cases ≡ cases_from 0 (map (clause_by t) clauses.now)) }
    ensures otherwise { (t : Tables) → IfOk result (λ c. c.otherwise ≡ default_from 0 (map (clause_by t) clauses.now)) }
{
    let mut choice = Choice {
        cases: List::new(alloc),
        otherwise: None,
    };
    let mut number = 0u32;
    for clause in clauses {
        add_clause(&mut choice, clause, number)?;
        number = number.checked_add(1).ok_or(Memory)?;
    }
    Ok(choice)
}

/// Adds the code of the operands of all clauses in source order, and the choice. It skips no
/// fact.
pub fn choose(writer: &mut Writer, line: u32, clauses: &[Clause]) -> Result<(), Memory>
    ensures { Writes result (choice_of line (map (clause_by writer.old.draft.tables.now) clauses.now) writer.old.facts) writer.old.facts writer.old writer.new }
{
    let first = writer.facts.copy();
    all_operands(writer, line, clauses)?;
    let Choice { cases, otherwise } = choice_from(writer.draft.alloc, clauses)?;
    writer
        .draft
        .emitted
        .push(Emitted::Choose(line, cases, otherwise))?;
    writer.facts = first;
    Ok(())
}

/// Begins `count` blocks.
pub fn begin_blocks(emitted: &mut List<Emitted>, count: usize) -> Result<(), Memory>
    ensures { OnOk result (emitted.new ≡ opened count emitted.old) }
{
    for _ in 0..count {
        block(emitted)?;
    }
    Ok(())
}

/// Ends `count` blocks.
pub fn end_blocks(emitted: &mut List<Emitted>, count: usize) -> Result<(), Memory>
    ensures { OnOk result (emitted.new ≡ shut count emitted.old) }
{
    for _ in 0..count {
        end(emitted)?;
    }
    Ok(())
}
