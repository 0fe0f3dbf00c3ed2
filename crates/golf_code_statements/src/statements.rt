//! The writer of the code of a statement and of a body, by their facts.
//!
//! It keeps the targets of `break` and `continue` and the number of the next function to be made. A loop follows each
//! `else if`; other parts are written by recursion, whose depth the cost of tokens bounds.

ghost use Rattle.std.specs.Prelude.{map, OnOk, ◌≡◌};
ghost use Rattle.golf_code_facts.specs.Statements.{in_order, after_test, then_lay as then_lay_of, if_lay, else_lay};
ghost use Rattle.golf_code_facts.specs.Loops.{in_loop, forever as forever_of, while as while_of};
ghost use Rattle.golf_code_facts.specs.Loops.{stepping as stepping_of, steps as steps_of, ranging, for_lay};
ghost use Rattle.golf_code_facts.specs.Selects.{case_clause, default_clause, select_lay};
ghost use Rattle.golf_code_facts.specs.StatementCode.{stmt_by, clause_by};
ghost use Rattle.golf_code_statements.specs.Ranges.{ranged_slice, ranged_channel};
ghost use Rattle.golf_code_statements.specs.Clauses.{with_clauses};
ghost use Rattle.golf_code_statements.specs.Branches.{branched};
ghost use Rattle.golf_code_statements.specs.Lays.{around, apart, Lays};

use crate::begins::{Begins, begin_at};
use crate::clauses::{begin_blocks, choose, clause_line, end_blocks};
use crate::rounds::{
    begin_round, condition, end_round, is_slice, optional_test, receive_open, slot_after,
    step_index, store_slice, test_index,
};
use crate::singles::{break_at, continue_at, return_at, simple_at, variable_at};
use crate::targets::{Targets, in_clause, one_more, within};
use golf_base::Memory;
use golf_code_expressions::{Writer, expression};
use golf_code_layout::{block as begin_block, end as end_block, exit, op};
use golf_code_simple::{channel_name, communication, optional, slice_names};
use golf_data::Instr;
use golf_syntax_trees::{
    Clause, Communication, Expr, Header, OwnedExpr, OwnedSimple, RangeNames, Stmt, behind_else,
};

#[cycle(laying)]
fn all(writer: &mut Writer, targets: Targets, stmts: &[Stmt]) -> Result<(), Memory>
    ensures { Lays result (in_order (map (stmt_by writer.old.draft.tables.now) stmts.now) (around writer.old targets) writer.old.facts) writer.old writer.new }
{
    for stmt in stmts {
        statement(writer, targets, stmt)?;
    }
    Ok(())
}

#[cycle(laying)]
fn tested(
    writer: &mut Writer,
    targets: Targets,
    line: u32,
    body: &[Stmt],
    test: &Expr,
) -> Result<(), Memory>
    ensures { Lays result (after_test writer.old.draft.tables.now line test.now (in_order (map (stmt_by writer.old.draft.tables.now) body.now)) (around writer.old targets) writer.old.facts) writer.old writer.new }
{
    condition(writer, line, test, 0)?;
    all(writer, targets, body)
}

#[cycle(laying)]
fn then_part(
    writer: &mut Writer,
    targets: Targets,
    line: u32,
    body: &[Stmt],
    first: &Option<OwnedSimple>,
    test: &Expr,
) -> Result<(), Memory>
    ensures { Lays result (then_lay_of writer.old.draft.tables.now line first.now test.now (map (stmt_by writer.old.draft.tables.now) body.now) (around writer.old targets) writer.old.facts) writer.old writer.new }
{
    optional(writer, first)?;
    tested(writer, targets, line, body, test)
}

#[cycle(laying)]
fn if_at(
    writer: &mut Writer,
    targets: Targets,
    line: u32,
    body: &[Stmt],
    first: &Option<OwnedSimple>,
    test: &Expr,
) -> Result<(), Memory>
    ensures { Lays result (if_lay writer.old.draft.tables.now line first.now test.now (map (stmt_by writer.old.draft.tables.now) body.now) (around writer.old targets) writer.old.facts) writer.old writer.new }
{
    let inner = within(targets, 1)?;
    begin_block(&mut writer.draft.emitted)?;
    then_part(writer, inner, line, body, first, test)?;
    end_block(&mut writer.draft.emitted)
}

// Adds the first branch of an `if` with an `else`, which goes on at the end of both. It begins two blocks and ends the
// inner one.
#[cycle(laying)]
fn first_branch(
    writer: &mut Writer,
    targets: Targets,
    line: u32,
    body: &[Stmt],
    first: &Option<OwnedSimple>,
    test: &Expr,
) -> Result<(), Memory>
    ensures { OnOk result (writer.new ≡ branched line (then_lay_of writer.old.draft.tables.now line first.now test.now (map (stmt_by writer.old.draft.tables.now) body.now)) targets writer.old) }
{
    let inner = within(targets, 2)?;
    begin_block(&mut writer.draft.emitted)?;
    begin_block(&mut writer.draft.emitted)?;
    then_part(writer, inner, line, body, first, test)?;
    exit(&mut writer.draft.emitted, line, 1)?;
    end_block(&mut writer.draft.emitted)?;
    Ok(())
}

#[cycle(laying)]
fn else_at(
    writer: &mut Writer,
    targets: Targets,
    line: u32,
    body: &[Stmt],
    otherwise: &Stmt,
    first: &Option<OwnedSimple>,
    test: &Expr,
) -> Result<(), Memory>
    ensures { Lays result (else_lay writer.old.draft.tables.now line first.now test.now (map (stmt_by writer.old.draft.tables.now) body.now) (stmt_by writer.old.draft.tables.now otherwise.now) (around writer.old targets) writer.old.facts) writer.old writer.new }
{
    let outer = within(targets, 1)?;
    first_branch(writer, targets, line, body, first, test)?;
    otherwise_at(writer, outer, otherwise)?;
    end_block(&mut writer.draft.emitted)?;
    Ok(())
}

// Adds the code of the statement after `else`. A loop follows each `else if`, since nothing bounds their number.
#[cycle(laying)]
fn otherwise_at(writer: &mut Writer, targets: Targets, otherwise: &Stmt) -> Result<(), Memory>
    ensures { Lays result (stmt_by writer.old.draft.tables.now otherwise.now (around writer.old targets) writer.old.facts) writer.old writer.new }
{
    let mut blocks = 0usize;
    let mut inner = targets;
    let mut last = otherwise;
    'branches: while let Stmt::IfElse(line, first, test, body, _) = last {
        first_branch(writer, inner, *line, body.as_slice(), first, test.get())?;
        blocks = one_more(blocks)?;
        inner = within(inner, 1)?;
        last = behind_else(last);
    }
    statement(writer, inner, last)?;
    end_blocks(&mut writer.draft.emitted, blocks)?;
    Ok(())
}

// Adds the code of the body of a loop. `break` and `continue` leave it by these targets.
#[cycle(laying)]
fn loop_body(writer: &mut Writer, breaks: u32, continues: u32, body: &[Stmt]) -> Result<(), Memory>
    ensures { Lays result (in_loop breaks continues (in_order (map (stmt_by writer.old.draft.tables.now) body.now)) (apart writer.old) writer.old.facts) writer.old writer.new }
{
    let targets = Targets { breaks, continues };
    all(writer, targets, body)
}

#[cycle(laying)]
fn forever(writer: &mut Writer, line: u32, body: &[Stmt]) -> Result<(), Memory>
    ensures { Lays result (forever_of line (in_loop 1 0 (in_order (map (stmt_by writer.old.draft.tables.now) body.now))) (apart writer.old) writer.old.facts) writer.old writer.new }
{
    begin_round(&mut writer.draft.emitted)?;
    loop_body(writer, 1, 0, body)?;
    end_round(&mut writer.draft.emitted, line)
}

#[cycle(laying)]
fn while_at(writer: &mut Writer, line: u32, body: &[Stmt], test: &Expr) -> Result<(), Memory>
    ensures { Lays result (while_of writer.old.draft.tables.now line test.now (in_loop 1 0 (in_order (map (stmt_by writer.old.draft.tables.now) body.now))) (apart writer.old) writer.old.facts) writer.old writer.new }
{
    begin_round(&mut writer.draft.emitted)?;
    condition(writer, line, test, 1)?;
    loop_body(writer, 1, 0, body)?;
    end_round(&mut writer.draft.emitted, line)
}

// Adds the code of a loop with a post statement. The facts of the post statement come before those of the body, and its
// code after it.
#[cycle(laying)]
fn stepping(
    writer: &mut Writer,
    line: u32,
    test: &Option<OwnedExpr>,
    post: &Option<OwnedSimple>,
    body: &[Stmt],
) -> Result<(), Memory>
    ensures { Lays result (stepping_of writer.old.draft.tables.now line test.now post.now (in_loop 2 0 (in_order (map (stmt_by writer.old.draft.tables.now) body.now))) (apart writer.old) writer.old.facts) writer.old writer.new }
{
    begin_round(&mut writer.draft.emitted)?;
    optional_test(writer, line, test)?;
    let mut of_post = writer.facts.copy();
    of_post.skip_one();
    writer.facts.skip();
    begin_block(&mut writer.draft.emitted)?;
    loop_body(writer, 2, 0, body)?;
    end_block(&mut writer.draft.emitted)?;
    let after = writer.facts.copy();
    writer.facts = of_post;
    optional(writer, post)?;
    writer.facts = after;
    end_round(&mut writer.draft.emitted, line)
}

#[cycle(laying)]
fn steps(
    writer: &mut Writer,
    line: u32,
    first: &Option<OwnedSimple>,
    test: &Option<OwnedExpr>,
    post: &Option<OwnedSimple>,
    body: &[Stmt],
) -> Result<(), Memory>
    ensures { Lays result (steps_of writer.old.draft.tables.now line first.now test.now post.now (map (stmt_by writer.old.draft.tables.now) body.now) (apart writer.old) writer.old.facts) writer.old writer.new }
{
    optional(writer, first)?;
    stepping(writer, line, test, post, body)
}

#[cycle(laying)]
fn over_slice(
    writer: &mut Writer,
    line: u32,
    names: &RangeNames,
    body: &[Stmt],
) -> Result<(), Memory>
    ensures { Lays result (ranged_slice writer.old.draft.tables.now line names.now (map (stmt_by writer.old.draft.tables.now) body.now) (apart writer.old) writer.old.facts) writer.old writer.new }
{
    let slice = writer.facts.hidden();
    writer.facts.skip_one();
    let length = slot_after(slice, 1)?;
    let index = slot_after(slice, 2)?;
    store_slice(&mut writer.draft.emitted, line, slice, length, index)?;
    begin_round(&mut writer.draft.emitted)?;
    test_index(&mut writer.draft.emitted, line, length, index)?;
    slice_names(writer, line, slice, index, names)?;
    begin_block(&mut writer.draft.emitted)?;
    loop_body(writer, 2, 0, body)?;
    end_block(&mut writer.draft.emitted)?;
    step_index(&mut writer.draft.emitted, line, index)?;
    end_round(&mut writer.draft.emitted, line)?;
    Ok(())
}

#[cycle(laying)]
fn over_channel(
    writer: &mut Writer,
    line: u32,
    names: &RangeNames,
    body: &[Stmt],
) -> Result<(), Memory>
    ensures { Lays result (ranged_channel writer.old.draft.tables.now line names.now (map (stmt_by writer.old.draft.tables.now) body.now) (apart writer.old) writer.old.facts) writer.old writer.new }
{
    let channel = writer.facts.hidden();
    writer.facts.skip_one();
    op(&mut writer.draft.emitted, line, Instr::Store(channel))?;
    begin_block(&mut writer.draft.emitted)?;
    begin_round(&mut writer.draft.emitted)?;
    receive_open(&mut writer.draft.emitted, line, channel)?;
    channel_name(writer, line, names)?;
    loop_body(writer, 2, 0, body)?;
    end_round(&mut writer.draft.emitted, line)?;
    op(&mut writer.draft.emitted, line, Instr::Drop)?;
    end_block(&mut writer.draft.emitted)?;
    Ok(())
}

#[cycle(laying)]
fn range_at(
    writer: &mut Writer,
    line: u32,
    body: &[Stmt],
    names: &RangeNames,
    e: &Expr,
) -> Result<(), Memory>
    ensures { Lays result (ranging writer.old.draft.tables.now line names.now e.now (map (stmt_by writer.old.draft.tables.now) body.now) (apart writer.old) writer.old.facts) writer.old writer.new }
{
    let slice = is_slice(writer.facts.operand());
    expression(writer, line, e)?;
    if slice {
        over_slice(writer, line, names, body)?;
        return Ok(());
    }
    over_channel(writer, line, names, body)?;
    Ok(())
}

#[cycle(laying)]
fn for_at(
    writer: &mut Writer,
    targets: Targets,
    line: u32,
    header: &Header,
    body: &[Stmt],
) -> Result<(), Memory>
    ensures { Lays result (for_lay writer.old.draft.tables.now line header.now (map (stmt_by writer.old.draft.tables.now) body.now) (around writer.old targets) writer.old.facts) writer.old writer.new }
{
    match header {
        Header::Forever => forever(writer, line, body),
        Header::While(test) => while_at(writer, line, body, test.get()),
        Header::Steps(first, test, post) => steps(writer, line, first, test, post, body),
        Header::Range(names, e) => range_at(writer, line, body, names, e.get()),
    }
}

#[cycle(laying)]
fn case_at(
    writer: &mut Writer,
    targets: Targets,
    case_line: u32,
    first: &Communication,
    body: &[Stmt],
) -> Result<(), Memory>
    ensures { Lays result ((case_clause writer.old.draft.tables.now case_line first.now (map (stmt_by writer.old.draft.tables.now) body.now)).lay (around writer.old targets) writer.old.facts) writer.old writer.new }
{
    writer.facts.skip_one();
    communication(writer, case_line, first)?;
    all(writer, targets, body)
}

#[cycle(laying)]
fn default_at(
    writer: &mut Writer,
    targets: Targets,
    case_line: u32,
    body: &[Stmt],
) -> Result<(), Memory>
    ensures { Lays result ((default_clause case_line (map (stmt_by writer.old.draft.tables.now) body.now)).lay (around writer.old targets) writer.old.facts) writer.old writer.new }
{
    writer.facts.skip_one();
    all(writer, targets, body)
}

#[cycle(laying)]
#[tactic(auto, unfolding(golf_code_facts::specs::StatementCode::clause_by, golf_code_facts::specs::StatementCode::stmt_by))]
fn clause_at(writer: &mut Writer, targets: Targets, clause: &Clause) -> Result<(), Memory>
    ensures { Lays result ((clause_by writer.old.draft.tables.now clause.now).lay (around writer.old targets) writer.old.facts) writer.old writer.new }
{
    match clause {
        Clause::Case(line, first, body) => {
            case_at(writer, targets, *line, first.get(), body.as_slice())
        }
        Clause::Default(line, body) => default_at(writer, targets, *line, body.as_slice()),
    }
}

#[cycle(laying)]
fn clauses_at(writer: &mut Writer, targets: Targets, clauses: &[Clause]) -> Result<(), Memory>
    ensures { OnOk result (writer.new ≡ with_clauses (map (clause_by writer.old.draft.tables.now) clauses.now) targets writer.old) }
{
    let Ok(count) = u32::try_from(clauses.len()) else {
        return Err(Memory);
    };
    let mut later = count;
    for clause in clauses {
        later = later.saturating_sub(1);
        end_block(&mut writer.draft.emitted)?;
        let inner = in_clause(targets, later)?;
        clause_at(writer, inner, clause)?;
        exit(&mut writer.draft.emitted, clause_line(clause), later)?;
    }
    Ok(())
}

#[cycle(laying)]
fn select_at(
    writer: &mut Writer,
    targets: Targets,
    line: u32,
    clauses: &[Clause],
) -> Result<(), Memory>
    ensures { Lays result (select_lay line (map (clause_by writer.old.draft.tables.now) clauses.now) (around writer.old targets) writer.old.facts) writer.old writer.new }
{
    begin_block(&mut writer.draft.emitted)?;
    begin_blocks(&mut writer.draft.emitted, clauses.len())?;
    choose(writer, line, clauses)?;
    clauses_at(writer, targets, clauses)?;
    end_block(&mut writer.draft.emitted)?;
    Ok(())
}

/// Adds the code of a statement and the functions to be made for it, by the facts that come next.
#[cycle(laying)]
#[tactic(auto, unfolding(golf_code_facts::specs::StatementCode::clause_by, golf_code_facts::specs::StatementCode::stmt_by))]
pub fn statement(writer: &mut Writer, targets: Targets, stmt: &Stmt) -> Result<(), Memory>
    ensures { Lays result (stmt_by writer.old.draft.tables.now stmt.now (around writer.old targets) writer.old.facts) writer.old writer.new }
{
    match stmt {
        Stmt::Var(var) => variable_at(writer, targets, var.get()),
        Stmt::Simple(one) => simple_at(writer, targets, one.get()),
        Stmt::Go(line, f, xs) => {
            begin_at(writer, targets, *line, Begins::Go, f.get(), xs.as_slice())
        }
        Stmt::Defer(line, f, xs) => {
            begin_at(
                writer,
                targets,
                *line,
                Begins::Defer,
                f.get(),
                xs.as_slice(),
            )
        }
        Stmt::Return(line, e) => return_at(writer, targets, *line, e),
        Stmt::Break(line) => break_at(writer, targets, *line),
        Stmt::Continue(line) => continue_at(writer, targets, *line),
        Stmt::Block(_, body) => all(writer, targets, body.as_slice()),
        Stmt::If(line, first, test, body) => {
            if_at(writer, targets, *line, body.as_slice(), first, test.get())
        }
        Stmt::IfElse(line, first, test, body, otherwise) => else_at(
            writer,
            targets,
            *line,
            body.as_slice(),
            otherwise.get(),
            first,
            test.get(),
        ),
        Stmt::For(line, header, body) => {
            for_at(writer, targets, *line, header.get(), body.as_slice())
        }
        Stmt::Select(line, clauses) => select_at(writer, targets, *line, clauses.as_slice()),
    }
}

/// Adds the code of the statements of a function, by the facts that come next.
pub fn body(writer: &mut Writer, stmts: &[Stmt]) -> Result<(), Memory>
    ensures { Lays result (in_order (map (stmt_by writer.old.draft.tables.now) stmts.now) (apart writer.old) writer.old.facts) writer.old writer.new }
{
    let targets = Targets {
        breaks: 0,
        continues: 0,
    };
    all(writer, targets, stmts)
}
