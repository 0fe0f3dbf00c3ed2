//! The walk over statements: whether they keep the rules, and what they declare.
//!
//! A block ends with the names with which it began, so its own names are not known after it.
//! `break` and `continue` ask the scope whether there is a statement to leave.

ghost use Rattle.std.specs.Prelude.{◌≡◌, map, OnOk};
ghost use Rattle.golf_syntax_trees.specs.Spines.{risen};
ghost use Rattle.golf_check_types.specs.Scopes.{closed_to};
ghost use Rattle.golf_check_types.specs.Statements.{in_order, block as block_of, loop_body as loop_body_of, then_walk};
ghost use Rattle.golf_check_types.specs.Statements.{if_walk, else_walk, steps, range_walk, header_walk, for_walk};
ghost use Rattle.golf_check_types.specs.Statements.{case_walk, default_walk, breaking, walk, walk_clause};
ghost use Rattle.golf_check_types.specs.Statements.{walk_clause_at};
ghost use Rattle.golf_check_bodies.specs.CheckerClauses.{Walks};

mod communications;
pub mod endings;
mod headers;
mod names;
mod ranges;
mod simple;
mod singles;

use crate::checker::Checker;
use crate::facts::count_part;
use golf_base::{List, Memory};
use golf_check_types::rules::NOTHING_TO_LEAVE;
use golf_check_types::{Fact, Scope, TypeFault, begin as begin_block, end as end_block};
use golf_syntax_trees::{
    Clause, Communication, Expr, Header, OwnedExpr, OwnedSimple, RangeNames, Stmt, behind_else,
};
use std::alloc::Global;

// Ends the blocks with these marks, the last one first.
fn end_all(alloc: Global, scope: &mut Scope, mut marks: List<usize>) -> Result<(), Memory>
    ensures { OnOk result (scope.new ≡ risen closed_to marks scope.old) }
{
    while let Some(mark) = marks.pop() {
        end_block(alloc, scope, mark)?;
    }
    Ok(())
}

impl Checker {
    /// Walks over a statement.
    #[cycle(walking)]
    #[tactic(auto, unfolding(golf_check_types::specs::Statements::walk), using(golf_check_types::proofs::WalkLaws::stays))]
    pub fn statement(&mut self, stmt: &Stmt) -> Result<(), TypeFault>
        ensures { Walks result (walk stmt.now self.old.scope) self.old self.new }
    {
        match stmt {
            Stmt::Var(var) => self.variable(var.get()),
            Stmt::Simple(simple) => self.simple_statement(simple.get()),
            Stmt::Go(line, f, xs) => {
                self.line = *line;
                self.begin_call(f.get(), xs.as_slice())
            }
            Stmt::Defer(line, f, xs) => {
                self.line = *line;
                self.begin_call(f.get(), xs.as_slice())
            }
            Stmt::Return(line, e) => {
                self.line = *line;
                self.return_statement(e)
            }
            Stmt::Break(line) => {
                self.line = *line;
                self.require(NOTHING_TO_LEAVE, self.scope.breaks)
            }
            Stmt::Continue(line) => {
                self.line = *line;
                self.require(NOTHING_TO_LEAVE, self.scope.loops)
            }
            Stmt::Block(_, body) => self.block(body.as_slice()),
            Stmt::If(line, first, test, body) => {
                self.line = *line;
                self.if_statement(body.as_slice(), first, test.get())
            }
            Stmt::IfElse(line, first, test, body, otherwise) => {
                self.line = *line;
                self.if_else(body.as_slice(), otherwise.get(), first, test.get())
            }
            Stmt::For(line, header, body) => {
                self.line = *line;
                self.for_statement(header.get(), body.as_slice())
            }
            Stmt::Select(line, clauses) => {
                self.line = *line;
                self.select_statement(clauses.as_slice())
            }
        }
    }

    /// Walks over statements in order, in one block.
    #[cycle(walking)]
    pub fn statements(&mut self, stmts: &[Stmt]) -> Result<(), TypeFault>
        ensures { Walks result (in_order (map walk stmts.now) self.old.scope) self.old self.new }
    {
        for stmt in stmts {
            self.statement(stmt)?;
        }
        Ok(())
    }

    // Walks over a block. Its names are not known after it.
    #[cycle(walking)]
    fn block(&mut self, body: &[Stmt]) -> Result<(), TypeFault>
        ensures { Walks result (block_of (map walk body.now) self.old.scope) self.old self.new }
    {
        let mark = begin_block(&mut self.scope)?;
        self.statements(body)?;
        end_block(self.alloc, &mut self.scope, mark)?;
        Ok(())
    }

    // Walks over a block that `break` and `continue` can leave.
    #[cycle(walking)]
    fn loop_body(&mut self, body: &[Stmt]) -> Result<(), TypeFault>
        ensures { Walks result (loop_body_of (map walk body.now) self.old.scope) self.old self.new }
    {
        let breaks = self.scope.breaks;
        let loops = self.scope.loops;
        self.scope.breaks = true;
        self.scope.loops = true;
        self.block(body)?;
        self.scope.breaks = breaks;
        self.scope.loops = loops;
        Ok(())
    }

    // Walks over `first; test { body }` of an `if`, in the block that the `if` has begun.
    #[cycle(walking)]
    fn then_branch(
        &mut self,
        body: &[Stmt],
        first: &Option<OwnedSimple>,
        test: &Expr,
    ) -> Result<(), TypeFault>
        ensures { Walks result (then_walk self.old.line first.now test.now (map walk body.now) self.old.scope) self.old self.new }
    {
        let line = self.line;
        self.optional_statement(first)?;
        self.line = line;
        self.condition(test)?;
        self.block(body)
    }

    // `if first; test { body }`
    #[cycle(walking)]
    fn if_statement(
        &mut self,
        body: &[Stmt],
        first: &Option<OwnedSimple>,
        test: &Expr,
    ) -> Result<(), TypeFault>
        ensures { Walks result (if_walk self.old.line first.now test.now (map walk body.now) self.old.scope) self.old self.new }
    {
        let mark = begin_block(&mut self.scope)?;
        self.then_branch(body, first, test)?;
        end_block(self.alloc, &mut self.scope, mark)?;
        Ok(())
    }

    // `if first; test { body } else otherwise`. The names that `first` declares are known in `otherwise`.
    #[cycle(walking)]
    fn if_else(
        &mut self,
        body: &[Stmt],
        otherwise: &Stmt,
        first: &Option<OwnedSimple>,
        test: &Expr,
    ) -> Result<(), TypeFault>
        ensures { Walks result (else_walk self.old.line first.now test.now (map walk body.now) (walk otherwise.now) self.old.scope) self.old self.new }
    {
        let mark = begin_block(&mut self.scope)?;
        self.then_branch(body, first, test)?;
        self.otherwise(otherwise)?;
        end_block(self.alloc, &mut self.scope, mark)?;
        Ok(())
    }

    // Walks over the statement after `else`. A loop follows each `else if`, since nothing bounds their number. The
    // marks are those of the blocks that it begins.
    #[cycle(walking)]
    fn otherwise(&mut self, otherwise: &Stmt) -> Result<(), TypeFault>
        ensures { Walks result (walk otherwise.now self.old.scope) self.old self.new }
    {
        let mut marks = List::new(self.alloc);
        let mut last = otherwise;
        'branches: while let Stmt::IfElse(line, first, test, body, _) = last {
            self.line = *line;
            let mark = begin_block(&mut self.scope)?;
            marks.push(mark)?;
            self.then_branch(body.as_slice(), first, test.get())?;
            last = behind_else(last);
        }
        self.statement(last)?;
        end_all(self.alloc, &mut self.scope, marks)?;
        Ok(())
    }

    // Walks over a loop, which is a block around its header and its body.
    #[cycle(walking)]
    fn for_statement(&mut self, header: &Header, body: &[Stmt]) -> Result<(), TypeFault>
        ensures { Walks result (for_walk self.old.line header.now (map walk body.now) self.old.scope) self.old self.new }
    {
        let mark = begin_block(&mut self.scope)?;
        self.for_header(header, body)?;
        end_block(self.alloc, &mut self.scope, mark)?;
        Ok(())
    }

    // Walks over the header and the body of a loop.
    #[cycle(walking)]
    fn for_header(&mut self, header: &Header, body: &[Stmt]) -> Result<(), TypeFault>
        ensures { Walks result (header_walk self.old.line header.now (map walk body.now) self.old.scope) self.old self.new }
    {
        match header {
            Header::Forever => self.loop_body(body),
            Header::While(test) => {
                self.condition(test.get())?;
                self.loop_body(body)
            }
            Header::Steps(first, test, post) => self.for_clause(first, test, post, body),
            Header::Range(names, e) => self.range_clause(body, names, e.get()),
        }
    }

    // `for first; test; post { body }`
    #[cycle(walking)]
    fn for_clause(
        &mut self,
        first: &Option<OwnedSimple>,
        test: &Option<OwnedExpr>,
        post: &Option<OwnedSimple>,
        body: &[Stmt],
    ) -> Result<(), TypeFault>
        ensures { Walks result (steps self.old.line first.now test.now post.now (map walk body.now) self.old.scope) self.old self.new }
    {
        let line = self.line;
        self.optional_statement(first)?;
        self.line = line;
        self.optional_condition(test)?;
        self.post_statement(post)?;
        self.loop_body(body)
    }

    // `for names := range e { body }`
    #[cycle(walking)]
    fn range_clause(&mut self, body: &[Stmt], names: &RangeNames, e: &Expr) -> Result<(), TypeFault>
        ensures { Walks result (range_walk self.old.line names.now e.now (map walk body.now) self.old.scope) self.old self.new }
    {
        let value = self.range_head(names, e)?;
        self.range_slots(names, value)?;
        self.loop_body(body)
    }

    // Walks over the clauses of a `select`. Each clause is judged from the line of the `select`.
    #[cycle(walking)]
    fn select_statement(&mut self, clauses: &[Clause]) -> Result<(), TypeFault>
        ensures { Walks result (in_order (map (walk_clause_at self.old.line) clauses.now) self.old.scope) self.old self.new }
    {
        let line = self.line;
        for clause in clauses {
            self.line = line;
            self.clause(clause)?;
        }
        Ok(())
    }

    // Walks over a clause of a `select`.
    #[cycle(walking)]
    #[tactic(auto, unfolding(golf_check_types::specs::Statements::walk_clause, golf_check_types::specs::Statements::walk))]
    fn clause(&mut self, clause: &Clause) -> Result<(), TypeFault>
        ensures { Walks result (walk_clause clause.now self.old.line self.old.scope) self.old self.new }
    {
        match clause {
            Clause::Case(names_line, first, body) => {
                self.case(*names_line, first.get(), body.as_slice())
            }
            Clause::Default(_, body) => self.default_clause(body.as_slice()),
        }
    }

    // Passes over a case. Its facts are counted, since the generator walks over it at first.
    #[cycle(walking)]
    #[tactic(auto, using(golf_check_types::proofs::Seams::part_filled))]
    fn case(
        &mut self,
        names_line: u32,
        first: &Communication,
        body: &[Stmt],
    ) -> Result<(), TypeFault>
        ensures { Walks result (case_walk self.old.line names_line first.now (map walk body.now) self.old.scope) self.old self.new }
    {
        let at = self.facts.len();
        self.facts.push(Fact::Part(0))?;
        let mark = begin_block(&mut self.scope)?;
        self.communication(names_line, first)?;
        self.clause_body(body)?;
        end_block(self.alloc, &mut self.scope, mark)?;
        count_part(&mut self.facts, at);
        Ok(())
    }

    // Walks over the default clause. Its facts are counted like those of a case.
    #[cycle(walking)]
    #[tactic(auto, using(golf_check_types::proofs::Seams::part_filled))]
    fn default_clause(&mut self, body: &[Stmt]) -> Result<(), TypeFault>
        ensures { Walks result (default_walk (map walk body.now) self.old.scope) self.old self.new }
    {
        let at = self.facts.len();
        self.facts.push(Fact::Part(0))?;
        let mark = begin_block(&mut self.scope)?;
        self.clause_body(body)?;
        end_block(self.alloc, &mut self.scope, mark)?;
        count_part(&mut self.facts, at);
        Ok(())
    }

    // Walks over the statements of a clause, which `break` can leave.
    #[cycle(walking)]
    fn clause_body(&mut self, body: &[Stmt]) -> Result<(), TypeFault>
        ensures { Walks result (breaking (in_order (map walk body.now)) self.old.scope) self.old self.new }
    {
        let breaks = self.scope.breaks;
        self.scope.breaks = true;
        self.statements(body)?;
        self.scope.breaks = breaks;
        Ok(())
    }
}
