//! The constructs that wait for a statement, and how the reader goes on.
//!
//! A `Pending` has the part of a construct that is before the statement, so that the reader needs no recursion. A
//! `Move` says how the reader goes on. Both are held in boxes, since they are large to move.

ghost use Rattle.std.specs.Prelude.{◌∷◌, ◌++◌, [], ◌≡◌, ◌+◌, ◌*◌, ◌<◌, ◌≤◌, length, IfOk, IfSome};
ghost use Rattle.golf_syntax_statements.specs.Moves as moves_spec;
ghost use Rattle.golf_syntax_statements.specs.Moves.{closed_at, pending_at, weight};

use crate::statements::{else_move, resume_body, resume_clause, resume_else};
use golf_base::{Boxed, Memory};
use golf_lex_tokens::Token;
use golf_syntax_trees::{
    Clause, OwnedClauses, OwnedCommunication, OwnedExpr, OwnedHeader, OwnedSimple, OwnedStmt,
    OwnedStmts, Stmt,
};
use std::alloc::Global;
use std::marker::Model;

/// The owner of statements in braces. The number is the line of the owner's first token.
pub enum Owner {
    /// none: the statements are a block
    Block(u32),
    /// `if first; test`
    If(u32, Option<OwnedSimple>, OwnedExpr),
    /// `for header`
    For(u32, OwnedHeader),
}

/// A `select`, as far as it has been read.
pub struct Select {
    pub line: u32,
    pub has_default: bool,
    pub clauses: OwnedClauses,
}

/// The head of a clause of `select`, with the line of its keyword. `default` has no communication.
pub struct Head {
    pub line: u32,
    pub communication: Option<OwnedCommunication>,
}

/// A construct that waits for a statement: the part of it before the statement.
#[derive(Drop)]
pub enum Pending {
    /// `owner { s; ..;`
    Body(Owner, OwnedStmts),
    /// `if first; test { .. } else`
    Else(u32, Option<OwnedSimple>, OwnedExpr, OwnedStmts),
    /// `select { .. head: s; ..;`
    Clause(Select, Head, OwnedStmts),
}

impl Drop for Owner {
    fn drop(self) {
        match self {
            Owner::Block(_) => {}
            Owner::If(_, _, _) => {}
            Owner::For(_, _) => {}
        }
    }
}

impl Drop for Select {
    fn drop(self) {
        let Select {
            line: _,
            has_default: _,
            clauses: _,
        } = self;
    }
}

impl Drop for Head {
    fn drop(self) {
        let Head {
            line: _,
            communication: _,
        } = self;
    }
}

/// A construct that waits for a statement, owned. It is in a box, since it is large to move.
pub struct OwnedPending {
    inner: Boxed<Pending>,
}

impl Model for OwnedPending {
    ghost use Rattle.golf_syntax_statements.specs.declared.pending.Pending.{Pending};
    ghost use Rattle.golf_syntax_statements.specs.contracts.pending.Pending as type_of_it;
    ghost use Rattle.std.specs.Coded.{codes};

    ghost Value = { Pending };

    ghost coded = { Prim.hlevel (codes, type_of_it.the_row.coded) };

    ghost view = { λ owner. owner.inner };
}

impl Drop for OwnedPending {
    fn drop(self) {
        let OwnedPending { inner } = self;
        drop(inner);
    }
}

impl OwnedPending {
    fn new(alloc: Global, inner: Pending) -> Result<OwnedPending, Memory>
        ensures { IfOk result (λ p. p ≡ inner) }
    {
        Ok(OwnedPending {
            inner: Boxed::new(alloc, inner)?,
        })
    }

    /// Returns statements in braces, which wait for their next statement.
    pub fn body(alloc: Global, owner: Owner, done: OwnedStmts) -> Result<OwnedPending, Memory>
        ensures { IfOk result (λ p. p ≡ Pending.Body owner done) }
    {
        OwnedPending::new(alloc, Pending::Body(owner, done))
    }

    /// Returns an `if`, which waits for the statement of its `else`.
    pub fn otherwise(
        alloc: Global,
        line: u32,
        first: Option<OwnedSimple>,
        test: OwnedExpr,
        done: OwnedStmts,
    ) -> Result<OwnedPending, Memory>
        ensures { IfOk result (λ p. p ≡ Pending.Else line first test done) }
    {
        OwnedPending::new(alloc, Pending::Else(line, first, test, done))
    }

    /// Returns a clause of a `select`, which waits for its next statement.
    pub fn clause(
        alloc: Global,
        select: Select,
        head: Head,
        done: OwnedStmts,
    ) -> Result<OwnedPending, Memory>
        ensures { IfOk result (λ p. p ≡ Pending.Clause select head done) }
    {
        OwnedPending::new(alloc, Pending::Clause(select, head, done))
    }

    /// Goes on with the construct, which now has the statement that it waited for.
    pub fn resume(
        self,
        alloc: Global,
        found: OwnedStmt,
        tokens: &[Token],
    ) -> Result<Option<(OwnedMove, &[Token])>, Memory>
        ensures value { IfOk result (λ o. moves_spec.moved o ≡ pending_at self (found, tokens.now)) }
        ensures less { IfOk result (λ o. IfSome o (λ x. weight x.0 + 8 * length x.1.now < 8 * length tokens.now + 3)) }
    {
        let OwnedPending { inner } = self;
        match inner.into_inner() {
            Pending::Body(owner, done) => resume_body(alloc, owner, done, found, tokens),
            Pending::Else(line, first, test, done) => {
                let whole = resume_else(alloc, line, first, test, done, found)?;
                Ok(Some((whole, tokens)))
            }
            Pending::Clause(select, head, done) => {
                resume_clause(alloc, select, head, done, found, tokens)
            }
        }
    }
}

/// How the reader goes on.
#[derive(Drop)]
pub enum Move {
    /// a statement is read
    Found(OwnedStmt),
    /// a statement is read next
    Seek,
    /// a construct waits for the statement that is read next
    Wait(OwnedPending),
    /// the remaining clauses of a `select` are read next
    Clauses(Select),
    /// the colon after the head of a clause is read next
    Headed(Select, Head),
}

/// How the reader goes on, owned. It is in a box, since it is large to move.
pub struct OwnedMove {
    inner: Boxed<Move>,
}

impl Model for OwnedMove {
    ghost use Rattle.golf_syntax_statements.specs.declared.pending.Move.{Move};
    ghost use Rattle.golf_syntax_statements.specs.contracts.pending.Move as type_of_it;
    ghost use Rattle.std.specs.Coded.{codes};

    ghost Value = { Move };

    ghost coded = { Prim.hlevel (codes, type_of_it.the_row.coded) };

    ghost view = { λ owner. owner.inner };
}

impl Drop for OwnedMove {
    fn drop(self) {
        let OwnedMove { inner } = self;
        drop(inner);
    }
}

impl OwnedMove {
    fn new(alloc: Global, inner: Move) -> Result<OwnedMove, Memory>
        ensures { IfOk result (λ m. m ≡ inner) }
    {
        Ok(OwnedMove {
            inner: Boxed::new(alloc, inner)?,
        })
    }

    /// Returns the move itself.
    pub fn into_inner(self) -> Move
        ensures { result ≡ self }
    {
        let OwnedMove { inner } = self;
        inner.into_inner()
    }

    /// Returns the move for a statement that is read.
    pub fn found(alloc: Global, found: OwnedStmt) -> Result<OwnedMove, Memory>
        ensures { IfOk result (λ m. m ≡ Move.Found found) }
    {
        OwnedMove::new(alloc, Move::Found(found))
    }

    /// Returns the move that reads a statement next.
    pub fn seek(alloc: Global) -> Result<OwnedMove, Memory>
        ensures { IfOk result (λ m. m ≡ Move.Seek) }
    {
        OwnedMove::new(alloc, Move::Seek)
    }

    /// Returns the move that reads a statement next, for which this construct waits.
    pub fn wait(alloc: Global, pending: OwnedPending) -> Result<OwnedMove, Memory>
        ensures { IfOk result (λ m. m ≡ Move.Wait pending) }
    {
        OwnedMove::new(alloc, Move::Wait(pending))
    }

    /// Returns the move that reads the remaining clauses of this `select` next.
    pub fn clauses(alloc: Global, select: Select) -> Result<OwnedMove, Memory>
        ensures { IfOk result (λ m. m ≡ Move.Clauses select) }
    {
        OwnedMove::new(alloc, Move::Clauses(select))
    }

    /// Returns the move that reads the colon after this head next.
    pub fn headed(alloc: Global, select: Select, head: Head) -> Result<OwnedMove, Memory>
        ensures { IfOk result (λ m. m ≡ Move.Headed select head) }
    {
        OwnedMove::new(alloc, Move::Headed(select, head))
    }
}

impl Head {
    // Returns whether a `select` has a `default` with this clause. `has_default` says whether it had one before.
    fn defaults(&self, has_default: bool) -> bool
        ensures { result ≡ moves_spec.defaults has_default self.now.communication }
    {
        match &self.communication {
            Some(_) => has_default,
            None => true,
        }
    }

    // Returns the clauses with this one added.
    fn added(self, clauses: OwnedClauses, body: OwnedStmts) -> Result<OwnedClauses, Memory>
        ensures { IfOk result (λ all. all ≡ clauses ++ moves_spec.clause_of self.line self.communication body ∷ []) }
    {
        let Head {
            line,
            communication,
        } = self;
        let mut all = clauses;
        match communication {
            Some(communication) => {
                all.push(Clause::Case(line, communication, body.into_inner()))?
            }
            None => all.push(Clause::Default(line, body.into_inner()))?,
        }
        Ok(all)
    }
}

impl Select {
    /// Returns the `select` with one more clause.
    pub fn grown(self, head: Head, body: OwnedStmts) -> Result<Select, Memory>
        ensures { IfOk result (λ s. s ≡ moves_spec.grown self head body) }
    {
        let Select {
            line,
            has_default,
            clauses,
        } = self;
        let has_default = head.defaults(has_default);
        let clauses = head.added(clauses, body)?;
        Ok(Select {
            line,
            has_default,
            clauses,
        })
    }

    /// Returns the statement of this `select` with its clauses.
    pub fn whole(self, alloc: Global) -> Result<OwnedStmt, Memory>
        ensures { IfOk result (λ s. s ≡ Stmt.Select self.line self.clauses) }
    {
        let Select {
            line,
            has_default: _,
            clauses,
        } = self;
        OwnedStmt::new(alloc, Stmt::Select(line, clauses.into_inner()))
    }
}

impl Owner {
    /// Goes on after the closing brace of the statements.
    #[tactic(auto, unfolding(crate::specs::Moves::closed_at))]
    pub fn closed(
        self,
        alloc: Global,
        done: OwnedStmts,
        tokens: &[Token],
    ) -> Result<Option<(OwnedMove, &[Token])>, Memory>
        ensures value { IfOk result (λ o. moves_spec.moved o ≡ closed_at self (done, tokens.now)) }
        ensures less { IfOk result (λ o. IfSome o (λ x. weight x.0 + 8 * length x.1.now ≤ 8 * length tokens.now)) }
    {
        match self {
            Owner::Block(line) => Ok(Some((
                OwnedMove::found(
                    alloc,
                    OwnedStmt::new(alloc, Stmt::Block(line, done.into_inner()))?,
                )?,
                tokens,
            ))),
            Owner::If(line, first, test) => else_move(alloc, line, first, test, done, tokens),
            Owner::For(line, header) => Ok(Some((
                OwnedMove::found(
                    alloc,
                    OwnedStmt::new(alloc, Stmt::For(line, header, done.into_inner()))?,
                )?,
                tokens,
            ))),
        }
    }
}
