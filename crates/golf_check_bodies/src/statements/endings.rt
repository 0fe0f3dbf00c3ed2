//! Terminating statements (Go specification, "Terminating statements").
//!
//! The endings are computed from the tree alone, after the body of a function was judged. An ending says whether the
//! statement is terminating, and whether a `break` in it leaves the statement around it.

ghost use Rattle.std.specs.Prelude.{◌≡◌, ◌&&◌, not, map};
ghost use Rattle.std.specs.List.{list_all};
ghost use Rattle.golf_check_types.specs.Endings.{panics as panics_of, simple_ends as simple_ends_of};
ghost use Rattle.golf_check_types.specs.Endings.{is_endless as is_endless_of, of_all, ending as ending_of};
ghost use Rattle.golf_check_types.specs.Endings.{clause_ending};

use golf_check_types::Terminates;
use golf_syntax_trees::{Clause, Expr, Header, SimpleKind, Stmt};

// Returns whether an expression is the name `panic`, in brackets or not.
fn is_panic(e: &Expr) -> bool
    ensures { result ≡ (panics_of e.now).named }
{
    match e {
        Expr::Name(name) => name.as_slice() == b"panic".as_slice(),
        Expr::Parens(e) => is_panic(e.get()),
        _ => false,
    }
}

// Returns whether an expression is a call of `panic`, in brackets or not. A call of a call is none.
fn panics(e: &Expr) -> bool
    ensures { result ≡ (panics_of e.now).called }
{
    match e {
        Expr::Call(f, _) => is_panic(f.get()),
        Expr::Parens(e) => panics(e.get()),
        _ => false,
    }
}

// Returns whether a simple statement is a call of `panic`.
fn simple_ends(kind: &SimpleKind) -> bool
    ensures { result ≡ simple_ends_of kind.now }
{
    match kind {
        SimpleKind::Expression(e) => panics(e.get()),
        _ => false,
    }
}

// Returns whether a loop has no condition and no `range`.
fn is_endless(header: &Header) -> bool
    ensures { result ≡ is_endless_of header.now }
{
    match header {
        Header::Forever => true,
        Header::Steps(_, test, _) => test.is_none(),
        _ => false,
    }
}

/// Returns the ending of statements in order.
#[cycle(ending)]
pub fn all_ending(stmts: &[Stmt]) -> Terminates
    ensures { result ≡ of_all (map ending_of stmts.now) }
{
    let mut found = Terminates {
        ends: false,
        breaks: false,
    };
    for stmt in stmts {
        let next = ending_at(stmt);
        found = Terminates {
            ends: next.ends,
            breaks: found.breaks || next.breaks,
        };
    }
    found
}

// Returns whether each clause of a `select` ends, and no clause has a `break` that leaves it.
#[cycle(ending)]
fn clauses_end(clauses: &[Clause]) -> bool
    ensures { result ≡ list_all (λ c. c.ends && not c.breaks) (map clause_ending clauses.now) }
{
    for clause in clauses {
        let found = clause_at(clause);
        if !found.ends || found.breaks {
            return false;
        }
    }
    true
}

// Returns the ending of the statements of a clause.
#[cycle(ending)]
fn clause_at(clause: &Clause) -> Terminates
    ensures { result ≡ clause_ending clause.now }
{
    match clause {
        Clause::Case(_, _, body) => all_ending(body.as_slice()),
        Clause::Default(_, body) => all_ending(body.as_slice()),
    }
}

// Returns the ending of the statement after `else`. A loop follows each `else if`, since nothing bounds their number.
#[cycle(ending)]
#[tactic(auto, using(crate::proofs::EndingBranches::branch_steps))]
fn otherwise_at(otherwise: &Stmt) -> Terminates
    ensures { result ≡ ending_of otherwise.now }
{
    let mut found = Terminates {
        ends: true,
        breaks: false,
    };
    let mut last = otherwise;
    'branches: while let Stmt::IfElse(_, _, _, body, next) = last {
        let branch = all_ending(body.as_slice());
        found = Terminates {
            ends: found.ends && branch.ends,
            breaks: found.breaks || branch.breaks,
        };
        last = next.get();
    }
    let rest = ending_at(last);
    Terminates {
        ends: found.ends && rest.ends,
        breaks: found.breaks || rest.breaks,
    }
}

// Returns the ending of a statement.
#[cycle(ending)]
fn ending_at(stmt: &Stmt) -> Terminates
    ensures { result ≡ ending_of stmt.now }
{
    match stmt {
        Stmt::Simple(simple) => Terminates {
            ends: simple_ends(simple.get().kind.get()),
            breaks: false,
        },
        Stmt::Return(_, _) => Terminates {
            ends: true,
            breaks: false,
        },
        Stmt::Break(_) => Terminates {
            ends: false,
            breaks: true,
        },
        Stmt::Block(_, body) => all_ending(body.as_slice()),
        Stmt::If(_, _, _, body) => Terminates {
            ends: false,
            breaks: all_ending(body.as_slice()).breaks,
        },
        Stmt::IfElse(_, _, _, body, otherwise) => {
            let first = all_ending(body.as_slice());
            let second = otherwise_at(otherwise.get());
            Terminates {
                ends: first.ends && second.ends,
                breaks: first.breaks || second.breaks,
            }
        }
        Stmt::For(_, header, body) => Terminates {
            ends: is_endless(header.get()) && !all_ending(body.as_slice()).breaks,
            breaks: false,
        },
        Stmt::Select(_, clauses) => Terminates {
            ends: clauses_end(clauses.as_slice()),
            breaks: false,
        },
        _ => Terminates {
            ends: false,
            breaks: false,
        },
    }
}
