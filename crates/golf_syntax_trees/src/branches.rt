//! The way along the branches of an `if`: `if .. else if .. else ..`.
//!
//! Nothing bounds the number of branches, so the code that reads statements follows them by a loop over `behind_else`.

ghost use Rattle.std.specs.Prelude.{◌≡◌};
ghost use Rattle.golf_syntax_trees.specs.declared.statements.Stmt.{out-Stmt, size-Stmt};
ghost use Rattle.golf_syntax_trees.specs.Elses.{else_of, IsShorter};

use crate::statements::Stmt;

/// Returns the statement after the `else` of an `if`, or the statement itself if it has none.
#[tactic(auto, unfolding(crate::specs::Elses::else_of))]
pub fn behind_else(stmt: &Stmt) -> &Stmt
    ensures is { result.now ≡ else_of stmt.now }
    ensures smaller { IsShorter (out-Stmt stmt.now) (size-Stmt result.now) (size-Stmt stmt.now) }
{
    match stmt {
        Stmt::IfElse(_, _, _, _, otherwise) => otherwise.get(),
        Stmt::Var(_) => stmt,
        Stmt::Simple(_) => stmt,
        Stmt::Go(_, _, _) => stmt,
        Stmt::Defer(_, _, _) => stmt,
        Stmt::Return(_, _) => stmt,
        Stmt::Break(_) => stmt,
        Stmt::Continue(_) => stmt,
        Stmt::Block(_, _) => stmt,
        Stmt::If(_, _, _, _) => stmt,
        Stmt::For(_, _, _) => stmt,
        Stmt::Select(_, _) => stmt,
    }
}
