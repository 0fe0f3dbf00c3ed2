//! Trees of the accepted language, and which of them reads a list of tokens.
//!
//! `specs/` says which words a tree prints, and which trees are well formed. A tree reads a file if
//! it prints the file's tokens and is well formed.
#![tactic(auto)]

mod branches;
mod builders;
mod declarations;
mod expressions;
mod left_operands;
mod owned;
mod owned_lists;
mod statements;
mod types;

pub use branches::behind_else;
pub use declarations::{Const, Decl, Field, File, Func, Import, Receiver};
pub use expressions::{BinaryOperator, Element, Expr, UnaryOperator};
pub use left_operands::{left_operand, spine};
pub use owned::{
    OwnedCommunication, OwnedDecl, OwnedExpr, OwnedHeader, OwnedSimple, OwnedSimpleKind, OwnedStmt,
    OwnedType, OwnedVar, OwnedVarContent,
};
pub use owned_lists::{OwnedClauses, OwnedDecls, OwnedElements, OwnedExprs, OwnedStmts};
pub use statements::{
    Clause, Communication, Header, RangeNames, Simple, SimpleKind, Stmt, UpdateOperator, Var,
    VarContent,
};
pub use types::{Name, TypeExpr};
