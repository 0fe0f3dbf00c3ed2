//! The goals of the reader of expressions, and the constructs that wait for an expression.
//!
//! A `Pending` has the part of a construct that is before the expression, so that the reader needs
//! no recursion.

use golf_syntax_trees::{
    BinaryOperator, Name, OwnedElements, OwnedExpr, OwnedExprs, OwnedType, UnaryOperator,
};

/// A goal: what the reader reads next.
#[derive(Drop)]
pub enum Goal {
    /// an expression whose operators bind at least this tightly; the first field says whether it is
    /// in a header
    Level(bool, u8),
    /// an operand with the operators before it; the field says whether it is in a header
    Prefixed(bool),
    /// the suffixes after an operand
    Suffixes(OwnedExpr),
    /// operators that bind at least this tightly, after their left operand
    Climb(bool, u8, OwnedExpr),
}

/// A construct that waits for an expression: the part of it before the expression.
#[derive(Drop)]
pub enum Pending {
    /// `(`
    Group,
    /// `make(T,`
    Sized(OwnedType),
    /// `e[`
    Index(OwnedExpr),
    /// `f(e, ..,`
    Argument(OwnedExpr, OwnedExprs),
    /// `[]T{e, ..,`
    Item(OwnedType, OwnedExprs),
    /// `&T{f: e, .., g:`
    Element(Name, OwnedElements, Name),
    /// a unary operator
    Prefix(UnaryOperator),
    /// nothing, on a level: operators that bind at least this tightly can follow
    Level(bool, u8),
    /// a left operand and its operator, on a level
    Operand(bool, u8, OwnedExpr, BinaryOperator),
}

/// How the reader goes on.
#[derive(Drop)]
pub enum Move {
    /// an expression is read
    Found(OwnedExpr),
    Seek(Goal),
    /// a construct waits for what is read next
    Wait(Pending, Goal),
}
