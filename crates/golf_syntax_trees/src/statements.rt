//! Statements (Go specification, "Statements").
//!
//! Each statement has the line of its first token, and each clause of a `select` the line of its keyword.

use crate::expressions::Expr;
use crate::owned::{
    OwnedCommunication, OwnedExpr, OwnedHeader, OwnedSimple, OwnedSimpleKind, OwnedType, OwnedVar,
    OwnedVarContent,
};
use crate::owned_lists::OwnedStmts;
use crate::types::{Name, TypeExpr};
use golf_base::{Boxed, List};

/// The operator of an assignment such as `x += e`.
#[derive(Clone, Copy, Debug, PartialEq, Eq)]
pub enum UpdateOperator {
    Add,
    Subtract,
    Multiply,
    Divide,
    Remainder,
}

/// A simple statement.
#[derive(Drop)]
pub struct Simple {
    pub line: u32,
    pub kind: OwnedSimpleKind,
}

/// The kind of a simple statement.
#[derive(Drop)]
pub enum SimpleKind {
    Expression(OwnedExpr),
    /// `channel <- value`
    Send(OwnedExpr, OwnedExpr),
    /// `place++`
    Increment(OwnedExpr),
    /// `place--`
    Decrement(OwnedExpr),
    /// `place = value`
    Assign(OwnedExpr, OwnedExpr),
    /// `place += value`
    Update(OwnedExpr, UpdateOperator, OwnedExpr),
    /// `name := value`
    Define(Name, OwnedExpr),
    /// `value, ok := <-channel`
    DefineReceived(Name, Name, OwnedExpr),
    /// `value, ok = <-channel`
    AssignReceived(Name, Name, OwnedExpr),
}

/// `var name T`, `var name T = value` or `var name = value`.
#[derive(Drop)]
pub struct Var {
    pub line: u32,
    pub name: Name,
    pub content: OwnedVarContent,
}

/// The initial value of a variable.
#[derive(Drop)]
pub enum VarContent {
    Zero(OwnedType),
    Typed(OwnedType, OwnedExpr),
    Untyped(OwnedExpr),
}

/// The header of a `for`: the part between the keyword and the body.
#[derive(Drop)]
pub enum Header {
    Forever,
    While(OwnedExpr),
    /// `init; condition; post`
    Steps(Option<OwnedSimple>, Option<OwnedExpr>, Option<OwnedSimple>),
    /// `names := range over`
    Range(RangeNames, OwnedExpr),
}

/// The names before `:= range`.
#[derive(Drop)]
pub enum RangeNames {
    Neither,
    One(Name),
    Two(Name, Name),
}

/// The communication of a clause of `select`.
#[derive(Drop)]
pub enum Communication {
    /// `channel <- value`
    Send(OwnedExpr, OwnedExpr),
    /// `<-channel`
    Receive(OwnedExpr),
    /// `name := <-channel`
    Define(Name, OwnedExpr),
    /// `name = <-channel`
    Assign(Name, OwnedExpr),
    /// `value, ok := <-channel`
    DefineReceived(Name, Name, OwnedExpr),
}

/// A statement.
#[cycle(statement)]
pub enum Stmt {
    Var(OwnedVar),
    Simple(OwnedSimple),
    /// `go callee(arguments)`
    Go(u32, OwnedExpr, List<Expr>),
    /// `defer callee(arguments)`
    Defer(u32, OwnedExpr, List<Expr>),
    Return(u32, Option<OwnedExpr>),
    Break(u32),
    Continue(u32),
    Block(u32, List<Stmt>),
    /// `if init; condition body`
    If(u32, Option<OwnedSimple>, OwnedExpr, List<Stmt>),
    /// `if init; condition body else otherwise`. The last is an `If`, an `IfElse` or a `Block`.
    IfElse(u32, Option<OwnedSimple>, OwnedExpr, List<Stmt>, Boxed<Stmt>),
    For(u32, OwnedHeader, List<Stmt>),
    Select(u32, List<Clause>),
}

// Nothing bounds the number of `else if` in one another, so the loop follows them. The cost of tokens bounds the depth
// of all other parts, so recursion drops them.
impl Drop for Stmt {
    #[cycle(statement)]
    fn drop(mut self) {
        loop {
            match self {
                Stmt::Var(variable) => return drop(variable),
                Stmt::Simple(simple) => return drop(simple),
                Stmt::Go(_, callee, arguments) | Stmt::Defer(_, callee, arguments) => {
                    drop(callee);
                    return drop(arguments);
                }
                Stmt::Return(_, value) => return drop(value),
                Stmt::Break(_) => return,
                Stmt::Continue(_) => return,
                Stmt::Block(_, body) => return drop(body),
                Stmt::If(_, first, test, body) => {
                    drop(first);
                    drop(test);
                    return drop(body);
                }
                Stmt::IfElse(_, first, test, body, otherwise) => {
                    drop(first);
                    drop(test);
                    drop(body);
                    self = otherwise.into_inner();
                }
                Stmt::For(_, header, body) => {
                    drop(header);
                    return drop(body);
                }
                Stmt::Select(_, clauses) => return drop(clauses),
            }
        }
    }
}

impl Stmt {
    ghost use Rattle.std.specs.Prelude.{◌≡◌};
    ghost use Rattle.golf_syntax_trees.specs.Parts.{statements_of};

    /// Returns the statements of a block, or `None` if it is no block.
    #[tactic(auto, using(crate::proofs::Parts::block_parts))]
    pub fn into_statements(self) -> Option<OwnedStmts>
        ensures { result ≡ statements_of self }
    {
        match self {
            Stmt::Block(_, statements) => Some(OwnedStmts::new(statements)),
            Stmt::Var(..)
            | Stmt::Simple(..)
            | Stmt::Go(..)
            | Stmt::Defer(..)
            | Stmt::Return(..)
            | Stmt::Break(..)
            | Stmt::Continue(..)
            | Stmt::If(..)
            | Stmt::IfElse(..)
            | Stmt::For(..)
            | Stmt::Select(..) => None,
        }
    }
}

/// A clause of `select`, with the line of its keyword.
#[derive(Drop)]
#[cycle(statement)]
pub enum Clause {
    Case(u32, OwnedCommunication, List<Stmt>),
    Default(u32, List<Stmt>),
}
