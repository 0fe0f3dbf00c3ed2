//! Expressions (Go specification, "Expressions").
//!
//! Parentheses are nodes of their own, so that a tree prints exactly the tokens from which it was read. An expression
//! has no line: the statement around it has one.

use crate::owned::OwnedType;
use crate::types::{Name, TypeExpr};
use golf_base::{Boxed, List};

/// An operator before its operand.
#[derive(Clone, Copy, Debug, PartialEq, Eq)]
pub enum UnaryOperator {
    Negate,
    Not,
    Receive,
}

/// An operator between two operands.
#[derive(Clone, Copy, Debug, PartialEq, Eq)]
pub enum BinaryOperator {
    Or,
    And,
    Equal,
    NotEqual,
    Less,
    AtMost,
    Greater,
    AtLeast,
    Add,
    Subtract,
    Multiply,
    Divide,
    Remainder,
}

/// An expression.
#[cycle(expression)]
pub enum Expr {
    /// The digits of an integer literal. It may be too large for an `int`.
    Integer(List<u8>),
    /// The bytes for which a string literal stands.
    Text(List<u8>),
    Name(Name),
    /// `(e)`
    Parens(Boxed<Expr>),
    /// `&T{f: e, ..}`
    StructLiteral(Name, List<Element>),
    /// `&sync.T{}`
    SyncLiteral(Name),
    /// `[]T{e, ..}`
    SliceLiteral(OwnedType, List<Expr>),
    /// `struct{}{}`
    EmptyLiteral,
    /// `make(T)`
    Make(OwnedType),
    /// `make(T, e)`
    MakeSized(OwnedType, Boxed<Expr>),
    /// `new(T)`
    New(Name),
    /// `new(sync.T)`
    NewSync(Name),
    /// `e.f`
    Selector(Boxed<Expr>, Name),
    /// `e[i]`
    Index(Boxed<Expr>, Boxed<Expr>),
    /// `f(e, ..)`
    Call(Boxed<Expr>, List<Expr>),
    Unary(UnaryOperator, Boxed<Expr>),
    Binary(BinaryOperator, Boxed<Expr>, Boxed<Expr>),
}

// Nothing bounds the number of left operands in one another, so the loop drops them. The cost of tokens bounds the
// depth of all other parts, so recursion drops them.
impl Drop for Expr {
    #[cycle(expression)]
    fn drop(mut self) {
        loop {
            match self {
                Expr::Integer(digits) => return drop(digits),
                Expr::Text(bytes) => return drop(bytes),
                Expr::Name(name) => return drop(name),
                Expr::Parens(inner) => self = inner.into_inner(),
                Expr::StructLiteral(name, elements) => {
                    drop(name);
                    return drop(elements);
                }
                Expr::SyncLiteral(name) => return drop(name),
                Expr::SliceLiteral(element, items) => {
                    drop(element);
                    return drop(items);
                }
                Expr::EmptyLiteral => return,
                Expr::Make(made) => return drop(made),
                Expr::MakeSized(made, size) => {
                    drop(made);
                    self = size.into_inner();
                }
                Expr::New(name) => return drop(name),
                Expr::NewSync(name) => return drop(name),
                Expr::Selector(left, name) => {
                    drop(name);
                    self = left.into_inner();
                }
                Expr::Index(left, place) => {
                    drop(place);
                    self = left.into_inner();
                }
                Expr::Call(left, arguments) => {
                    drop(arguments);
                    self = left.into_inner();
                }
                Expr::Unary(_, inner) => self = inner.into_inner(),
                Expr::Binary(_, left, right) => {
                    drop(right);
                    self = left.into_inner();
                }
            }
        }
    }
}

impl Expr {
    ghost use Rattle.std.specs.Prelude.{◌≡◌};
    ghost use Rattle.golf_syntax_trees.specs.Parts.{call_of, channel_of};

    /// Returns callee and arguments of a call, or `None` if it is no call.
    #[tactic(auto, using(crate::proofs::Parts::call_parts))]
    pub fn into_call(self) -> Option<(Boxed<Expr>, List<Expr>)>
        ensures { result ≡ call_of self }
    {
        match self {
            Expr::Call(callee, arguments) => Some((callee, arguments)),
            Expr::Integer(..)
            | Expr::Text(..)
            | Expr::Name(..)
            | Expr::Parens(..)
            | Expr::StructLiteral(..)
            | Expr::SyncLiteral(..)
            | Expr::SliceLiteral(..)
            | Expr::Make(..)
            | Expr::MakeSized(..)
            | Expr::New(..)
            | Expr::NewSync(..)
            | Expr::Selector(..)
            | Expr::Index(..)
            | Expr::Unary(..)
            | Expr::Binary(..) => None,
            Expr::EmptyLiteral => None,
        }
    }

    /// Returns the channel of a receive, or `None` if it is no receive.
    #[tactic(auto, using(crate::proofs::Parts::channel_parts))]
    pub fn into_channel(self) -> Option<Boxed<Expr>>
        ensures { result ≡ channel_of self }
    {
        match self {
            Expr::Unary(operator, channel) => match operator {
                UnaryOperator::Receive => Some(channel),
                UnaryOperator::Negate | UnaryOperator::Not => {
                    drop(channel);
                    None
                }
            },
            Expr::Integer(..)
            | Expr::Text(..)
            | Expr::Name(..)
            | Expr::Parens(..)
            | Expr::StructLiteral(..)
            | Expr::SyncLiteral(..)
            | Expr::SliceLiteral(..)
            | Expr::Make(..)
            | Expr::MakeSized(..)
            | Expr::New(..)
            | Expr::NewSync(..)
            | Expr::Selector(..)
            | Expr::Index(..)
            | Expr::Call(..)
            | Expr::Binary(..) => None,
            Expr::EmptyLiteral => None,
        }
    }
}

/// `f: e` in a struct literal.
#[derive(Drop)]
#[cycle(expression)]
pub struct Element {
    pub field: Name,
    pub value: Expr,
}
