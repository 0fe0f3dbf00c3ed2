//! Builders of types and expressions from their parts, each in one call.
//!
//! Each takes owned parts and returns an owned tree, so that readers hold no tree by value.

ghost use Rattle.std.specs.Prelude.{◌≡◌, IfOk};

use crate::expressions::{BinaryOperator, Expr, UnaryOperator};
use crate::owned::{OwnedExpr, OwnedType};
use crate::owned_lists::{OwnedElements, OwnedExprs};
use crate::types::{Name, TypeExpr};
use golf_base::{Boxed, List, Memory};
use std::alloc::Global;

impl OwnedType {
    /// Builds the type with a name: `T`.
    pub fn named(name: Name) -> OwnedType
        ensures { result ≡ TypeExpr.Named name }
    {
        OwnedType::new(TypeExpr::Named(name))
    }

    /// Builds a pointer type: `*T`.
    pub fn pointer(name: Name) -> OwnedType
        ensures { result ≡ TypeExpr.Pointer name }
    {
        OwnedType::new(TypeExpr::Pointer(name))
    }

    /// Builds a pointer to a type of package sync: `*sync.T`.
    pub fn sync_pointer(name: Name) -> OwnedType
        ensures { result ≡ TypeExpr.SyncPointer name }
    {
        OwnedType::new(TypeExpr::SyncPointer(name))
    }

    /// Builds the type `struct{}`.
    pub fn empty_struct() -> OwnedType
        ensures { result ≡ TypeExpr.EmptyStruct }
    {
        OwnedType::new(TypeExpr::EmptyStruct)
    }

    /// Builds a slice type: `[]T`. `Err` if memory is refused.
    pub fn slice(alloc: Global, inner: OwnedType) -> Result<OwnedType, Memory>
        ensures { IfOk result (λ t. t ≡ TypeExpr.Slice inner) }
    {
        Ok(OwnedType::new(TypeExpr::Slice(Boxed::new(alloc, inner.into_inner())?)))
    }

    /// Builds a channel type: `chan T`. `Err` if memory is refused.
    pub fn chan(alloc: Global, inner: OwnedType) -> Result<OwnedType, Memory>
        ensures { IfOk result (λ t. t ≡ TypeExpr.Chan inner) }
    {
        Ok(OwnedType::new(TypeExpr::Chan(Boxed::new(alloc, inner.into_inner())?)))
    }

    /// Builds the type of a channel that is only sent to: `chan<- T`. `Err` if memory is refused.
    pub fn send_chan(alloc: Global, inner: OwnedType) -> Result<OwnedType, Memory>
        ensures { IfOk result (λ t. t ≡ TypeExpr.SendChan inner) }
    {
        Ok(OwnedType::new(TypeExpr::SendChan(Boxed::new(alloc, inner.into_inner())?)))
    }

    /// Builds the type of a channel that is only received from: `<-chan T`. `Err` if memory is refused.
    pub fn receive_chan(alloc: Global, inner: OwnedType) -> Result<OwnedType, Memory>
        ensures { IfOk result (λ t. t ≡ TypeExpr.ReceiveChan inner) }
    {
        Ok(OwnedType::new(TypeExpr::ReceiveChan(Boxed::new(alloc, inner.into_inner())?)))
    }
}

impl OwnedExpr {
    /// Builds an integer literal.
    pub fn integer(digits: List<u8>) -> OwnedExpr
        ensures { result ≡ Expr.Integer digits }
    {
        OwnedExpr::new(Expr::Integer(digits))
    }

    /// Builds a string literal, from the bytes between its quotes.
    pub fn text(bytes: List<u8>) -> OwnedExpr
        ensures { result ≡ Expr.Text bytes }
    {
        OwnedExpr::new(Expr::Text(bytes))
    }

    /// Builds a name as an expression.
    pub fn name(name: Name) -> OwnedExpr
        ensures { result ≡ Expr.Name name }
    {
        OwnedExpr::new(Expr::Name(name))
    }

    /// Builds the literal `sync.T{}`.
    pub fn sync_literal(name: Name) -> OwnedExpr
        ensures { result ≡ Expr.SyncLiteral name }
    {
        OwnedExpr::new(Expr::SyncLiteral(name))
    }

    /// Builds the literal `struct{}{}`.
    pub fn empty_literal() -> OwnedExpr
        ensures { result ≡ Expr.EmptyLiteral }
    {
        OwnedExpr::new(Expr::EmptyLiteral)
    }

    /// Builds the call `new(T)`.
    pub fn new_of(name: Name) -> OwnedExpr
        ensures { result ≡ Expr.New name }
    {
        OwnedExpr::new(Expr::New(name))
    }

    /// Builds the call `new(sync.T)`.
    pub fn new_sync(name: Name) -> OwnedExpr
        ensures { result ≡ Expr.NewSync name }
    {
        OwnedExpr::new(Expr::NewSync(name))
    }

    /// Builds the call `make(T)`.
    pub fn make(made: OwnedType) -> OwnedExpr
        ensures { result ≡ Expr.Make made }
    {
        OwnedExpr::new(Expr::Make(made))
    }

    /// Builds a literal of a struct: `T{field: value, ..}`.
    pub fn struct_literal(name: Name, elements: OwnedElements) -> OwnedExpr
        ensures { result ≡ Expr.StructLiteral name elements }
    {
        OwnedExpr::new(Expr::StructLiteral(name, elements.into_inner()))
    }

    /// Builds a literal of a slice: `[]T{value, ..}`.
    pub fn slice_literal(element: OwnedType, items: OwnedExprs) -> OwnedExpr
        ensures { result ≡ Expr.SliceLiteral element items }
    {
        OwnedExpr::new(Expr::SliceLiteral(element, items.into_inner()))
    }

    /// Builds an expression in parentheses. `Err` if memory is refused.
    pub fn parens(alloc: Global, inner: OwnedExpr) -> Result<OwnedExpr, Memory>
        ensures { IfOk result (λ e. e ≡ Expr.Parens inner) }
    {
        Ok(OwnedExpr::new(Expr::Parens(inner.boxed(alloc)?)))
    }

    /// Builds the call `make(T, size)`. `Err` if memory is refused.
    pub fn make_sized(alloc: Global, made: OwnedType, size: OwnedExpr) -> Result<OwnedExpr, Memory>
        ensures { IfOk result (λ e. e ≡ Expr.MakeSized made size) }
    {
        Ok(OwnedExpr::new(Expr::MakeSized(made, size.boxed(alloc)?)))
    }

    /// Builds a selector: `base.name`. `Err` if memory is refused.
    pub fn selector(alloc: Global, base: OwnedExpr, name: Name) -> Result<OwnedExpr, Memory>
        ensures { IfOk result (λ e. e ≡ Expr.Selector base name) }
    {
        Ok(OwnedExpr::new(Expr::Selector(base.boxed(alloc)?, name)))
    }

    /// Builds an index expression: `base[place]`. `Err` if memory is refused.
    pub fn index(alloc: Global, base: OwnedExpr, place: OwnedExpr) -> Result<OwnedExpr, Memory>
        ensures { IfOk result (λ e. e ≡ Expr.Index base place) }
    {
        let base = base.boxed(alloc)?;
        let place = place.boxed(alloc)?;
        Ok(OwnedExpr::new(Expr::Index(base, place)))
    }

    /// Builds a call: `called(arguments)`. `Err` if memory is refused.
    pub fn call(
        alloc: Global,
        callee: OwnedExpr,
        arguments: OwnedExprs,
    ) -> Result<OwnedExpr, Memory>
        ensures { IfOk result (λ e. e ≡ Expr.Call callee arguments) }
    {
        let callee = callee.boxed(alloc)?;
        Ok(OwnedExpr::new(Expr::Call(callee, arguments.into_inner())))
    }

    /// Builds a unary operator with its operand. `Err` if memory is refused.
    pub fn unary(
        alloc: Global,
        operator: UnaryOperator,
        operand: OwnedExpr,
    ) -> Result<OwnedExpr, Memory>
        ensures { IfOk result (λ e. e ≡ Expr.Unary operator operand) }
    {
        Ok(OwnedExpr::new(Expr::Unary(operator, operand.boxed(alloc)?)))
    }

    /// Builds a binary operator with its two operands. `Err` if memory is refused.
    pub fn binary(
        alloc: Global,
        operator: BinaryOperator,
        left: OwnedExpr,
        right: OwnedExpr,
    ) -> Result<OwnedExpr, Memory>
        ensures { IfOk result (λ e. e ≡ Expr.Binary operator left right) }
    {
        let left = left.boxed(alloc)?;
        let right = right.boxed(alloc)?;
        Ok(OwnedExpr::new(Expr::Binary(operator, left, right)))
    }

    fn boxed(self, alloc: Global) -> Result<Boxed<Expr>, Memory>
        ensures { IfOk result (λ b. b ≡ self) }
    {
        Boxed::new(alloc, self.into_inner())
    }
}
