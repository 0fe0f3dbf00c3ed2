//! Owned trees, each behind a type that contracts see as the tree itself.
//!
//! A tree by value is laid out in full in each proof that holds it. Its drop is expensive to prove at each place where
//! it happens. An owner keeps both in this crate, and a proof elsewhere sees a value and a call. So code that makes
//! trees holds owners, code that reads them takes references, and only this crate drops them.

ghost use Rattle.std.specs.Prelude.{◌≡◌, IfOk};

use crate::declarations::Decl;
use crate::expressions::Expr;
use crate::statements::{Communication, Header, Simple, SimpleKind, Stmt, Var, VarContent};
use crate::types::TypeExpr;
use golf_base::{Boxed, Memory};
use std::alloc::Global;
use std::marker::Model;

/// A type, owned.
pub struct OwnedType {
    inner: TypeExpr,
}

impl Model for OwnedType {
    ghost use Rattle.golf_syntax_trees.specs.declared.types.TypeExpr.{TypeExpr};
    ghost use Rattle.golf_syntax_trees.specs.contracts.types.TypeExpr as type_of_tree;
    ghost use Rattle.std.specs.Coded.{codes};

    ghost Value = { TypeExpr };

    ghost coded = { Prim.hlevel (codes, type_of_tree.the_row.coded) };

    ghost view = { λ owner. owner.inner };
}

impl Drop for OwnedType {
    fn drop(self) {
        let OwnedType { inner } = self;
        drop(inner);
    }
}

impl OwnedType {
    /// Returns a type that frees itself when it is dropped.
    pub fn new(inner: TypeExpr) -> OwnedType
        ensures { result ≡ inner }
    {
        OwnedType { inner }
    }

    /// Lends the tree.
    pub fn get(&self) -> &TypeExpr
        ensures { result.now ≡ self.now }
    {
        &self.inner
    }

    /// Returns the tree itself.
    pub fn into_inner(self) -> TypeExpr
        ensures { result ≡ self }
    {
        let OwnedType { inner } = self;
        inner
    }
}

/// An expression, owned.
pub struct OwnedExpr {
    inner: Expr,
}

impl Model for OwnedExpr {
    ghost use Rattle.golf_syntax_trees.specs.declared.expressions.Expr.{Expr};
    ghost use Rattle.golf_syntax_trees.specs.contracts.expressions.Expr as type_of_tree;
    ghost use Rattle.std.specs.Coded.{codes};

    ghost Value = { Expr };

    ghost coded = { Prim.hlevel (codes, type_of_tree.the_row.coded) };

    ghost view = { λ owner. owner.inner };
}

impl Drop for OwnedExpr {
    fn drop(self) {
        let OwnedExpr { inner } = self;
        drop(inner);
    }
}

impl OwnedExpr {
    /// Returns an expression that frees itself when it is dropped.
    pub fn new(inner: Expr) -> OwnedExpr
        ensures { result ≡ inner }
    {
        OwnedExpr { inner }
    }

    /// Lends the tree.
    pub fn get(&self) -> &Expr
        ensures { result.now ≡ self.now }
    {
        &self.inner
    }

    /// Returns the tree itself.
    pub fn into_inner(self) -> Expr
        ensures { result ≡ self }
    {
        let OwnedExpr { inner } = self;
        inner
    }
}

/// The kind of a simple statement, owned.
pub struct OwnedSimpleKind {
    inner: SimpleKind,
}

impl Model for OwnedSimpleKind {
    ghost use Rattle.golf_syntax_trees.specs.declared.statements.SimpleKind.{SimpleKind};
    ghost use Rattle.golf_syntax_trees.specs.contracts.statements.SimpleKind as type_of_tree;
    ghost use Rattle.std.specs.Coded.{codes};

    ghost Value = { SimpleKind };

    ghost coded = { Prim.hlevel (codes, type_of_tree.the_row.coded) };

    ghost view = { λ owner. owner.inner };
}

impl Drop for OwnedSimpleKind {
    fn drop(self) {
        let OwnedSimpleKind { inner } = self;
        drop(inner);
    }
}

impl OwnedSimpleKind {
    /// Returns a kind of simple statement that frees itself when it is dropped.
    pub fn new(inner: SimpleKind) -> OwnedSimpleKind
        ensures { result ≡ inner }
    {
        OwnedSimpleKind { inner }
    }

    /// Lends the tree.
    pub fn get(&self) -> &SimpleKind
        ensures { result.now ≡ self.now }
    {
        &self.inner
    }

    /// Returns the tree itself.
    pub fn into_inner(self) -> SimpleKind
        ensures { result ≡ self }
    {
        let OwnedSimpleKind { inner } = self;
        inner
    }
}

/// A simple statement, owned.
pub struct OwnedSimple {
    inner: Simple,
}

impl Model for OwnedSimple {
    ghost use Rattle.golf_syntax_trees.specs.declared.statements.Simple.{Simple};
    ghost use Rattle.golf_syntax_trees.specs.contracts.statements.Simple as type_of_tree;
    ghost use Rattle.std.specs.Coded.{codes};

    ghost Value = { Simple };

    ghost coded = { Prim.hlevel (codes, type_of_tree.the_row.coded) };

    ghost view = { λ owner. owner.inner };
}

impl Drop for OwnedSimple {
    fn drop(self) {
        let OwnedSimple { inner } = self;
        drop(inner);
    }
}

impl OwnedSimple {
    /// Returns a simple statement that frees itself when it is dropped.
    pub fn new(inner: Simple) -> OwnedSimple
        ensures { result ≡ inner }
    {
        OwnedSimple { inner }
    }

    /// Lends the tree.
    pub fn get(&self) -> &Simple
        ensures { result.now ≡ self.now }
    {
        &self.inner
    }

    /// Returns the tree itself.
    pub fn into_inner(self) -> Simple
        ensures { result ≡ self }
    {
        let OwnedSimple { inner } = self;
        inner
    }
}

/// The initial value of a variable, owned.
pub struct OwnedVarContent {
    inner: VarContent,
}

impl Model for OwnedVarContent {
    ghost use Rattle.golf_syntax_trees.specs.declared.statements.VarContent.{VarContent};
    ghost use Rattle.golf_syntax_trees.specs.contracts.statements.VarContent as type_of_tree;
    ghost use Rattle.std.specs.Coded.{codes};

    ghost Value = { VarContent };

    ghost coded = { Prim.hlevel (codes, type_of_tree.the_row.coded) };

    ghost view = { λ owner. owner.inner };
}

impl Drop for OwnedVarContent {
    fn drop(self) {
        let OwnedVarContent { inner } = self;
        drop(inner);
    }
}

impl OwnedVarContent {
    /// Returns a content of a variable declaration that frees itself when it is dropped.
    pub fn new(inner: VarContent) -> OwnedVarContent
        ensures { result ≡ inner }
    {
        OwnedVarContent { inner }
    }

    /// Lends the tree.
    pub fn get(&self) -> &VarContent
        ensures { result.now ≡ self.now }
    {
        &self.inner
    }

    /// Returns the tree itself.
    pub fn into_inner(self) -> VarContent
        ensures { result ≡ self }
    {
        let OwnedVarContent { inner } = self;
        inner
    }
}

/// A variable, owned.
pub struct OwnedVar {
    inner: Var,
}

impl Model for OwnedVar {
    ghost use Rattle.golf_syntax_trees.specs.declared.statements.Var.{Var};
    ghost use Rattle.golf_syntax_trees.specs.contracts.statements.Var as type_of_tree;
    ghost use Rattle.std.specs.Coded.{codes};

    ghost Value = { Var };

    ghost coded = { Prim.hlevel (codes, type_of_tree.the_row.coded) };

    ghost view = { λ owner. owner.inner };
}

impl Drop for OwnedVar {
    fn drop(self) {
        let OwnedVar { inner } = self;
        drop(inner);
    }
}

impl OwnedVar {
    /// Returns a variable declaration that frees itself when it is dropped.
    pub fn new(inner: Var) -> OwnedVar
        ensures { result ≡ inner }
    {
        OwnedVar { inner }
    }

    /// Lends the tree.
    pub fn get(&self) -> &Var
        ensures { result.now ≡ self.now }
    {
        &self.inner
    }

    /// Returns the tree itself.
    pub fn into_inner(self) -> Var
        ensures { result ≡ self }
    {
        let OwnedVar { inner } = self;
        inner
    }
}

/// The header of a `for`, owned.
pub struct OwnedHeader {
    inner: Header,
}

impl Model for OwnedHeader {
    ghost use Rattle.golf_syntax_trees.specs.declared.statements.Header.{Header};
    ghost use Rattle.golf_syntax_trees.specs.contracts.statements.Header as type_of_tree;
    ghost use Rattle.std.specs.Coded.{codes};

    ghost Value = { Header };

    ghost coded = { Prim.hlevel (codes, type_of_tree.the_row.coded) };

    ghost view = { λ owner. owner.inner };
}

impl Drop for OwnedHeader {
    fn drop(self) {
        let OwnedHeader { inner } = self;
        drop(inner);
    }
}

impl OwnedHeader {
    /// Returns a header of a loop that frees itself when it is dropped.
    pub fn new(inner: Header) -> OwnedHeader
        ensures { result ≡ inner }
    {
        OwnedHeader { inner }
    }

    /// Lends the tree.
    pub fn get(&self) -> &Header
        ensures { result.now ≡ self.now }
    {
        &self.inner
    }

    /// Returns the tree itself.
    pub fn into_inner(self) -> Header
        ensures { result ≡ self }
    {
        let OwnedHeader { inner } = self;
        inner
    }
}

/// The communication of a clause, owned.
pub struct OwnedCommunication {
    inner: Communication,
}

impl Model for OwnedCommunication {
    ghost use Rattle.golf_syntax_trees.specs.declared.statements.Communication.{Communication};
    ghost use Rattle.golf_syntax_trees.specs.contracts.statements.Communication as type_of_tree;
    ghost use Rattle.std.specs.Coded.{codes};

    ghost Value = { Communication };

    ghost coded = { Prim.hlevel (codes, type_of_tree.the_row.coded) };

    ghost view = { λ owner. owner.inner };
}

impl Drop for OwnedCommunication {
    fn drop(self) {
        let OwnedCommunication { inner } = self;
        drop(inner);
    }
}

impl OwnedCommunication {
    /// Returns a communication that frees itself when it is dropped.
    pub fn new(inner: Communication) -> OwnedCommunication
        ensures { result ≡ inner }
    {
        OwnedCommunication { inner }
    }

    /// Lends the tree.
    pub fn get(&self) -> &Communication
        ensures { result.now ≡ self.now }
    {
        &self.inner
    }

    /// Returns the tree itself.
    pub fn into_inner(self) -> Communication
        ensures { result ≡ self }
    {
        let OwnedCommunication { inner } = self;
        inner
    }
}

/// A statement, owned. It is in a box, since it is large to move.
pub struct OwnedStmt {
    inner: Boxed<Stmt>,
}

impl Model for OwnedStmt {
    ghost use Rattle.golf_syntax_trees.specs.declared.statements.Stmt.{Stmt};
    ghost use Rattle.golf_syntax_trees.specs.contracts.statements.Stmt as type_of_tree;
    ghost use Rattle.std.specs.Coded.{codes};

    ghost Value = { Stmt };

    ghost coded = { Prim.hlevel (codes, type_of_tree.the_row.coded) };

    ghost view = { λ owner. owner.inner };
}

impl Drop for OwnedStmt {
    fn drop(self) {
        let OwnedStmt { inner } = self;
        drop(inner);
    }
}

impl OwnedStmt {
    /// Returns a statement that frees itself when it is dropped. `Err` if memory is refused.
    pub fn new(alloc: Global, inner: Stmt) -> Result<OwnedStmt, Memory>
        ensures { IfOk result (λ s. s ≡ inner) }
    {
        Ok(OwnedStmt {
            inner: Boxed::new(alloc, inner)?,
        })
    }

    /// Lends the tree.
    pub fn get(&self) -> &Stmt
        ensures { result.now ≡ self.now }
    {
        self.inner.get()
    }

    /// Returns the tree itself.
    pub fn into_inner(self) -> Stmt
        ensures { result ≡ self }
    {
        let OwnedStmt { inner } = self;
        inner.into_inner()
    }

    /// Returns the statement in a box, as an `else` holds it.
    pub fn boxed(self) -> Boxed<Stmt>
        ensures { result ≡ self }
    {
        let OwnedStmt { inner } = self;
        inner
    }
}

/// A declaration, owned.
pub struct OwnedDecl {
    inner: Decl,
}

impl Model for OwnedDecl {
    ghost use Rattle.golf_syntax_trees.specs.declared.declarations.Decl.{Decl};
    ghost use Rattle.golf_syntax_trees.specs.contracts.declarations.Decl as type_of_tree;
    ghost use Rattle.std.specs.Coded.{codes};

    ghost Value = { Decl };

    ghost coded = { Prim.hlevel (codes, type_of_tree.the_row.coded) };

    ghost view = { λ owner. owner.inner };
}

impl Drop for OwnedDecl {
    fn drop(self) {
        let OwnedDecl { inner } = self;
        drop(inner);
    }
}

impl OwnedDecl {
    /// Returns a declaration that frees itself when it is dropped.
    pub fn new(inner: Decl) -> OwnedDecl
        ensures { result ≡ inner }
    {
        OwnedDecl { inner }
    }

    /// Lends the tree.
    pub fn get(&self) -> &Decl
        ensures { result.now ≡ self.now }
    {
        &self.inner
    }

    /// Returns the tree itself.
    pub fn into_inner(self) -> Decl
        ensures { result ≡ self }
    {
        let OwnedDecl { inner } = self;
        inner
    }
}
