//! Owned lists of trees, each behind a type that contracts see as the list itself.
//!
//! As for single trees (`owned.rt`), only this crate drops them. A push that returns `Err` leaves
//! the list as it was.

ghost use Rattle.std.specs.Prelude.{◌≡◌, ◌∷◌, ◌++◌, [], IfOk, OnOk, OnErr};

use crate::declarations::Decl;
use crate::expressions::{Element, Expr};
use crate::owned::{OwnedDecl, OwnedExpr, OwnedStmt};
use crate::statements::{Clause, Stmt};
use crate::types::Name;
use golf_base::{List, Memory};
use std::alloc::Global;
use std::marker::Model;

/// A list of expressions, owned.
pub struct OwnedExprs {
    inner: List<Expr>,
}

impl Model for OwnedExprs {
    ghost use Rattle.std.specs.Prelude.{List};
    ghost use Rattle.golf_syntax_trees.specs.declared.expressions.Expr.{Expr};
    ghost use Rattle.golf_syntax_trees.specs.contracts.expressions.Expr as type_of_tree;
    ghost use Rattle.std.specs.Coded.{codes};

    ghost Value = { List Expr };

    ghost coded = { Prim.hlevel (codes, type_of_tree.the_row.coded) };

    ghost view = { λ owner. owner.inner };
}

impl Drop for OwnedExprs {
    fn drop(self) {
        let OwnedExprs { inner } = self;
        drop(inner);
    }
}

impl OwnedExprs {
    /// Returns a list that frees its trees when it is dropped.
    pub fn new(inner: List<Expr>) -> OwnedExprs
        ensures { result ≡ inner }
    {
        OwnedExprs { inner }
    }

    /// Returns an empty list.
    pub fn empty(alloc: Global) -> OwnedExprs
        ensures { result ≡ [] }
    {
        OwnedExprs {
            inner: List::new(alloc),
        }
    }

    /// Lends the list.
    pub fn get(&self) -> &List<Expr>
        ensures { result.now ≡ self.now }
    {
        &self.inner
    }

    /// Returns the list itself.
    pub fn into_inner(self) -> List<Expr>
        ensures { result ≡ self }
    {
        let OwnedExprs { inner } = self;
        inner
    }

    /// Adds an expression at the end. On `Err` the list is unchanged.
    pub fn push(&mut self, item: OwnedExpr) -> Result<(), Memory>
        ensures ok { OnOk result (self.new ≡ self.old ++ item ∷ []) }
        ensures err { OnErr result (self.new ≡ self.old) }
    {
        self.inner.push(item.into_inner())
    }
}

/// A list of elements of a struct literal, owned.
pub struct OwnedElements {
    inner: List<Element>,
}

impl Model for OwnedElements {
    ghost use Rattle.std.specs.Prelude.{List};
    ghost use Rattle.golf_syntax_trees.specs.declared.expressions.Element.{Element};
    ghost use Rattle.golf_syntax_trees.specs.contracts.expressions.Element as type_of_tree;
    ghost use Rattle.std.specs.Coded.{codes};

    ghost Value = { List Element };

    ghost coded = { Prim.hlevel (codes, type_of_tree.the_row.coded) };

    ghost view = { λ owner. owner.inner };
}

impl Drop for OwnedElements {
    fn drop(self) {
        let OwnedElements { inner } = self;
        drop(inner);
    }
}

impl OwnedElements {
    /// Returns a list that frees its trees when it is dropped.
    pub fn new(inner: List<Element>) -> OwnedElements
        ensures { result ≡ inner }
    {
        OwnedElements { inner }
    }

    /// Returns an empty list.
    pub fn empty(alloc: Global) -> OwnedElements
        ensures { result ≡ [] }
    {
        OwnedElements {
            inner: List::new(alloc),
        }
    }

    /// Lends the list.
    pub fn get(&self) -> &List<Element>
        ensures { result.now ≡ self.now }
    {
        &self.inner
    }

    /// Returns the list itself.
    pub fn into_inner(self) -> List<Element>
        ensures { result ≡ self }
    {
        let OwnedElements { inner } = self;
        inner
    }

    /// Adds an element at the end. On `Err` the list is unchanged.
    pub fn push(&mut self, field: Name, value: OwnedExpr) -> Result<(), Memory>
        ensures ok { OnOk result (self.new ≡ self.old ++ (record { field = field; value = value }) ∷ []) }
        ensures err { OnErr result (self.new ≡ self.old) }
    {
        self.inner.push(Element {
            field,
            value: value.into_inner(),
        })
    }
}

/// A list of statements, owned.
pub struct OwnedStmts {
    inner: List<Stmt>,
}

impl Model for OwnedStmts {
    ghost use Rattle.std.specs.Prelude.{List};
    ghost use Rattle.golf_syntax_trees.specs.declared.statements.Stmt.{Stmt};
    ghost use Rattle.golf_syntax_trees.specs.contracts.statements.Stmt as type_of_tree;
    ghost use Rattle.std.specs.Coded.{codes};

    ghost Value = { List Stmt };

    ghost coded = { Prim.hlevel (codes, type_of_tree.the_row.coded) };

    ghost view = { λ owner. owner.inner };
}

impl Drop for OwnedStmts {
    fn drop(self) {
        let OwnedStmts { inner } = self;
        drop(inner);
    }
}

impl OwnedStmts {
    /// Returns a list that frees its trees when it is dropped.
    pub fn new(inner: List<Stmt>) -> OwnedStmts
        ensures { result ≡ inner }
    {
        OwnedStmts { inner }
    }

    /// Returns an empty list.
    pub fn empty(alloc: Global) -> OwnedStmts
        ensures { result ≡ [] }
    {
        OwnedStmts {
            inner: List::new(alloc),
        }
    }

    /// Returns a list of one statement. It takes no room for a second one.
    pub fn one(alloc: Global, item: OwnedStmt) -> Result<OwnedStmts, Memory>
        ensures { IfOk result (λ all. all ≡ item ∷ []) }
    {
        let mut items = Vec::with_capacity(alloc, 1)?;
        items.push(item.into_inner())?;
        Ok(OwnedStmts {
            inner: List::from_vec(items),
        })
    }

    /// Lends the list.
    pub fn get(&self) -> &List<Stmt>
        ensures { result.now ≡ self.now }
    {
        &self.inner
    }

    /// Returns the list itself.
    pub fn into_inner(self) -> List<Stmt>
        ensures { result ≡ self }
    {
        let OwnedStmts { inner } = self;
        inner
    }

    /// Adds a statement at the end. On `Err` the list is unchanged.
    pub fn push(&mut self, item: OwnedStmt) -> Result<(), Memory>
        ensures ok { OnOk result (self.new ≡ self.old ++ item ∷ []) }
        ensures err { OnErr result (self.new ≡ self.old) }
    {
        self.inner.push(item.into_inner())
    }
}

/// A list of clauses, owned.
pub struct OwnedClauses {
    inner: List<Clause>,
}

impl Model for OwnedClauses {
    ghost use Rattle.std.specs.Prelude.{List};
    ghost use Rattle.golf_syntax_trees.specs.declared.statements.Clause.{Clause};
    ghost use Rattle.golf_syntax_trees.specs.contracts.statements.Clause as type_of_tree;
    ghost use Rattle.std.specs.Coded.{codes};

    ghost Value = { List Clause };

    ghost coded = { Prim.hlevel (codes, type_of_tree.the_row.coded) };

    ghost view = { λ owner. owner.inner };
}

impl Drop for OwnedClauses {
    fn drop(self) {
        let OwnedClauses { inner } = self;
        drop(inner);
    }
}

impl OwnedClauses {
    /// Returns a list that frees its trees when it is dropped.
    pub fn new(inner: List<Clause>) -> OwnedClauses
        ensures { result ≡ inner }
    {
        OwnedClauses { inner }
    }

    /// Returns an empty list.
    pub fn empty(alloc: Global) -> OwnedClauses
        ensures { result ≡ [] }
    {
        OwnedClauses {
            inner: List::new(alloc),
        }
    }

    /// Lends the list.
    pub fn get(&self) -> &List<Clause>
        ensures { result.now ≡ self.now }
    {
        &self.inner
    }

    /// Returns the list itself.
    pub fn into_inner(self) -> List<Clause>
        ensures { result ≡ self }
    {
        let OwnedClauses { inner } = self;
        inner
    }

    /// Adds a clause at the end. On `Err` the list is unchanged.
    pub fn push(&mut self, item: Clause) -> Result<(), Memory>
        ensures ok { OnOk result (self.new ≡ self.old ++ item ∷ []) }
        ensures err { OnErr result (self.new ≡ self.old) }
    {
        self.inner.push(item)
    }
}

/// A list of declarations, owned.
pub struct OwnedDecls {
    inner: List<Decl>,
}

impl Model for OwnedDecls {
    ghost use Rattle.std.specs.Prelude.{List};
    ghost use Rattle.golf_syntax_trees.specs.declared.declarations.Decl.{Decl};
    ghost use Rattle.golf_syntax_trees.specs.contracts.declarations.Decl as type_of_tree;
    ghost use Rattle.std.specs.Coded.{codes};

    ghost Value = { List Decl };

    ghost coded = { Prim.hlevel (codes, type_of_tree.the_row.coded) };

    ghost view = { λ owner. owner.inner };
}

impl Drop for OwnedDecls {
    fn drop(self) {
        let OwnedDecls { inner } = self;
        drop(inner);
    }
}

impl OwnedDecls {
    /// Returns a list that frees its trees when it is dropped.
    pub fn new(inner: List<Decl>) -> OwnedDecls
        ensures { result ≡ inner }
    {
        OwnedDecls { inner }
    }

    /// Returns an empty list.
    pub fn empty(alloc: Global) -> OwnedDecls
        ensures { result ≡ [] }
    {
        OwnedDecls {
            inner: List::new(alloc),
        }
    }

    /// Lends the list.
    pub fn get(&self) -> &List<Decl>
        ensures { result.now ≡ self.now }
    {
        &self.inner
    }

    /// Returns the list itself.
    pub fn into_inner(self) -> List<Decl>
        ensures { result ≡ self }
    {
        let OwnedDecls { inner } = self;
        inner
    }

    /// Adds a declaration at the end. On `Err` the list is unchanged.
    pub fn push(&mut self, item: OwnedDecl) -> Result<(), Memory>
        ensures ok { OnOk result (self.new ≡ self.old ++ item ∷ []) }
        ensures err { OnErr result (self.new ≡ self.old) }
    {
        self.inner.push(item.into_inner())
    }
}
