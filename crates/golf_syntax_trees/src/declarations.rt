//! Files and their declarations.
//!
//! Each declaration has the line of its first token. The trees hold types and expressions by owners
//! (`owned.rt`).

use crate::owned::{OwnedType, OwnedVar};
use crate::statements::Stmt;
use crate::types::Name;
use golf_base::List;

/// A whole file of package `main`.
pub struct File {
    pub imports: List<Import>,
    pub declarations: List<Decl>,
}

// Written out once here, so that no other crate has to prove the drop of a whole file.
impl Drop for File {
    fn drop(self) {
        let File {
            imports: _,
            declarations: _,
        } = self;
    }
}

/// An import declaration.
#[derive(Drop)]
pub enum Import {
    /// `import "path"`
    One(u32, List<u8>),
    /// `import ("path"; ..)`
    Group(u32, List<List<u8>>),
}

/// A top-level declaration.
#[derive(Drop)]
pub enum Decl {
    /// `const name = value`
    Const(u32, Name, Const),
    Var(OwnedVar),
    /// `type name struct { fields }`
    Struct(u32, Name, List<Field>),
    Func(Func),
}

/// `func (receiver) name(parameters) result { body }`
#[derive(Drop)]
pub struct Func {
    pub line: u32,
    pub receiver: Option<Receiver>,
    pub name: Name,
    pub parameters: List<Field>,
    pub result: Option<OwnedType>,
    pub body: List<Stmt>,
}

/// `(name *type_name)`
#[derive(Drop)]
pub struct Receiver {
    pub name: Name,
    pub type_name: Name,
}

/// Names that share a type: `first, more.. T`.
#[derive(Drop)]
pub struct Field {
    pub first: Name,
    pub more: List<Name>,
    pub of_type: OwnedType,
}

/// The value of a constant.
#[derive(Drop)]
pub enum Const {
    /// The digits of an integer.
    Integer(List<u8>),
    /// The digits of an integer with `-` in front.
    Negative(List<u8>),
    Text(List<u8>),
    True,
    False,
}
