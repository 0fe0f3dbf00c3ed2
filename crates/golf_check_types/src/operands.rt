//! Operands: what an expression is.
//!
//! An `Operand` is a value, a place, or a name that is no value. A `Given` is what an operand gives when it is used as
//! a value. A value whose type is not known breaks no rule, so that one fault does not cause others.

ghost use Rattle.std.specs.Prelude.{◌≡◌, IfOk};
ghost use Rattle.golf_check_types.specs.Types.{given as given_of, type_of as type_of_of, given_type as given_type_of};
ghost use Rattle.golf_check_types.specs.Types.{type_given, element};

use crate::types::{Base, GoType, copy_optional, plain};
use golf_base::{List, Memory};
use std::alloc::Global;

/// The place of a variable.
#[derive(Clone, Copy, Debug, PartialEq, Eq)]
pub enum Where {
    /// A slot of the function. Receiver and parameters have the numbers from 0. Then one follows for each local and
    /// each hidden variable of a `range`, in source order.
    Slot(u32),
    /// A global. The globals of a file are numbered from 0 in source order.
    Global(u32),
}

/// The types of a function. `None` is a type that is not known.
#[derive(Debug)]
pub struct Signature {
    pub parameters: List<Option<GoType>>,
    /// `None` if the function has no result.
    pub result: Option<GoType>,
}

impl Drop for Signature {
    fn drop(self) {
        let Signature {
            parameters: _,
            result: _,
        } = self;
    }
}

/// A package of the language.
#[derive(Clone, Copy, Debug, PartialEq, Eq)]
pub enum Package {
    Fmt,
    Runtime,
    Sync,
}

/// A built-in: it can be called and is no function of the file.
#[derive(Clone, Copy, Debug, PartialEq, Eq)]
pub enum BuiltIn {
    /// `len`
    Length,
    /// `close`
    Close,
    /// `panic`
    Panic,
    /// `fmt.Println`
    Print,
    /// `runtime.GC`
    Collect,
    /// `runtime.SetFinalizer`
    SetFinalizer,
    /// `sync.NewCond`
    NewCondition,
    /// `Lock` of a mutex.
    Lock,
    /// `Unlock` of a mutex.
    Unlock,
    /// `Add` of a wait group.
    Add,
    /// `Done` of a wait group.
    Done,
    /// `Wait` of a wait group.
    WaitGroup,
    /// `Lock` of a reader and writer mutex.
    WriteLock,
    /// `Unlock` of a reader and writer mutex.
    WriteUnlock,
    /// `RLock`
    ReadLock,
    /// `RUnlock`
    ReadUnlock,
    /// `Wait` of a condition.
    WaitCondition,
    /// `Signal`
    Signal,
    /// `Broadcast`
    Broadcast,
}

/// What an expression is. `None` is a type that is not known.
#[derive(Debug)]
pub enum Operand {
    /// A value that has no place.
    Value(Option<GoType>),
    /// The value of a call or a receive. It may be dropped.
    Outcome(Option<GoType>),
    /// A constant. The constants of a file are numbered from 0 in source order.
    Constant(u32, Base),
    /// `true` or `false`
    Truth(bool),
    Variable(Where, Option<GoType>),
    /// A field, by its place in its struct.
    Field(u32, Option<GoType>),
    /// An element of a slice.
    Element(Option<GoType>),
    /// A field or a method of a value whose type is not known.
    Unknown,
    /// `nil`
    Nil,
    /// `_`
    Blank,
    /// A call without a result, and the rule that its arguments break, if there is one.
    Nothing(Option<u32>),
    /// A function. Functions and methods of a file are numbered from 0 in source order.
    Function(u32),
    Method(u32),
    BuiltIn(BuiltIn),
    Package(Package),
    /// A struct of the file.
    Struct(u32),
    /// A name that is no value: `int`, `bool`, `string`, `make`, `new`, a type of a package, or a package in
    /// parentheses.
    TypeName,
}

// Written out once here, so that no other crate has to prove the drop of each variant.
impl Drop for Operand {
    fn drop(self) {
        match self {
            Operand::Value(_) => {}
            Operand::Outcome(_) => {}
            Operand::Constant(_, _) => {}
            Operand::Truth(_) => {}
            Operand::Variable(_, _) => {}
            Operand::Field(_, _) => {}
            Operand::Element(_) => {}
            Operand::Unknown => {}
            Operand::Nil => {}
            Operand::Blank => {}
            Operand::Nothing(_) => {}
            Operand::Function(_) => {}
            Operand::Method(_) => {}
            Operand::BuiltIn(_) => {}
            Operand::Package(_) => {}
            Operand::Struct(_) => {}
            Operand::TypeName => {}
        }
    }
}

impl Operand {
    /// Returns what the operand gives as a value.
    pub fn into_given(self, alloc: Global) -> Given
        ensures { result ≡ given_of self }
    {
        match self {
            Operand::Value(t)
            | Operand::Outcome(t)
            | Operand::Variable(_, t)
            | Operand::Field(_, t)
            | Operand::Element(t) => given_type(t),
            Operand::Constant(_, base) => Given::Typed(plain(alloc, base)),
            Operand::Truth(_) => Given::Typed(plain(alloc, Base::Bool)),
            Operand::Nil => Given::Nil,
            Operand::Unknown
            | Operand::Blank
            | Operand::Nothing(_)
            | Operand::Function(_)
            | Operand::Method(_)
            | Operand::BuiltIn(_)
            | Operand::Package(_)
            | Operand::Struct(_)
            | Operand::TypeName => Given::Unknown,
        }
    }
}

/// What an expression gives when it is used as a value.
#[derive(Debug)]
pub enum Given {
    Typed(GoType),
    Nil,
    /// A value whose type is not known. It breaks no rule.
    Unknown,
}

impl Drop for Given {
    fn drop(self) {
        match self {
            Given::Typed(_) => {}
            Given::Nil => {}
            Given::Unknown => {}
        }
    }
}

impl Given {
    /// Returns the type of the value, or `None` if it has none.
    pub fn into_type(self) -> Option<GoType>
        ensures { result ≡ type_given self }
    {
        match self {
            Given::Typed(t) => Some(t),
            Given::Nil | Given::Unknown => None,
        }
    }

    /// Returns the element type of a slice or a channel, or `None` for any other value.
    pub fn into_element(self) -> Option<GoType>
        ensures { result ≡ element self }
    {
        match self {
            Given::Typed(t) => t.into_element(),
            Given::Nil | Given::Unknown => None,
        }
    }
}

/// Returns the value that a type gives.
pub fn given_type(t: Option<GoType>) -> Given
    ensures { result ≡ given_type_of t }
{
    match t {
        None => Given::Unknown,
        Some(t) => Given::Typed(t),
    }
}

/// Returns what the operand gives as a value.
pub fn value_of(alloc: Global, operand: Operand) -> Given
    ensures { result ≡ given_of operand }
{
    operand.into_given(alloc)
}

/// Returns the type of an operand, or `None` if it has none.
pub fn type_of(alloc: Global, operand: &Operand) -> Result<Option<GoType>, Memory>
    ensures { IfOk result (λ t. t ≡ type_of_of operand.now) }
{
    match operand {
        Operand::Value(t)
        | Operand::Outcome(t)
        | Operand::Variable(_, t)
        | Operand::Field(_, t)
        | Operand::Element(t) => Ok(copy_optional(alloc, t)?),
        Operand::Constant(_, base) => Ok(Some(plain(alloc, *base))),
        Operand::Truth(_) => Ok(Some(plain(alloc, Base::Bool))),
        _ => Ok(None),
    }
}

/// Returns a copy of the operand.
pub fn copy_operand(alloc: Global, operand: &Operand) -> Result<Operand, Memory>
    ensures { IfOk result (λ m. m ≡ operand.now) }
{
    match operand {
        Operand::Value(t) => Ok(Operand::Value(copy_optional(alloc, t)?)),
        Operand::Outcome(t) => Ok(Operand::Outcome(copy_optional(alloc, t)?)),
        Operand::Constant(number, base) => Ok(Operand::Constant(*number, *base)),
        Operand::Truth(b) => Ok(Operand::Truth(*b)),
        Operand::Variable(place, t) => Ok(Operand::Variable(*place, copy_optional(alloc, t)?)),
        Operand::Field(place, t) => Ok(Operand::Field(*place, copy_optional(alloc, t)?)),
        Operand::Element(t) => Ok(Operand::Element(copy_optional(alloc, t)?)),
        Operand::Unknown => Ok(Operand::Unknown),
        Operand::Nil => Ok(Operand::Nil),
        Operand::Blank => Ok(Operand::Blank),
        Operand::Nothing(late) => Ok(Operand::Nothing(*late)),
        Operand::Function(number) => Ok(Operand::Function(*number)),
        Operand::Method(number) => Ok(Operand::Method(*number)),
        Operand::BuiltIn(built_in) => Ok(Operand::BuiltIn(*built_in)),
        Operand::Package(package) => Ok(Operand::Package(*package)),
        Operand::Struct(number) => Ok(Operand::Struct(*number)),
        Operand::TypeName => Ok(Operand::TypeName),
    }
}
