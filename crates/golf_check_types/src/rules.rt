//! The rules of names and types, with the numbers that a refusal reports.
//!
//! docs/LANGUAGE.md, "The rules of types", states each rule in full and says in which order they are judged. The
//! definitions (`specs/`) and the checks cite a rule by its name here. Its number is nowhere else.

/// An import is one of `fmt`, `runtime`, `sync`, once each.
pub const WRONG_IMPORT: u32 = 1;
/// A name is declared once in a scope, is not predeclared, and is no package name and not `_`.
pub const NOT_DECLARABLE: u32 = 2;
/// Names, fields, methods and members of packages are known, and a name that is used as a value is one.
pub const UNKNOWN_NAME: u32 = 3;
/// Types are those of the language; `new` takes a struct of the file or a type of `sync`.
pub const UNKNOWN_TYPE: u32 = 4;
/// A struct has at most 64 fields of different names; a method has a struct and a name that is new to it.
pub const WRONG_MEMBER: u32 = 5;
/// There is a function `main`, without parameters and result.
pub const NO_MAIN: u32 = 6;
/// The initialiser of a global calls only `len` and `NewCond`, receives nothing, and reads only globals above it.
pub const NOT_STEADY: u32 = 7;
/// Operands have the types of their operators, conditions are `bool`, and indices and sizes are `int`.
pub const WRONG_OPERAND: u32 = 8;
/// A value that is assigned, passed, sent, returned or put into a literal is assignable to its place.
pub const NOT_ASSIGNABLE: u32 = 9;
/// The left side of an assignment is a variable, a field, an element, or `_`.
pub const NO_PLACE: u32 = 10;
/// Calls are of functions, methods and built-ins, with the right number of arguments.
pub const WRONG_CALL: u32 = 11;
/// `go` and `defer` take calls of functions, methods, `close` and the methods of `sync` types.
pub const NOT_BEGUN: u32 = 12;
/// `return` has a value exactly when the function has a result.
pub const WRONG_RETURN: u32 = 13;
/// A function with a result ends in a terminating statement.
pub const NOT_TERMINATING: u32 = 14;
/// `break` is inside a `for` or `select`, `continue` inside a `for`.
pub const NOTHING_TO_LEAVE: u32 = 15;
/// Sends, receives, `close` and `range` are on channels, in a direction that they allow.
pub const WRONG_CHANNEL: u32 = 16;
/// `range` is over a slice or a channel, with at most one name over a channel.
pub const WRONG_RANGE: u32 = 17;
/// An expression statement is a call or a receive, and a call without a result is no value.
pub const WRONG_USE: u32 = 18;
/// An integer literal is at most 9223372036854775807.
pub const TOO_LARGE: u32 = 19;
/// A struct literal is of a struct, names fields of it, and names none twice.
pub const WRONG_LITERAL: u32 = 20;
/// `Println` takes integers, truth values and strings, `panic` a string.
pub const NOT_PRINTABLE: u32 = 21;
/// `SetFinalizer` takes a pointer to a struct of the file, and nil or a function with that one parameter.
pub const WRONG_FINALISER: u32 = 22;
/// A variable that begins with `nil` has a type.
pub const NIL_WITHOUT_TYPE: u32 = 23;
/// A `:=` declares a new name; of two names, one may exist already.
pub const NOTHING_NEW: u32 = 24;
