//! The facts that the checker records of a file.
//!
//! The generator reads facts and has no scope, so facts say what code needs: what an expression is, which slot a
//! variable has, and how many facts belong to a part that is skipped.

use crate::operands::Operand;

/// A fact of one place of a tree. Facts are in the order of the walk. Those of an expression are in the order in which
/// its prints begin.
#[derive(Debug)]
pub enum Fact {
    /// An expression: what it is, and how many facts of its parts follow.
    Expression {
        operand: Operand,
        parts: usize,
    },
    /// The value of an integer literal, after the literal's fact, or the value of an integer constant.
    Number(i64),
    /// The place of a field, before the value for it in a struct literal.
    Field(u32),
    /// Where a value under a name is stored: the variable that is declared here, the operand of an assigned name, or
    /// `_`.
    Target(Operand),
    /// The first hidden slot of a `range`, after the fact of its expression.
    Hidden(u32),
    /// The number of facts that follow for a part. It comes before a clause of `select`, and before the last statement
    /// of a `for` header.
    Part(usize),
    /// The start of a function: how many of its slots hold receiver and parameters, how many slots it has, and how many
    /// facts of it follow.
    Function {
        arguments: u32,
        slots: u32,
        parts: usize,
    },
}

// Written out once here, so that no other crate has to prove the drop of each variant.
impl Drop for Fact {
    fn drop(self) {
        match self {
            Fact::Expression {
                operand: _,
                parts: _,
            } => {}
            Fact::Number(_) => {}
            Fact::Field(_) => {}
            Fact::Target(_) => {}
            Fact::Hidden(_) => {}
            Fact::Part(_) => {}
            Fact::Function {
                arguments: _,
                slots: _,
                parts: _,
            } => {}
        }
    }
}
