//! The code of operators, after that of their operands.

ghost use Rattle.std.specs.Prelude.{◌≡◌, ◌∷◌, []};
ghost use Rattle.golf_code_layout.specs.Piece.{all, op as op_of};
ghost use Rattle.golf_code_of.specs.Expressions.{unary_instr as unary_instr_of, combining as combining_of};
ghost use Rattle.golf_code_layout.specs.Emission.{Adds};

use golf_base::{List, Memory};
use golf_code_layout::{Emitted, op};
use golf_data::Instr;
use golf_syntax_trees::{BinaryOperator, UnaryOperator};

/// Returns the instruction of a unary operator.
pub fn unary_instr(operator: UnaryOperator) -> Instr
    ensures { result ≡ unary_instr_of operator }
{
    match operator {
        UnaryOperator::Negate => Instr::Neg,
        UnaryOperator::Not => Instr::Not,
        UnaryOperator::Receive => Instr::Receive,
    }
}

// Adds an instruction, and `not` after it.
fn negated(emitted: &mut List<Emitted>, line: u32, instr: Instr) -> Result<(), Memory>
    ensures { Adds result (all (op_of line instr ∷ op_of line Instr.Not ∷ [])) emitted.old emitted.new }
{
    op(emitted, line, instr)?;
    op(emitted, line, Instr::Not)
}

/// Adds the instructions after both operands of a binary operator.
pub fn combining(
    emitted: &mut List<Emitted>,
    line: u32,
    operator: BinaryOperator,
) -> Result<(), Memory>
    ensures { Adds result (combining_of line operator) emitted.old emitted.new }
{
    match operator {
        BinaryOperator::Or => Ok(()),
        BinaryOperator::And => Ok(()),
        BinaryOperator::Equal => op(emitted, line, Instr::Eq),
        BinaryOperator::NotEqual => negated(emitted, line, Instr::Eq),
        BinaryOperator::Less => op(emitted, line, Instr::Less),
        BinaryOperator::AtMost => op(emitted, line, Instr::AtMost),
        BinaryOperator::Greater => negated(emitted, line, Instr::AtMost),
        BinaryOperator::AtLeast => negated(emitted, line, Instr::Less),
        BinaryOperator::Add => op(emitted, line, Instr::Add),
        BinaryOperator::Subtract => op(emitted, line, Instr::Sub),
        BinaryOperator::Multiply => op(emitted, line, Instr::Mul),
        BinaryOperator::Divide => op(emitted, line, Instr::Div),
        BinaryOperator::Remainder => op(emitted, line, Instr::Rem),
    }
}
