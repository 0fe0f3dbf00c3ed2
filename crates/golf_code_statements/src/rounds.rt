//! The code around the bodies of loops.
//!
//! A loop has two blocks: the target of the outer one is the end of the loop, the target of the
//! inner one its beginning.

ghost use Rattle.std.specs.Prelude.{◌≡◌, ◌+◌, [], ◌∷◌, ◌++◌, pos, OnOk, IfOk};
ghost use Rattle.golf_check_types.specs.Types.{is_slice as is_slice_of, given, given_type, starts_with};
ghost use Rattle.golf_check_types.specs.Statements.{is_outer};
ghost use Rattle.golf_code_layout.specs.Piece.{Piece, all, op as op_of};
ghost use Rattle.golf_code_layout.specs.Emission.{Adds, onto};
ghost use Rattle.golf_code_layout.specs.declared.emitted.Emitted.TheVariants as emit;
ghost use Rattle.golf_code_facts.specs.Facts.{skip};
ghost use Rattle.golf_code_facts.specs.Expressions.{taking};
ghost use Rattle.golf_code_facts.specs.Loops.{optional_test as optional_test_of};
ghost use Rattle.golf_code_expressions.specs.WriterClauses.{Writes};
ghost use Rattle.golf_code_simple.specs.SimpleClauses.{WritesSimple};

use golf_base::{List, Memory};
use golf_check_types::{GoType, Layer, Operand};
use golf_code_expressions::{Writer, expression};
use golf_code_layout::{Emitted, again, block, end, exit, op, unless};
use golf_data::Instr;
use golf_syntax_trees::{Expr, OwnedExpr};

/// Begins the two blocks of a loop. Their targets are the end and the beginning of the loop.
pub fn begin_round(emitted: &mut List<Emitted>) -> Result<(), Memory>
    ensures { OnOk result (emitted.new ≡ (emitted.old ++ emit.Block ∷ []) ++ emit.Again ∷ []) }
{
    block(emitted)?;
    again(emitted)
}

/// Adds the jump to the beginning of a loop, and ends its two blocks.
pub fn end_round(emitted: &mut List<Emitted>, line: u32) -> Result<(), Memory>
    ensures { OnOk result (emitted.new ≡ (onto emitted.old (Piece.Exit line 0) ++ emit.End ∷ []) ++ emit.End ∷ []) }
{
    exit(emitted, line, 0)?;
    end(emitted)?;
    end(emitted)
}

/// Adds the code of a condition. If it is false, the code goes on at a target.
pub fn condition(writer: &mut Writer, line: u32, test: &Expr, target: u32) -> Result<(), Memory>
    ensures { Writes result (all ((taking writer.old.draft.tables.now test.now line writer.old.facts).piece ∷ Piece.Unless line target ∷ [])) (skip writer.old.facts) writer.old writer.new }
{
    expression(writer, line, test)?;
    unless(&mut writer.draft.emitted, line, target)
}

/// Adds the code of the condition of a loop, if there is one.
pub fn optional_test(writer: &mut Writer, line: u32, test: &Option<OwnedExpr>) -> Result<(), Memory>
    ensures { WritesSimple result (optional_test_of writer.old.draft.tables.now line test.now writer.old.facts) writer.old writer.new }
{
    match test {
        None => Ok(()),
        Some(test) => condition(writer, line, test.get(), 1),
    }
}

fn begins_slice(layers: &[Layer]) -> bool
    ensures { result ≡ starts_with is_slice_of layers.now }
{
    match layers {
        [Layer::Slice, _rest @ ..] => true,
        _ => false,
    }
}

fn slice_type(t: &Option<GoType>) -> bool
    ensures { result ≡ is_outer is_slice_of (given_type t.now) }
{
    match t {
        None => false,
        Some(t) => begins_slice(t.layers.as_slice()),
    }
}

/// Returns whether a value is a slice.
pub fn is_slice(operand: &Operand) -> bool
    ensures { result ≡ is_outer is_slice_of (given operand.now) }
{
    match operand {
        Operand::Value(t)
        | Operand::Outcome(t)
        | Operand::Variable(_, t)
        | Operand::Field(_, t)
        | Operand::Element(t) => slice_type(t),
        Operand::Constant(_, _)
        | Operand::Truth(_)
        | Operand::Unknown
        | Operand::Nil
        | Operand::Blank
        | Operand::Nothing(_)
        | Operand::Function(_)
        | Operand::Method(_)
        | Operand::BuiltIn(_)
        | Operand::Package(_)
        | Operand::Struct(_)
        | Operand::TypeName => false,
    }
}

/// Returns the slot that comes `count` after another.
pub fn slot_after(slot: u32, count: u32) -> Result<u32, Memory>
    ensures { IfOk result (λ k. k ≡ slot + count) }
{
    slot.checked_add(count).ok_or(Memory)
}

/// Adds the code that stores the slice, its length and the first index in the hidden slots of a
/// `range`.
pub fn store_slice(
    emitted: &mut List<Emitted>,
    line: u32,
    slice: u32,
    length: u32,
    index: u32,
) -> Result<(), Memory>
    ensures { Adds result (all (op_of line (Instr.Store slice) ∷ op_of line (Instr.Load slice) ∷ op_of line Instr.Len ∷ op_of line (Instr.Store length) ∷ op_of line (Instr.Int (pos 0)) ∷ op_of line (Instr.Store index) ∷ [])) emitted.old emitted.new }
{
    op(emitted, line, Instr::Store(slice))?;
    op(emitted, line, Instr::Load(slice))?;
    op(emitted, line, Instr::Len)?;
    op(emitted, line, Instr::Store(length))?;
    op(emitted, line, Instr::Int(0))?;
    op(emitted, line, Instr::Store(index))
}

/// Adds the code that tests whether the index is below the length, and leaves the loop if it is
/// not.
pub fn test_index(
    emitted: &mut List<Emitted>,
    line: u32,
    length: u32,
    index: u32,
) -> Result<(), Memory>
    ensures { Adds result (all (op_of line (Instr.Load index) ∷ op_of line (Instr.Load length) ∷ op_of line Instr.Less ∷ Piece.Unless line 1 ∷ [])) emitted.old emitted.new }
{
    op(emitted, line, Instr::Load(index))?;
    op(emitted, line, Instr::Load(length))?;
    op(emitted, line, Instr::Less)?;
    unless(emitted, line, 1)
}

/// Adds the code that raises the index by one.
pub fn step_index(emitted: &mut List<Emitted>, line: u32, index: u32) -> Result<(), Memory>
    ensures { Adds result (all (op_of line (Instr.Load index) ∷ op_of line (Instr.Int (pos 1)) ∷ op_of line Instr.Add ∷ op_of line (Instr.Store index) ∷ [])) emitted.old emitted.new }
{
    op(emitted, line, Instr::Load(index))?;
    op(emitted, line, Instr::Int(1))?;
    op(emitted, line, Instr::Add)?;
    op(emitted, line, Instr::Store(index))
}

/// Adds the code that receives from the channel in a hidden slot, and leaves the loop if the
/// channel is closed and empty.
pub fn receive_open(emitted: &mut List<Emitted>, line: u32, channel: u32) -> Result<(), Memory>
    ensures { Adds result (all (op_of line (Instr.Load channel) ∷ op_of line Instr.ReceiveOk ∷ Piece.Unless line 1 ∷ [])) emitted.old emitted.new }
{
    op(emitted, line, Instr::Load(channel))?;
    op(emitted, line, Instr::ReceiveOk)?;
    unless(emitted, line, 1)
}
