//! The calls of the generator: each adds one part at the end of a list.
//!
//! On `Err` nothing is said of the list, since the generator gives it up then.

ghost use Rattle.golf_code_layout.specs.Piece.{Piece, op as op_of};
ghost use Rattle.golf_code_layout.specs.Emission.{Adds, GrowsByPart};
ghost use Rattle.golf_code_layout.specs.declared.emitted.Emitted.TheVariants as emit;

use crate::emitted::Emitted;
use golf_base::{List, Memory};
use golf_data::Instr;

/// Adds an instruction without a target. On `Err` nothing is said of the list.
pub fn op(emitted: &mut List<Emitted>, line: u32, instr: Instr) -> Result<(), Memory>
    ensures { Adds result (op_of line instr) emitted.old emitted.new }
{
    emitted.push(Emitted::Op(instr, line))?;
    Ok(())
}

/// Adds a jump to a target. On `Err` nothing is said of the list.
pub fn exit(emitted: &mut List<Emitted>, line: u32, target: u32) -> Result<(), Memory>
    ensures { Adds result (Piece.Exit line target) emitted.old emitted.new }
{
    emitted.push(Emitted::Exit(line, target))?;
    Ok(())
}

/// Adds a jump to a target that is taken if the operand is false. On `Err` nothing is said of the
/// list.
pub fn unless(emitted: &mut List<Emitted>, line: u32, target: u32) -> Result<(), Memory>
    ensures { Adds result (Piece.Unless line target) emitted.old emitted.new }
{
    emitted.push(Emitted::Unless(line, target))?;
    Ok(())
}

/// Begins a block whose target is its end. On `Err` nothing is said of the list.
pub fn block(emitted: &mut List<Emitted>) -> Result<(), Memory>
    ensures { GrowsByPart result emit.Block emitted.old emitted.new }
{
    emitted.push(Emitted::Block)?;
    Ok(())
}

/// Begins a block whose target is its beginning. On `Err` nothing is said of the list.
pub fn again(emitted: &mut List<Emitted>) -> Result<(), Memory>
    ensures { GrowsByPart result emit.Again emitted.old emitted.new }
{
    emitted.push(Emitted::Again)?;
    Ok(())
}

/// Ends a block. On `Err` nothing is said of the list.
pub fn end(emitted: &mut List<Emitted>) -> Result<(), Memory>
    ensures { GrowsByPart result emit.End emitted.old emitted.new }
{
    emitted.push(Emitted::End)?;
    Ok(())
}
