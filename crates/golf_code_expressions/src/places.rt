//! Left sides: the operands that name a place, and how it is read and stored to.
//!
//! The operands of a field are the struct, and those of an element are the slice and the index. A variable has none.

ghost use Rattle.std.specs.Prelude.{◌∷◌};
ghost use Rattle.golf_code_layout.specs.Emission.{Adds};
ghost use Rattle.golf_code_of.specs.Expressions.{selector, index};
ghost use Rattle.golf_code_facts.specs.Facts.{skip};
ghost use Rattle.golf_code_facts.specs.Expressions.{taking};
ghost use Rattle.golf_code_expressions.specs.Places.{twice_of, read_of, store_of, IsVariable, TellsLeftSide, TellsAll};

use crate::expressions::expression;
use crate::writer::Writer;
use golf_base::{List, Memory};
use golf_check_types::{Fact, Operand, Where};
use golf_code_layout::{Emitted, op};
use golf_data::Instr;
use golf_syntax_trees::Expr;

/// The kind of place of a left side.
#[derive(Clone, Copy, Debug, PartialEq, Eq)]
pub enum LeftSide {
    /// A variable in a slot or a global.
    Variable(Where),
    /// `_`, which drops the value.
    Blank,
    /// A field by its place. The struct was pushed.
    Field(u32),
    /// An element. The slice and the index were pushed.
    Element,
    /// No place. It has no code.
    Nothing,
}

/// Adds the code that doubles the operands that name the place.
pub fn twice(emitted: &mut List<Emitted>, line: u32, place: LeftSide) -> Result<(), Memory>
    ensures { Adds result (twice_of line place) emitted.old emitted.new }
{
    match place {
        LeftSide::Field(_) => op(emitted, line, Instr::Dup),
        LeftSide::Element => op(emitted, line, Instr::Dup2),
        LeftSide::Variable(_) => Ok(()),
        LeftSide::Blank => Ok(()),
        LeftSide::Nothing => Ok(()),
    }
}

/// Adds the code that turns the operands that name the place into its value.
pub fn read(emitted: &mut List<Emitted>, line: u32, place: LeftSide) -> Result<(), Memory>
    ensures { Adds result (read_of line place) emitted.old emitted.new }
{
    match place {
        LeftSide::Variable(at) => match at {
            Where::Slot(slot) => op(emitted, line, Instr::Load(slot)),
            Where::Global(number) => op(emitted, line, Instr::LoadGlobal(number)),
        },
        LeftSide::Field(field) => op(emitted, line, Instr::Field(field)),
        LeftSide::Element => op(emitted, line, Instr::Index),
        LeftSide::Blank => Ok(()),
        LeftSide::Nothing => Ok(()),
    }
}

/// Adds the code that takes the operands that name the place, with a new value on top, and stores the value.
pub fn write(emitted: &mut List<Emitted>, line: u32, place: LeftSide) -> Result<(), Memory>
    ensures { Adds result (store_of line place) emitted.old emitted.new }
{
    match place {
        LeftSide::Variable(at) => match at {
            Where::Slot(slot) => op(emitted, line, Instr::Store(slot)),
            Where::Global(number) => op(emitted, line, Instr::StoreGlobal(number)),
        },
        LeftSide::Blank => op(emitted, line, Instr::Drop),
        LeftSide::Field(field) => op(emitted, line, Instr::SetField(field)),
        LeftSide::Element => op(emitted, line, Instr::SetIndex),
        LeftSide::Nothing => Ok(()),
    }
}

// Returns the place of a name with this meaning.
fn named(operand: &Operand) -> LeftSide
    ensures { IsVariable operand.now result }
{
    match operand {
        Operand::Variable(at, _) => LeftSide::Variable(*at),
        Operand::Blank => LeftSide::Blank,
        _ => LeftSide::Nothing,
    }
}

// Adds the code of the struct, and returns the place of a selector with this meaning.
fn selected(writer: &mut Writer, line: u32, operand: &Operand, e: &Expr) -> Result<LeftSide, Memory>
    ensures { TellsLeftSide line result (selector line operand.now (taking writer.old.draft.tables.now e.now line writer.old.facts).piece) writer.old writer.new }
{
    match operand {
        Operand::Field(field, _) => {
            expression(writer, line, e)?;
            Ok(LeftSide::Field(*field))
        }
        Operand::Value(_)
        | Operand::Method(_)
        | Operand::BuiltIn(_)
        | Operand::Outcome(_)
        | Operand::Constant(_, _)
        | Operand::Truth(_)
        | Operand::Variable(_, _)
        | Operand::Element(_)
        | Operand::Unknown
        | Operand::Nil
        | Operand::Blank
        | Operand::Nothing(_)
        | Operand::Function(_)
        | Operand::Package(_)
        | Operand::Struct(_)
        | Operand::TypeName => Ok(LeftSide::Nothing),
    }
}

// Adds the code of the slice and the index, and returns the place of an element.
fn element(writer: &mut Writer, line: u32, a: &Expr, i: &Expr) -> Result<LeftSide, Memory>
    ensures { TellsLeftSide line result (index line (taking writer.old.draft.tables.now a.now line writer.old.facts).piece (taking writer.old.draft.tables.now i.now line (skip writer.old.facts)).piece) writer.old writer.new }
{
    expression(writer, line, a)?;
    expression(writer, line, i)?;
    Ok(LeftSide::Element)
}

// Does this for a left side with this fact. The facts of its parts come next.
#[cycle(placing)]
#[tactic(auto, unfolding(golf_code_facts::specs::Expressions::taking))]
fn whole<'a>(
    writer: &mut Writer<'a>,
    line: u32,
    e: &Expr,
    fact: &'a Fact,
) -> Result<LeftSide, Memory>
    ensures { TellsLeftSide line result (taking writer.old.draft.tables.now e.now line (fact.now ∷ writer.old.facts)) writer.old writer.new }
{
    let operand = writer.facts.operand_of(fact);
    match e {
        Expr::Name(_) => Ok(named(operand)),
        Expr::Parens(e) => left_side(writer, line, e.get()),
        Expr::Selector(e, _) => selected(writer, line, operand, e.get()),
        Expr::Index(a, i) => element(writer, line, a.get(), i.get()),
        Expr::Integer(_) => Ok(LeftSide::Nothing),
        Expr::Text(_) => Ok(LeftSide::Nothing),
        Expr::StructLiteral(_, _) => Ok(LeftSide::Nothing),
        Expr::SyncLiteral(_) => Ok(LeftSide::Nothing),
        Expr::SliceLiteral(_, _) => Ok(LeftSide::Nothing),
        Expr::EmptyLiteral => Ok(LeftSide::Nothing),
        Expr::Make(_) => Ok(LeftSide::Nothing),
        Expr::MakeSized(_, _) => Ok(LeftSide::Nothing),
        Expr::New(_) => Ok(LeftSide::Nothing),
        Expr::NewSync(_) => Ok(LeftSide::Nothing),
        Expr::Call(_, _) => Ok(LeftSide::Nothing),
        Expr::Unary(_, _) => Ok(LeftSide::Nothing),
        Expr::Binary(_, _, _) => Ok(LeftSide::Nothing),
    }
}

/// Adds the operands that name the place of a left side whose facts come next, and skips these facts. Returns the
/// kind of place.
#[cycle(placing)]
pub fn left_side(writer: &mut Writer, line: u32, e: &Expr) -> Result<LeftSide, Memory>
    ensures { TellsAll line result (taking writer.old.draft.tables.now e.now line writer.old.facts) (skip writer.old.facts) writer.old writer.new }
{
    let mut after = writer.facts.copy();
    after.skip();
    let Some(fact) = writer.facts.take() else {
        return Ok(LeftSide::Nothing);
    };
    let found = whole(writer, line, e, fact)?;
    writer.facts = after;
    Ok(found)
}
