//! The writer of the code of expressions, by their facts.
//!
//! It goes over the tree and the facts at the same time, from left to right. A loop follows the left operands; other
//! parts are written by recursion, whose depth the cost of tokens bounds.

ghost use Rattle.std.specs.Prelude.{◌≡◌, ◌∷◌, ◌<◌, [], None, map, length, pos, IfOk, IfSome, OnOk};
ghost use Rattle.std.specs.Option.{option_map};
ghost use Rattle.golf_syntax_trees.specs.declared.expressions.Expr.{size-Expr};
ghost use Rattle.golf_code_layout.specs.Piece.{all, op as op_of};
ghost use Rattle.golf_code_of.specs.Table.{text_number};
ghost use Rattle.golf_code_of.specs.Values.{makes as makes_of};
ghost use Rattle.golf_code_of.specs.Expressions.{made as made_of, made_sized, elements, new_struct as new_struct_of};
ghost use Rattle.golf_code_of.specs.Expressions.{unary_operator};
ghost use Rattle.golf_code_of.specs.Calls.{pushes, finaliser as finaliser_of, finalising as finalising_of};
ghost use Rattle.golf_code_layout.specs.Emission.{Adds};
ghost use Rattle.golf_code_facts.specs.Facts.{operand_in, next_is, past_one, skip, type_of_value};
ghost use Rattle.golf_code_facts.specs.Facts.{base_of as base_of_of};
ghost use Rattle.golf_code_facts.specs.Expressions.{taking, arguments as arguments_of, pieces, puts};
ghost use Rattle.golf_code_expressions.specs.WriterClauses.{Extends, Writes};
ghost use Rattle.golf_code_expressions.specs.Spines.{has_left as has_left_of, written, begun, ended, after_selector};
ghost use Rattle.golf_code_expressions.specs.Spines.{after_index, after_call, after_either, after_both, after_binary};
ghost use Rattle.golf_code_expressions.specs.Spines.{Descended, Stops, WritesAfter};

use crate::calls::{calling, finaliser, sets_finaliser};
use crate::names::{base_of, makes_of_value, name, new_struct, new_sync};
use crate::operators::{combining, unary_instr};
use crate::values::whole as whole_number;
use crate::writer::Writer;
use golf_base::{List, Memory};
use golf_check_types::{Fact, Operand};
use golf_code_layout::{Emitted, block, end, exit, op, unless};
use golf_code_of::Tables;
use golf_data::Instr;
use golf_syntax_trees::{BinaryOperator, Element, Expr, UnaryOperator};

fn text_at(
    emitted: &mut List<Emitted>,
    tables: &Tables,
    line: u32,
    text: &[u8],
) -> Result<(), Memory>
    ensures { Adds result (op_of line (Instr.Text (text_number tables.now.texts text.now))) emitted.old emitted.new }
{
    let number = tables.texts.number_of(text)?;
    op(emitted, line, Instr::Text(number))
}

// Adds the code of `make(T)`.
fn made_at(emitted: &mut List<Emitted>, line: u32, operand: &Operand) -> Result<(), Memory>
    ensures { Adds result (made_of line (type_of_value operand.now)).piece emitted.old emitted.new }
{
    op(emitted, line, Instr::Int(0))?;
    op(emitted, line, makes_of_value(operand))
}

// Returns whether the left operand of a selector with this meaning has code.
fn has_left(operand: &Operand) -> bool
    ensures { result ≡ has_left_of operand.now }
{
    match operand {
        Operand::Field(_, _) => true,
        Operand::Value(_) => true,
        Operand::Method(_) => true,
        Operand::BuiltIn(_) => true,
        Operand::Outcome(_)
        | Operand::Constant(_, _)
        | Operand::Truth(_)
        | Operand::Variable(_, _)
        | Operand::Element(_)
        | Operand::Unknown
        | Operand::Nil
        | Operand::Blank
        | Operand::Nothing(_)
        | Operand::Function(_)
        | Operand::Package(_)
        | Operand::Struct(_)
        | Operand::TypeName => false,
    }
}

// Returns the left operand of an expression with this meaning, if its code comes first. A call has the meaning
// `callee`.
#[tactic(auto, unfolding(crate::specs::Spines::written))]
fn written_left<'e>(e: &'e Expr, operand: &Operand, callee: &Operand) -> Option<&'e Expr>
    ensures is { option_map (λ x. x.now) result ≡ written e.now operand.now callee.now }
    ensures smaller { IfSome result (λ x. size-Expr x.now < size-Expr e.now) }
{
    match e {
        Expr::Integer(_) => None,
        Expr::Text(_) => None,
        Expr::Name(_) => None,
        Expr::Parens(_) => None,
        Expr::StructLiteral(_, _) => None,
        Expr::SyncLiteral(_) => None,
        Expr::SliceLiteral(_, _) => None,
        Expr::EmptyLiteral => None,
        Expr::Make(_) => None,
        Expr::MakeSized(_, _) => None,
        Expr::New(_) => None,
        Expr::NewSync(_) => None,
        Expr::Selector(left, _) => {
            if has_left(operand) {
                Some(left.get())
            } else {
                None
            }
        }
        Expr::Index(left, _) => Some(left.get()),
        Expr::Call(left, _) => {
            if sets_finaliser(callee) {
                None
            } else {
                Some(left.get())
            }
        }
        Expr::Unary(_, _) => None,
        Expr::Binary(_, left, _) => Some(left.get()),
    }
}

// Adds the parts before the code of the left operand.
#[tactic(auto, unfolding(crate::specs::Spines::begun))]
fn begin(emitted: &mut List<Emitted>, e: &Expr) -> Result<(), Memory>
    ensures { OnOk result (emitted.new ≡ begun e.now emitted.old) }
{
    match e {
        Expr::Binary(BinaryOperator::Or, _, _) => {
            block(emitted)?;
            block(emitted)
        }
        Expr::Binary(BinaryOperator::And, _, _) => {
            block(emitted)?;
            block(emitted)
        }
        _ => Ok(()),
    }
}

// Follows the left operands whose code comes first. Returns the expressions that wait for one, and the innermost one,
// whose facts come next.
fn descend<'e>(writer: &mut Writer, e: &'e Expr) -> Result<(List<&'e Expr>, &'e Expr), Memory>
    ensures down { IfOk result (λ x. Descended e.now writer.old x.0 x.1.now writer.new) }
    ensures stops { IfOk result (λ x. Stops x.1.now writer.new.facts) }
{
    let mut waiting = List::new(writer.draft.alloc);
    let mut inner = e;
    'down: loop {
        let mut facts = writer.facts.copy();
        let Some(fact) = facts.take() else { break };
        let operand = facts.operand_of(fact);
        let Some(left) = written_left(inner, operand, facts.operand()) else {
            break
        };
        begin(&mut writer.draft.emitted, inner)?;
        waiting.push(inner)?;
        writer.facts = facts;
        inner = left;
    }
    Ok((waiting, inner))
}

/// Adds the code that pushes the value of an expression whose facts come next, and skips these facts.
///
/// A loop follows the left operands, since nothing bounds how many there are in one another.
#[cycle(writing)]
pub fn expression(writer: &mut Writer, line: u32, e: &Expr) -> Result<(), Memory>
    ensures { Writes result (taking writer.old.draft.tables.now e.now line writer.old.facts).piece (skip writer.old.facts) writer.old writer.new }
{
    let mut all = writer.facts.copy();
    let (mut waiting, innermost) = descend(writer, e)?;
    innermost_at(writer, line, innermost)?;
    while let Some(node) = waiting.pop() {
        writer.facts = all.from(waiting.len());
        follow(writer, line, node)?;
    }
    all.skip();
    writer.facts = all;
    Ok(())
}

// Adds the code of an expression whose code begins with no left operand, if there are facts.
#[cycle(writing)]
fn innermost_at(writer: &mut Writer, line: u32, e: &Expr) -> Result<(), Memory>
    requires { Stops e.now writer.old.facts }
    ensures { Extends result (taking writer.old.draft.tables.now e.now line writer.old.facts).piece writer.old writer.new }
{
    let Some(fact) = writer.facts.take() else {
        return Ok(());
    };
    whole(writer, line, e, fact)
}

// Adds the code after that of the left operand, for an expression whose facts come next.
#[cycle(writing)]
fn follow(writer: &mut Writer, line: u32, e: &Expr) -> Result<(), Memory>
    ensures { (f : Fact) (fs : List Fact) → writer.old.facts ≡ f ∷ fs → WritesAfter result (ended writer.old.draft.tables.now line e.now (operand_in f) fs writer.old.draft.emitted) writer.old writer.new }
{
    let Some(fact) = writer.facts.take() else {
        return Ok(());
    };
    let operand = writer.facts.operand_of(fact);
    rest(writer, line, e, operand)
}

// Does the same for an expression with this meaning. The facts of its parts come next.
#[cycle(writing)]
#[tactic(auto, unfolding(crate::specs::Spines::ended))]
fn rest(writer: &mut Writer, line: u32, e: &Expr, operand: &Operand) -> Result<(), Memory>
    ensures { WritesAfter result (ended writer.old.draft.tables.now line e.now operand.now writer.old.facts writer.old.draft.emitted) writer.old writer.new }
{
    match e {
        Expr::Selector(_, _) => selected(&mut writer.draft.emitted, line, operand),
        Expr::Index(_, i) => index_at(writer, line, i.get()),
        Expr::Call(_, xs) => call_at(writer, line, xs.as_slice()),
        Expr::Binary(o, _, b) => binary_at(writer, line, *o, b.get()),
        _ => Ok(()),
    }
}

// Adds the code of an expression with this fact. The facts of its parts come next.
#[cycle(writing)]
#[tactic(auto, unfolding(golf_code_facts::specs::Expressions::taking, crate::specs::Spines::written))]
fn whole<'a>(writer: &mut Writer<'a>, line: u32, e: &Expr, fact: &'a Fact) -> Result<(), Memory>
    requires { written e.now (operand_in fact.now) (next_is writer.old.facts) ≡ None }
    ensures { Extends result (taking writer.old.draft.tables.now e.now line (fact.now ∷ writer.old.facts)).piece writer.old writer.new }
{
    let operand = writer.facts.operand_of(fact);
    match e {
        Expr::Integer(_) => {
            let number = writer.facts.number();
            op(&mut writer.draft.emitted, line, Instr::Int(number))
        }
        Expr::Text(text) => {
            let tables = writer.draft.tables;
            text_at(&mut writer.draft.emitted, tables, line, text.as_slice())
        }
        Expr::Name(_) => {
            let tables = writer.draft.tables;
            name(tables, line, operand, &mut writer.draft.emitted)
        }
        Expr::Parens(e) => expression(writer, line, e.get()),
        Expr::StructLiteral(_, xs) => struct_at(writer, line, operand, xs.as_slice()),
        Expr::SyncLiteral(_) => new_sync(&mut writer.draft.emitted, line, base_of(operand)),
        Expr::SliceLiteral(_, es) => slice_at(writer, line, operand, es.as_slice()),
        Expr::EmptyLiteral => op(&mut writer.draft.emitted, line, Instr::Unit),
        Expr::Make(_) => made_at(&mut writer.draft.emitted, line, operand),
        Expr::MakeSized(_, e) => sized_at(writer, line, operand, e.get()),
        Expr::New(_) => new_struct(&mut writer.draft.emitted, line, base_of(operand)),
        Expr::NewSync(_) => new_sync(&mut writer.draft.emitted, line, base_of(operand)),
        Expr::Selector(_, _) => Ok(()),
        Expr::Index(_, _) => unreachable!(),
        Expr::Call(_, xs) => {
            writer.facts.skip();
            finalising_at(writer, line, xs.as_slice())
        }
        Expr::Unary(o, e) => unary_at(writer, line, *o, e.get()),
        Expr::Binary(_, _, _) => unreachable!(),
    }
}

#[cycle(writing)]
fn unary_at(writer: &mut Writer, line: u32, operator: UnaryOperator, e: &Expr) -> Result<(), Memory>
    ensures { Extends result (unary_operator line operator (taking writer.old.draft.tables.now e.now line writer.old.facts).piece).piece writer.old writer.new }
{
    expression(writer, line, e)?;
    op(&mut writer.draft.emitted, line, unary_instr(operator))
}

// Adds the code of the index, after that of the slice.
#[cycle(writing)]
fn index_at(writer: &mut Writer, line: u32, i: &Expr) -> Result<(), Memory>
    ensures { WritesAfter result (after_index line (taking writer.old.draft.tables.now i.now line (skip writer.old.facts)).piece writer.old.draft.emitted) writer.old writer.new }
{
    writer.facts.skip();
    expression(writer, line, i)?;
    op(&mut writer.draft.emitted, line, Instr::Index)
}

// Adds the code of the second operand, and the code that gives `value` if the first one decides.
#[cycle(writing)]
fn decided_at(writer: &mut Writer, line: u32, b: &Expr, value: bool) -> Result<(), Memory>
    ensures { WritesAfter result (after_either line value (taking writer.old.draft.tables.now b.now line (skip writer.old.facts)).piece writer.old.draft.emitted) writer.old writer.new }
{
    unless(&mut writer.draft.emitted, line, 0)?;
    writer.facts.skip();
    expression(writer, line, b)?;
    exit(&mut writer.draft.emitted, line, 1)?;
    end(&mut writer.draft.emitted)?;
    op(&mut writer.draft.emitted, line, Instr::Bool(value))?;
    end(&mut writer.draft.emitted)
}

#[cycle(writing)]
fn or_at(writer: &mut Writer, line: u32, b: &Expr) -> Result<(), Memory>
    ensures { WritesAfter result (after_binary line BinaryOperator.Or (taking writer.old.draft.tables.now b.now line (skip writer.old.facts)).piece writer.old.draft.emitted) writer.old writer.new }
{
    op(&mut writer.draft.emitted, line, Instr::Not)?;
    decided_at(writer, line, b, true)
}

#[cycle(writing)]
fn both_at(writer: &mut Writer, line: u32, operator: BinaryOperator, b: &Expr) -> Result<(), Memory>
    ensures { WritesAfter result (after_both line operator (taking writer.old.draft.tables.now b.now line (skip writer.old.facts)).piece writer.old.draft.emitted) writer.old writer.new }
{
    writer.facts.skip();
    expression(writer, line, b)?;
    combining(&mut writer.draft.emitted, line, operator)
}

// Adds the code of the second operand, after that of the first.
#[cycle(writing)]
fn binary_at(
    writer: &mut Writer,
    line: u32,
    operator: BinaryOperator,
    b: &Expr,
) -> Result<(), Memory>
    ensures { WritesAfter result (after_binary line operator (taking writer.old.draft.tables.now b.now line (skip writer.old.facts)).piece writer.old.draft.emitted) writer.old writer.new }
{
    match operator {
        BinaryOperator::Or => or_at(writer, line, b),
        BinaryOperator::And => decided_at(writer, line, b, false),
        _ => both_at(writer, line, operator, b),
    }
}

// Adds the code of `make(T, e)`.
#[cycle(writing)]
fn sized_at(writer: &mut Writer, line: u32, operand: &Operand, e: &Expr) -> Result<(), Memory>
    ensures { Extends result (made_sized line (type_of_value operand.now) (taking writer.old.draft.tables.now e.now line writer.old.facts).piece).piece writer.old writer.new }
{
    expression(writer, line, e)?;
    op(&mut writer.draft.emitted, line, makes_of_value(operand))
}

// Adds the code that puts a value into the field whose place comes next.
#[cycle(writing)]
fn put_at(writer: &mut Writer, line: u32, e: &Expr) -> Result<(), Memory>
    ensures { Writes result (puts line (taking writer.old.draft.tables.now e.now ∷ []) writer.old.facts) (skip (past_one writer.old.facts)) writer.old writer.new }
{
    let place = writer.facts.field();
    writer.facts.skip_one();
    op(&mut writer.draft.emitted, line, Instr::Dup)?;
    expression(writer, line, e)?;
    op(&mut writer.draft.emitted, line, Instr::SetField(place))
}

#[cycle(writing)]
fn put_all(writer: &mut Writer, line: u32, fields: &[Element]) -> Result<(), Memory>
    ensures { Extends result (puts line (map (λ x. taking writer.old.draft.tables.now x.value) fields.now) writer.old.facts) writer.old writer.new }
{
    for x in fields {
        put_at(writer, line, &x.value)?;
    }
    Ok(())
}

#[cycle(writing)]
fn struct_at(
    writer: &mut Writer,
    line: u32,
    operand: &Operand,
    fields: &[Element],
) -> Result<(), Memory>
    ensures { Extends result (all ((new_struct_of line (base_of_of (type_of_value operand.now))).piece ∷ puts line (map (λ x. taking writer.old.draft.tables.now x.value) fields.now) writer.old.facts ∷ [])) writer.old writer.new }
{
    new_struct(&mut writer.draft.emitted, line, base_of(operand))?;
    put_all(writer, line, fields)
}

#[cycle(writing)]
fn set_all(writer: &mut Writer, line: u32, es: &[Expr]) -> Result<(), Memory>
    ensures { Extends result (elements line 0 (pieces (arguments_of line (map (taking writer.old.draft.tables.now) es.now) writer.old.facts))) writer.old writer.new }
{
    for (i, e) in es.iter().enumerate() {
        op(&mut writer.draft.emitted, line, Instr::Dup)?;
        let place = whole_number(i)?;
        op(&mut writer.draft.emitted, line, Instr::Int(place))?;
        expression(writer, line, e)?;
        op(&mut writer.draft.emitted, line, Instr::SetIndex)?;
    }
    Ok(())
}

#[cycle(writing)]
fn slice_at(writer: &mut Writer, line: u32, operand: &Operand, es: &[Expr]) -> Result<(), Memory>
    ensures { Extends result (all (op_of line (Instr.Int (pos (length es.now))) ∷ op_of line (makes_of (type_of_value operand.now)) ∷ elements line 0 (pieces (arguments_of line (map (taking writer.old.draft.tables.now) es.now) writer.old.facts)) ∷ [])) writer.old writer.new }
{
    let size = whole_number(es.len())?;
    op(&mut writer.draft.emitted, line, Instr::Int(size))?;
    op(&mut writer.draft.emitted, line, makes_of_value(operand))?;
    set_all(writer, line, es)
}

// Adds the code of the selector, after that of its left operand.
fn selected(emitted: &mut List<Emitted>, line: u32, operand: &Operand) -> Result<(), Memory>
    ensures { OnOk result (emitted.new ≡ after_selector line operand.now emitted.old) }
{
    match operand {
        Operand::Field(place, _) => op(emitted, line, Instr::Field(*place)),
        Operand::Value(_) => op(emitted, line, Instr::CondMutex),
        Operand::Method(_)
        | Operand::BuiltIn(_)
        | Operand::Outcome(_)
        | Operand::Constant(_, _)
        | Operand::Truth(_)
        | Operand::Variable(_, _)
        | Operand::Element(_)
        | Operand::Unknown
        | Operand::Nil
        | Operand::Blank
        | Operand::Nothing(_)
        | Operand::Function(_)
        | Operand::Package(_)
        | Operand::Struct(_)
        | Operand::TypeName => Ok(()),
    }
}

#[cycle(writing)]
fn arguments(writer: &mut Writer, line: u32, xs: &[Expr]) -> Result<(), Memory>
    ensures { Extends result (pushes (arguments_of line (map (taking writer.old.draft.tables.now) xs.now) writer.old.facts)) writer.old writer.new }
{
    for x in xs {
        expression(writer, line, x)?;
    }
    Ok(())
}

// Adds the code of the arguments and the call, after that of the receiver.
#[cycle(writing)]
fn call_at(writer: &mut Writer, line: u32, xs: &[Expr]) -> Result<(), Memory>
    ensures { WritesAfter result (after_call line (next_is writer.old.facts) (length xs.now) (arguments_of line (map (taking writer.old.draft.tables.now) xs.now) (skip writer.old.facts)) writer.old.draft.emitted) writer.old writer.new }
{
    let callee = writer.facts.operand();
    writer.facts.skip();
    arguments(writer, line, xs)?;
    calling(&mut writer.draft.emitted, line, callee, xs.len())
}

#[cycle(writing)]
fn finaliser_at(writer: &mut Writer, line: u32, x: &Expr) -> Result<(), Memory>
    ensures { Extends result (all ((taking writer.old.draft.tables.now x.now line writer.old.facts).piece ∷ finaliser_of line (next_is (skip writer.old.facts)) ∷ [])) writer.old writer.new }
{
    expression(writer, line, x)?;
    let function = writer.facts.operand();
    finaliser(&mut writer.draft.emitted, line, function)
}

// Adds the code of the first argument of `SetFinalizer`, if there are others.
#[cycle(writing)]
fn finalising_with(writer: &mut Writer, line: u32, x: &Expr, others: &[Expr]) -> Result<(), Memory>
    ensures { Extends result (finalising_of line (arguments_of line (taking writer.old.draft.tables.now x.now ∷ map (taking writer.old.draft.tables.now) others.now) writer.old.facts)) writer.old writer.new }
{
    match others {
        [] => Ok(()),
        [_function, _more @ ..] => finaliser_at(writer, line, x),
    }
}

// Adds the code of `SetFinalizer(p, f)`. The instruction names the function, which has no code.
#[cycle(writing)]
fn finalising_at(writer: &mut Writer, line: u32, xs: &[Expr]) -> Result<(), Memory>
    ensures { Extends result (finalising_of line (arguments_of line (map (taking writer.old.draft.tables.now) xs.now) writer.old.facts)) writer.old writer.new }
{
    match xs {
        [] => Ok(()),
        [x, others @ ..] => finalising_with(writer, line, x, others),
    }
}
