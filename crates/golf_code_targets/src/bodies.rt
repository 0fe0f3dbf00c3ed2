//! The second walk: the lines of a body, with the targets put in.
//!
//! The first walk has the target of each block. This walk meets the blocks in the same order, and
//! keeps the targets of the blocks around. It takes the parts out of their list, so that no
//! instruction is copied.

ghost use Rattle.std.specs.Prelude.{◌≡◌, ◌<◌, Some, length, map, slice_get, slice_set, IfOk, OnOk};
ghost use Rattle.std.specs.Option.{option_map};
ghost use Rattle.golf_code_layout.specs.Piece.{target as target_of, case_at};
ghost use Rattle.golf_code_layout.specs.declared.emitted.Emitted.TheVariants as emit;
ghost use Rattle.golf_code_targets.specs.Walks.{rest, with_line, entered, line_step, line_steps};
ghost use Rattle.golf_code_targets.specs.Walks.{no_lines as no_lines_of};

use crate::nesting::Nesting;
use golf_base::{List, Memory};
use golf_code_layout::Emitted;
use golf_data::{CodeLine, Instr, SelectCase};
use std::alloc::Global;
use std::mem;

/// The state of the second walk: the lines of a body so far.
#[derive(Drop)]
pub struct Body {
    /// The targets of the blocks around the next part.
    pub around: Nesting<u32>,
    /// How many blocks have begun.
    pub next: usize,
    pub lines: List<CodeLine>,
}

fn no_lines(alloc: Global) -> Body
    ensures { result ≡ no_lines_of }
{
    Body {
        around: Nesting::new(alloc),
        next: 0,
        lines: List::new(alloc),
    }
}

// Returns the place of a target, counted from the innermost one.
#[tactic(auto, using(crate::proofs::Looks::target_got))]
fn target(around: &Nesting<u32>, number: u32) -> u32
    ensures { result ≡ target_of around.now number }
{
    around.get(number as usize).unwrap_or(0)
}

fn cases(
    alloc: Global,
    around: &Nesting<u32>,
    cases: &[SelectCase],
) -> Result<List<SelectCase>, Memory>
    ensures { IfOk result (λ cs. cs ≡ map (case_at around.now) cases.now) }
{
    let mut placed = List::new(alloc);
    for case in cases {
        placed.push(SelectCase {
            kind: case.kind,
            target: target(around, case.target),
        })?;
    }
    Ok(placed)
}

fn optional_target(around: &Nesting<u32>, number: Option<u32>) -> Option<u32>
    ensures { result ≡ option_map (target_of around.now) number }
{
    match number {
        None => None,
        Some(number) => Some(target(around, number)),
    }
}

fn add_line(body: &mut Body, instr: Instr, line: u32) -> Result<(), Memory>
    ensures { OnOk result (body.new ≡ with_line body.old instr line) }
{
    body.lines.push(CodeLine { instr, line })?;
    Ok(())
}

fn add_choice(
    alloc: Global,
    body: &mut Body,
    line: u32,
    choice: &[SelectCase],
    otherwise: Option<u32>,
) -> Result<(), Memory>
    ensures { OnOk result (body.new ≡ with_line body.old (Instr.Select (map (case_at body.old.around) choice.now) (option_map (target_of body.old.around) otherwise)) line) }
{
    let placed = cases(alloc, &body.around, choice)?;
    let default = optional_target(&body.around, otherwise);
    add_line(body, Instr::Select(placed, default), line)
}

// Begins a block. Its target is the next one of `found`.
fn enter(found: &[u32], body: &mut Body) -> Result<(), Memory>
    ensures { OnOk result (body.new ≡ entered found.now body.old) }
{
    let target = found.get(body.next).copied().unwrap_or(0);
    body.around.push(target)?;
    body.next = body.next.checked_add(1).ok_or(Memory)?;
    Ok(())
}

fn leave(body: &mut Body)
    ensures { body.new ≡ record body.old { around = rest body.old.around } }
{
    body.around.pop();
}

// Takes the part at a place out of the list. An end of a block stays there.
fn take_part(emitted: &mut List<Emitted>, at: usize) -> Emitted
    requires { at < length emitted.old }
    ensures part { slice_get emitted.old at ≡ Some result }
    ensures rest { emitted.new ≡ slice_set emitted.old at emit.End }
{
    mem::replace(emitted.item_mut(at), Emitted::End)
}

fn step(alloc: Global, found: &[u32], body: &mut Body, part: Emitted) -> Result<(), Memory>
    ensures { OnOk result (body.new ≡ line_step found.now part body.old) }
{
    match part {
        Emitted::Op(instr, line) => add_line(body, instr, line),
        Emitted::Exit(line, number) => {
            let place = target(&body.around, number);
            add_line(body, Instr::Jump(place), line)
        }
        Emitted::Unless(line, number) => {
            let place = target(&body.around, number);
            add_line(body, Instr::JumpIfNot(place), line)
        }
        Emitted::Choose(line, cases, otherwise) => {
            add_choice(alloc, body, line, cases.as_slice(), otherwise)
        }
        Emitted::Block => enter(found, body),
        Emitted::Again => enter(found, body),
        Emitted::End => {
            leave(body);
            Ok(())
        }
    }
}

/// Returns the lines of a body whose blocks have these targets. It takes the parts out of the list.
pub fn lines_of(
    alloc: Global,
    found: &[u32],
    emitted: &mut List<Emitted>,
) -> Result<List<CodeLine>, Memory>
    ensures { IfOk result (λ lines. lines ≡ (line_steps found.now emitted.old no_lines_of).lines) }
{
    let mut body = no_lines(alloc);
    for at in 0..emitted.len() {
        let part = take_part(emitted, at);
        step(alloc, found, &mut body, part)?;
    }
    let Body { lines, .. } = body;
    Ok(lines)
}
