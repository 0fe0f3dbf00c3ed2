//! The third walk: the most operands that a frame has at any place.
//!
//! The operands at a place are known from the jumps to it and from the instruction before it. They
//! are `None` if the place is not reached.

ghost use Rattle.std.specs.Prelude.{◌≡◌, ◌-◌, ◌∷◌, ◌<◌, true, false, Some, None, max, IfOk, OnOk};
ghost use Rattle.std.specs.Option.{option_map};
ghost use Rattle.golf_data.specs.Effects.{cases_taken as cases_taken_of};
ghost use Rattle.golf_code_layout.specs.Depth.{height as height_of, met as met_of, reached, behind as behind_of};
ghost use Rattle.golf_code_layout.specs.Depth.{through as through_of, above as above_of, innermost, outer};
ghost use Rattle.golf_code_targets.specs.Walks.{rest};
ghost use Rattle.golf_code_targets.specs.Heights.{stands, leads, takes_in, choice_flow, case_chosen, cases_chosen};
ghost use Rattle.golf_code_targets.specs.Heights.{default_chosen, end_height, height_step, no_heights as no_heights_of};
ghost use Rattle.golf_code_targets.specs.Heights.{most_of as most_of_of};

use crate::nesting::Nesting;
use golf_base::{List, Memory};
use golf_code_layout::Emitted;
use golf_data::{Instr, SelectCase, case_left, case_taken, effect_of};
use std::alloc::Global;

/// The state of the third walk: the numbers of operands at places so far.
#[derive(Drop)]
pub struct Heights {
    /// The most operands so far.
    pub most: u32,
    /// How many operands there are here; `None` if this place is not reached.
    pub here: Option<u32>,
    /// Whether the target of each block around is its end.
    pub kinds: Nesting<bool>,
    /// How many operands there are at the target of each block around, as far as it is reached.
    pub targets: Nesting<Option<u32>>,
}

fn no_heights(alloc: Global) -> Heights
    ensures { result ≡ no_heights_of }
{
    Heights {
        most: 0,
        here: Some(0),
        kinds: Nesting::new(alloc),
        targets: Nesting::new(alloc),
    }
}

// Returns how many operands there are after an instruction with `before` operands before it.
fn through(gives: &[bool], instr: &Instr, before: u32) -> Result<Option<u32>, Memory>
    ensures { IfOk result (λ h. h ≡ through_of gives.now instr.now before) }
{
    let effect = effect_of(gives, instr);
    let rest = before.saturating_sub(effect.taken);
    let after = rest.checked_add(effect.left).ok_or(Memory)?;
    if effect.goes_on {
        Ok(Some(after))
    } else {
        Ok(None)
    }
}

fn behind(gives: &[bool], instr: &Instr, before: Option<u32>) -> Result<Option<u32>, Memory>
    ensures { IfOk result (λ h. h ≡ behind_of gives.now instr.now before) }
{
    match before {
        None => Ok(None),
        Some(before) => through(gives, instr, before),
    }
}

fn height(h: Option<u32>) -> u32
    ensures { result ≡ height_of h }
{
    h.unwrap_or(0)
}

fn met(h: Option<u32>, other: Option<u32>) -> Option<u32>
    ensures { result ≡ met_of h other }
{
    match h {
        None => other,
        Some(n) => Some(n),
    }
}

fn lower(h: Option<u32>, by: u32) -> Option<u32>
    ensures { result ≡ option_map (λ n. n - by) h }
{
    match h {
        None => None,
        Some(n) => Some(n.saturating_sub(by)),
    }
}

fn raise(h: Option<u32>, by: u32) -> Result<Option<u32>, Memory>
    ensures { IfOk result (λ r. r ≡ above_of h by) }
{
    match h {
        None => Ok(None),
        Some(n) => Ok(Some(n.checked_add(by).ok_or(Memory)?)),
    }
}

// Records a jump to a target with this number of operands.
#[tactic(auto, using(crate::proofs::Looks::reached_there, crate::proofs::Looks::reached_past))]
fn reach(targets: &mut Nesting<Option<u32>>, number: u32, h: Option<u32>)
    ensures { targets.new ≡ reached targets.old number h }
{
    match targets.get(number as usize) {
        None => {}
        Some(target) => targets.set(number as usize, met(target, h)),
    }
}

// Records this number of operands at the present place.
fn stand(heights: &mut Heights, after: Option<u32>)
    ensures { heights.new ≡ stands after heights.old }
{
    heights.most = heights.most.max(height(after));
    heights.here = after;
}

fn operate(heights: &mut Heights, gives: &[bool], instr: &Instr) -> Result<(), Memory>
    ensures { OnOk result (heights.new ≡ stands (behind_of gives.now instr.now heights.old.here) heights.old) }
{
    let after = behind(gives, instr, heights.here)?;
    stand(heights, after);
    Ok(())
}

fn exit(heights: &mut Heights, number: u32)
    ensures { heights.new ≡ record heights.old { here = None; targets = reached heights.old.targets number heights.old.here } }
{
    reach(&mut heights.targets, number, heights.here);
    heights.here = None;
}

fn unless(heights: &mut Heights, number: u32)
    ensures { heights.new ≡ leads number (option_map (λ n. n - 1) heights.old.here) (stands (option_map (λ n. n - 1) heights.old.here) heights.old) }
{
    let after = lower(heights.here, 1);
    stand(heights, after);
    reach(&mut heights.targets, number, after);
}

fn cases_taken(cases: &[SelectCase]) -> Result<u32, Memory>
    ensures { IfOk result (λ n. n ≡ cases_taken_of cases.now) }
{
    let mut sum = 0u32;
    for case in cases {
        sum = sum.checked_add(case_taken(case.kind)).ok_or(Memory)?;
    }
    Ok(sum)
}

// Records the jump of a case to its target.
fn choose_case(heights: &mut Heights, below: Option<u32>, case: SelectCase) -> Result<(), Memory>
    ensures { OnOk result (heights.new ≡ case_chosen below case heights.old) }
{
    let after = raise(below, case_left(case.kind))?;
    heights.most = heights.most.max(height(after));
    reach(&mut heights.targets, case.target, after);
    Ok(())
}

fn choose_cases(
    heights: &mut Heights,
    below: Option<u32>,
    cases: &[SelectCase],
) -> Result<(), Memory>
    ensures { OnOk result (heights.new ≡ cases_chosen below cases.now heights.old) }
{
    for case in cases {
        choose_case(heights, below, *case)?;
    }
    Ok(())
}

// Records the jump of `default` to its target, if there is one. The next place is not reached.
fn choose_default(heights: &mut Heights, below: Option<u32>, otherwise: Option<u32>)
    ensures { heights.new ≡ default_chosen below otherwise heights.old }
{
    heights.here = None;
    match otherwise {
        None => {}
        Some(number) => reach(&mut heights.targets, number, below),
    }
}

#[tactic(auto, using(crate::proofs::Looks::choice_taken))]
fn choose(heights: &mut Heights, cases: &[SelectCase], otherwise: Option<u32>) -> Result<(), Memory>
    ensures { OnOk result (heights.new ≡ takes_in heights.old (choice_flow cases.now otherwise heights.old)) }
{
    let taken = cases_taken(cases)?;
    let below = lower(heights.here, taken);
    choose_cases(heights, below, cases)?;
    choose_default(heights, below, otherwise);
    Ok(())
}

fn begin_block(heights: &mut Heights) -> Result<(), Memory>
    ensures { OnOk result (heights.new ≡ record heights.old { kinds = true ∷ heights.old.kinds; targets = None ∷ heights.old.targets }) }
{
    heights.kinds.push(true)?;
    heights.targets.push(None)?;
    Ok(())
}

fn begin_again(heights: &mut Heights) -> Result<(), Memory>
    ensures { OnOk result (heights.new ≡ record heights.old { kinds = false ∷ heights.old.kinds; targets = heights.old.here ∷ heights.old.targets }) }
{
    heights.kinds.push(false)?;
    heights.targets.push(heights.here)?;
    Ok(())
}

fn pop_target(targets: &mut Nesting<Option<u32>>) -> Option<u32>
    ensures first { result ≡ innermost targets.old }
    ensures others { targets.new ≡ outer targets.old }
{
    match targets.pop() {
        None => None,
        Some(target) => target,
    }
}

fn end(heights: &mut Heights)
    ensures { heights.new ≡ record heights.old { here = end_height heights.old.kinds heights.old.here heights.old.targets; kinds = rest heights.old.kinds; targets = outer heights.old.targets } }
{
    let target = pop_target(&mut heights.targets);
    match heights.kinds.pop() {
        None => {}
        Some(false) => {}
        Some(true) => heights.here = met(heights.here, target),
    }
}

fn step(gives: &[bool], heights: &mut Heights, part: &Emitted) -> Result<(), Memory>
    ensures { OnOk result (heights.new ≡ height_step gives.now part.now heights.old) }
{
    match part {
        Emitted::Op(instr, _) => operate(heights, gives, instr),
        Emitted::Exit(_, number) => {
            exit(heights, *number);
            Ok(())
        }
        Emitted::Unless(_, number) => {
            unless(heights, *number);
            Ok(())
        }
        Emitted::Choose(_, cases, otherwise) => choose(heights, cases.as_slice(), *otherwise),
        Emitted::Block => begin_block(heights),
        Emitted::Again => begin_again(heights),
        Emitted::End => {
            end(heights);
            Ok(())
        }
    }
}

/// Returns the most operands at any place of these parts. `gives` says which functions give a
/// value.
pub fn most_of(alloc: Global, gives: &[bool], emitted: &[Emitted]) -> Result<u32, Memory>
    ensures { IfOk result (λ most. most ≡ most_of_of gives.now emitted.now) }
{
    let mut heights = no_heights(alloc);
    for part in emitted {
        step(gives, &mut heights, part)?;
    }
    Ok(heights.most)
}
