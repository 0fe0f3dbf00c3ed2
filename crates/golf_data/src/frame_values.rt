//! The slots and the operands of a frame.
//!
//! They lie one after the other in one piece of memory: the number of slots never changes, and operands come
//! and go at the end.

ghost use Rattle.std.specs.Prelude.{◌≡◌, [], ◌∷◌, ◌++◌, ◌+◌, ◌<◌, ◌≤◌, false, pos, length, replicate, slice_set, take, Some};
ghost use Rattle.std.specs.Prelude.{IfOk, MatchOption, OnErr, OnOk};
ghost use Rattle.golf_data.specs.declared.value.Value.{Value};
ghost use Rattle.golf_data.specs.Masks.{stays_under};
ghost use Rattle.golf_data.specs.Slots.{cleared_slots};

use crate::value::Value;
use crate::zeros::{clear_bits, clear_first, ones_from, without};
use golf_base::Memory;
use std::alloc::Global;
use std::marker::Model;

/// The slots of a frame, its operands, the last one on top, and how many more operands there is room for.
///
/// Bit i of `zeros` is 1 if slot i does not exist, and else only if it holds 0. So a turn visits only the slots
/// that died in it. `is_cleared` is true only if all slots hold 0.
#[derive(Debug, Drop)]
pub struct FrameValues {
    // the slots, and after them the operands
    values: Vec<Value>,
    zeros: u64,
    slots: u32,
    is_cleared: bool,
}

impl Model for FrameValues {
    ghost use Rattle.golf_data.specs.FrameValues.{SlotsAndOperands, values_of, AreFrameValues};

    ghost Value = { SlotsAndOperands };

    ghost view = { values_of };

    ghost invariant = { AreFrameValues };
}

impl FrameValues {
    /// Returns the values of a new frame: the slots are its arguments and `rest` more, which hold 0. It has no
    /// operand, and room for `depth`.
    pub fn of(
        alloc: Global,
        arguments: &[Value],
        rest: usize,
        depth: usize,
    ) -> Result<FrameValues, Memory>
        ensures slots { IfOk result (λ v. v.slots ≡ arguments.now ++ replicate rest (Value.Int (pos 0))) }
        ensures operands { IfOk result (λ v. v.operands ≡ []) }
        ensures spare { IfOk result (λ v. depth ≤ v.spare) }
    {
        let count = arguments.len().checked_add(rest).ok_or(Memory)?;
        let slots = match u32::try_from(count) {
            Ok(slots) => slots,
            Err(_) => return Err(Memory),
        };
        let mut values = Vec::with_capacity(alloc, count.saturating_add(depth))?;
        values.extend_from_slice(arguments)?;
        values.resize(count, Value::Int(0))?;
        values.reserve(depth)?;
        Ok(FrameValues {
            values,
            zeros: ones_from(arguments.len()),
            slots,
            is_cleared: false,
        })
    }

    /// Returns the number of slots.
    #[inline(always)]
    pub fn slot_count(&self) -> usize
        ensures { result ≡ length self.now.slots }
    {
        self.slots as usize
    }

    /// Returns the slots.
    #[inline(always)]
    pub fn slots(&self) -> &[Value]
        ensures { result.now ≡ self.now.slots }
    {
        &self.values.as_slice()[..self.slots as usize]
    }

    /// Returns the number of operands.
    #[inline(always)]
    pub fn operand_count(&self) -> usize
        ensures { result ≡ length self.now.operands }
    {
        self.values.len() - self.slots as usize
    }

    /// Returns the operands, the last one on top.
    #[inline(always)]
    pub fn operands(&self) -> &[Value]
        ensures { result.now ≡ self.now.operands }
    {
        &self.values.as_slice()[self.slots as usize..]
    }

    /// Stores a value in a slot.
    #[inline(always)]
    pub fn set(&mut self, at: usize, value: Value)
        requires { at < length self.old.slots }
        ensures { self.new ≡ record self.old { slots = slice_set self.old.slots at value } }
    {
        self.values[at] = value;
        self.is_cleared = false;
        if at < 64 {
            self.zeros = without(self.zeros, at);
        }
    }

    /// Stores 0 in each slot whose bit of the mask is 0. Slots from 64 on stay the same.
    #[inline(always)]
    pub fn clear_under(&mut self, mask: u64)
        ensures { self.new ≡ record self.old { slots = cleared_slots (stays_under (Some mask)) self.old.slots } }
    {
        let dead = !(mask | self.zeros);
        if dead != 0 {
            clear_bits(self.values.as_mut_slice(), dead);
            self.zeros |= dead;
        }
    }

    /// Stores 0 in all slots. It does nothing if they are known to hold 0.
    pub fn clear_slots(&mut self)
        ensures { self.new ≡ record self.old { slots = cleared_slots (λ i. false) self.old.slots } }
    {
        if self.is_cleared {
            return;
        }
        clear_first(self.values.as_mut_slice(), self.slots as usize);
        self.zeros = ones_from(0);
        self.is_cleared = true;
    }

    /// Takes the last operand and returns it, or `None` if there is none. Its room becomes spare.
    #[inline(always)]
    pub fn pop(&mut self) -> Option<Value>
        ensures slots { self.new.slots ≡ self.old.slots }
        ensures items { MatchOption result ((self.old.operands ≡ []) × (self.new.operands ≡ [])) (λ last. self.old.operands ≡ self.new.operands ++ last ∷ []) }
        ensures spare { self.new.spare + length self.new.operands ≡ self.old.spare + length self.old.operands }
    {
        if self.values.len() == self.slots as usize {
            return None;
        }
        self.values.pop()
    }

    /// Makes room for at least `more` operands. On `Err` the room stays the same.
    #[inline(always)]
    pub fn reserve(&mut self, more: usize) -> Result<(), Memory>
        ensures slots { self.new.slots ≡ self.old.slots }
        ensures items { self.new.operands ≡ self.old.operands }
        ensures spare { self.old.spare ≤ self.new.spare }
        ensures ok { OnOk result (more ≤ self.new.spare) }
        ensures err { OnErr result (self.new ≡ self.old) }
    {
        self.values.reserve(more)?;
        Ok(())
    }

    /// Drops all operands and keeps their room.
    #[inline(always)]
    pub fn clear(&mut self)
        ensures slots { self.new.slots ≡ self.old.slots }
        ensures items { self.new.operands ≡ [] }
        ensures spare { self.new.spare ≡ self.old.spare + length self.old.operands }
    {
        self.values.truncate(self.slots as usize);
    }

    /// Drops the operands from place `n` on and keeps their room.
    #[inline(always)]
    pub fn truncate(&mut self, n: usize)
        ensures slots { self.new.slots ≡ self.old.slots }
        ensures items { self.new.operands ≡ take n self.old.operands }
        ensures spare { self.new.spare + length self.new.operands ≡ self.old.spare + length self.old.operands }
    {
        if n < self.operand_count() {
            self.values.truncate(self.slots as usize + n);
        }
    }

    /// Adds an operand on top. The caller knows that there is room for it.
    #[inline(always)]
    pub fn push_ready(&mut self, value: Value)
        requires { 0 < self.old.spare }
        ensures slots { self.new.slots ≡ self.old.slots }
        ensures items { self.new.operands ≡ self.old.operands ++ value ∷ [] }
        ensures spare { self.new.spare + 1 ≡ self.old.spare }
    {
        self.values.push_reserved(value);
    }

    /// Adds an operand on top. On `Err` the slots and operands are unchanged.
    #[inline(always)]
    pub fn push(&mut self, value: Value) -> Result<(), Memory>
        ensures slots { self.new.slots ≡ self.old.slots }
        ensures ok { OnOk result (self.new.operands ≡ self.old.operands ++ value ∷ []) }
        ensures err { OnErr result (self.new.operands ≡ self.old.operands) }
        ensures spare { self.old.spare ≤ self.new.spare + 1 }
    {
        self.values.push(value)?;
        Ok(())
    }
}
