//! A program that the threads of callers step.
//!
//! A lock lets one pass step at a time.

ghost use Rattle.std.specs.Prelude.{◌≡◌, ◌<◌, ◌≤◌, IfOk, OnErr, length, Some, slice_get, ℕ};
ghost use mathlib.Core.List.{IsPrefix};
ghost use Rattle.golf_theory.specs.Membership.{Every};
ghost use Rattle.golf_data.specs.Places.{HasPlaces};
ghost use Rattle.golf_model.specs.State.{start as start_of};
ghost use Rattle.golf_world.specs.History.{after, most_entries, reports_after, IsHistory};
ghost use Rattle.golf_world.specs.Names.{table_name, pass_count};
ghost use Rattle.golf_world.specs.Steps.{Pass, HasStepped, HasDoneNothing, ComesExactly, IsNewPass, IsPassIn};

use crate::execution::Execution;
use crate::guarded::Guarded;
use crate::history::{History, Stepped};
use crate::pass::StepPass;
use crate::passes::{OwnedTable, join_passes, split_passes};
use crate::rule::WorldName;
use crate::table::WorldTable;
use golf_base::{List, Memory};
use golf_data::Code;
use golf_state::State;
use std::alloc::Global;
use std::sync::{Mutex, Wait};
use std::thread::Threads;

/// A program that threads step through a `&`, each with its own pass.
#[derive(Drop)]
pub struct World<'a, W: WorldName> {
    lock: Mutex<Guarded<W>>,
    table: OwnedTable,
    code: &'a Code,
    ghost named: { table.shared.table_id ≡ W.table },
    ghost word: { table.shared.table_id.words ≡ 1 },
    ghost no_slots: { table.shared.table_id.slots ≡ 0 },
    ghost coded: { code.now ≡ W.code },
}

impl<'a, W: WorldName> World<'a, W> {
    /// Returns a world before its first turn, and its passes, which are numbered from 0. `W` names the
    /// table, the number of passes and the code. On `Memory` it returns nothing.
    pub fn new(
        alloc: Global,
        table: WorldTable,
        code: &'a Code,
        state: State,
    ) -> Result<(World<'a, W>, List<StepPass<W>>), Memory>
        requires table { table_name table ≡ W.table }
        requires passes { pass_count table ≡ W.passes }
        requires code { code.now ≡ W.code }
        requires places { HasPlaces code.now }
        requires state { state ≡ start_of code.now }
        ensures count { IfOk result (λ r. length r.1 ≡ W.passes) }
        ensures passes { IfOk result (λ r. (n : ℕ) (p : Pass) → slice_get r.1 n ≡ Some p → IsNewPass n p) }
    {
        let WorldTable {
            table,
            mut first,
            passes,
        } = table;
        let list = split_passes::<W>(alloc, &table, &mut first, passes)?;
        let guarded = Guarded::new(Execution::new(alloc, state), first);
        let world = World {
            lock: Mutex::new(guarded),
            table,
            code,
        };
        Ok((world, list))
    }

    /// Takes a step of the program by this pass, while no other pass takes one. Let p be the number of the
    /// pass, t the number of entries, and m the number of goroutines that can run. The goroutine at the
    /// place `(p + t) % m`, in rising order, takes a turn. A collection that its instruction asks for
    /// follows at once, with one marker and without recovery. If the program has ended, or the history has
    /// `MOST_ENTRIES` entries, it takes no turn.
    ///
    /// On `Err`, which is `Memory`, state, history and reports are unchanged.
    pub fn step<R: Threads + Wait + Sync>(
        &self,
        rt: &R,
        alloc: Global,
        pass: &mut StepPass<W>,
    ) -> Result<Stepped, Memory>
        ensures number { pass.new.number ≡ pass.old.number }
        ensures later { IsPrefix pass.old.seen pass.new.seen }
        ensures ok { IfOk result (λ s. HasStepped W.code s pass.old pass.new) }
        ensures err { OnErr result (HasDoneNothing W.code pass.old pass.new) }
        ensures exactly { ComesExactly W.code result pass.old pass.new }
    {
        let mut guarded = self.lock.lock(rt);
        guarded.step(rt, alloc, self.code, &self.table.shared, pass)
    }

    /// Returns the state and the history, after no thread steps any more. The history has for each pass in
    /// `passes` exactly the entries of that pass, in their order.
    pub fn close(self, passes: List<StepPass<W>>) -> (State, History)
        ensures state { result.0 ≡ after W.code result.1.entries }
        ensures reports { result.1.reports ≡ reports_after W.code result.1.entries }
        ensures history { IsHistory W.code W.passes result.1.entries }
        ensures few { length result.1.entries ≤ most_entries }
        ensures passes { Every (IsPassIn result.1.entries) passes }
    {
        let World {
            lock,
            table,
            code: _,
        } = self;
        let Guarded { execution, keeper } = lock.into_inner();
        let keeper = join_passes::<W>(&table, keeper, passes);
        let closed = table.close_with(keeper);
        closed.free();
        execution.into_parts()
    }
}
