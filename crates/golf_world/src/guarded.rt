//! The data that the lock of a world guards.
//!
//! Only the thread that holds the lock changes it.

ghost use Rattle.std.specs.Prelude.{◌≡◌, ◌<◌, [], IfOk, OnErr};
ghost use mathlib.Core.List.{IsPrefix};
ghost use Rattle.golf_world.specs.Rule.{keeper_view};
ghost use Rattle.golf_world.specs.Steps.{HasStepped, HasDoneNothing};

use crate::execution::Execution;
use crate::history::Stepped;
use crate::pass::StepPass;
use crate::rule::{View, WorldName};
use crate::seats::{SharedTable, append, look};
use atomic_table::Seat;
use golf_base::Memory;
use golf_data::Code;
use std::alloc::Global;
use std::marker::Model;
use std::thread::Threads;

/// The program, and the keeper's seat, which knows the history. Contracts see it as the history.
#[derive(Drop)]
pub(crate) struct Guarded<W: WorldName> {
    pub(crate) execution: Execution<W>,
    pub(crate) keeper: Seat<(), View>,
}

impl<W: WorldName> Model for Guarded<W> {
    ghost use Rattle.std.specs.Prelude.{◌≡◌, List, []};
    ghost use Rattle.golf_world.specs.declared.history.HistoryEntry.{HistoryEntry};
    ghost use Rattle.golf_world.specs.Rule.{keeper_view};

    ghost Value = { List HistoryEntry };

    ghost view = { λ k. k.execution };

    ghost invariant = { λ k. (k.keeper.table_id ≡ W.table) × (k.keeper.me ≡ (keeper_view W.passes k.execution, [])) };
}

impl<W: WorldName> Guarded<W> {
    pub(crate) fn new(execution: Execution<W>, keeper: Seat<(), View>) -> Guarded<W>
        requires table { keeper.table_id ≡ W.table }
        requires view { keeper.me ≡ (keeper_view W.passes execution, []) }
        ensures { result ≡ execution }
    {
        Guarded { execution, keeper }
    }

    /// Takes a step of the pass.
    pub(crate) fn step<R: Threads + Sync>(
        &mut self,
        rt: &R,
        alloc: Global,
        code: &Code,
        table: &SharedTable,
        pass: &mut StepPass<W>,
    ) -> Result<Stepped, Memory>
        requires code { code.now ≡ W.code }
        requires table { table.now.table_id ≡ W.table }
        requires word { 0 < table.now.table_id.words }
        ensures number { pass.new.number ≡ pass.old.number }
        ensures later { IsPrefix pass.old.seen pass.new.seen }
        ensures ok { IfOk result (λ s. HasStepped W.code s pass.old pass.new) }
        ensures err { OnErr result (HasDoneNothing W.code pass.old pass.new) }
        ensures all { pass.new.seen ≡ self.new }
        ensures unchanged { OnErr result (self.new ≡ self.old) }
    {
        let number = pass.number;
        let Some(own) = pass.seat.take() else {
            unreachable!()
        };
        match self.execution.take_turn(rt, alloc, code, number) {
            Ok(
                Stepped::Turned {
                    at,
                    goroutine,
                    number: taken,
                },
            ) => {
                pass.seat = Some(append::<W>(table, &mut self.keeper, number, own));
                Ok(Stepped::Turned {
                    at,
                    goroutine,
                    number: taken,
                })
            }
            Ok(Stepped::Ended(ending)) => {
                pass.seat = Some(look::<W>(table, &mut self.keeper, number, own));
                Ok(Stepped::Ended(ending))
            }
            Ok(Stepped::Spent) => {
                pass.seat = Some(look::<W>(table, &mut self.keeper, number, own));
                Ok(Stepped::Spent)
            }
            Err(memory) => {
                pass.seat = Some(look::<W>(table, &mut self.keeper, number, own));
                Err(memory)
            }
        }
    }
}
