//! The passes of a world. It splits them off when it is made, and joins them when it is closed.

ghost use Rattle.std.specs.Prelude.{◌≡◌, ◌<◌, [], IfOk, length, Some, slice_get, true, ℕ};
ghost use Rattle.golf_theory.specs.Membership.{Every, In};
ghost use Rattle.golf_world.specs.Rule.{first_view, keeper_view, pass_entries};
ghost use Rattle.golf_world.specs.Steps.{Pass, IsNewPass};

use crate::pass::StepPass;
use crate::rule::{PassTransfer, View, WorldName, WorldRule};
use atomic_table::{Seat, Table};
use golf_base::{List, Memory};
use std::alloc::Global;

/// The table of a world, which owns its word.
pub(crate) type OwnedTable = Table<(), View, u32, WorldRule, Global>;

/// Splits the passes off, in order. On `Memory` it returns no pass.
pub(crate) fn split_passes<W: WorldName>(
    alloc: Global,
    table: &OwnedTable,
    first: &mut Seat<(), View>,
    passes: u32,
) -> Result<List<StepPass<W>>, Memory>
    requires named { table.now.shared.table_id ≡ W.table }
    requires word { table.now.shared.table_id.words ≡ 1 }
    requires passes { passes ≡ W.passes }
    requires seat { first.old.table_id ≡ table.now.shared.table_id }
    requires view { first.old.me ≡ (first_view passes, []) }
    ensures count { IfOk result (λ l. length l ≡ passes) }
    ensures passes { IfOk result (λ l. (n : ℕ) (p : Pass) → slice_get l n ≡ Some p → IsNewPass n p) }
    ensures table { first.new.table_id ≡ first.old.table_id }
    ensures view { IfOk result (λ l. first.new.me ≡ (keeper_view W.passes [], [])) }
{
    let mut list = List::new(alloc);
    for number in 0..passes {
        let seat = table.shared.split_seat::<PassTransfer>(first);
        list.push(StepPass::new(number, seat))?;
    }
    Ok(list)
}

/// Returns the keeper's seat, after all passes are joined to it.
pub(crate) fn join_passes<W: WorldName>(
    table: &OwnedTable,
    mut keeper: Seat<(), View>,
    mut passes: List<StepPass<W>>,
) -> Seat<(), View>
    requires named { table.now.shared.table_id ≡ W.table }
    requires word { table.now.shared.table_id.words ≡ 1 }
    requires table { keeper.table_id ≡ W.table }
    requires keeper { keeper.me ≡ (keeper_view W.passes keeper.me.0.seen, []) }
    ensures table { result.table_id ≡ W.table }
    ensures keeps { result.me.0.keeps ≡ true }
    ensures seen { result.me.0.seen ≡ keeper.me.0.seen }
    ensures passes { Every (λ p. In (pass_entries p.number p.mine) result.me.0.held × In p.seen result.me.0.earlier) passes }
{
    while let Some(pass) = passes.pop() {
        let seat = pass.into_seat();
        table.shared.join_seat::<PassTransfer>(&mut keeper, seat);
    }
    keeper
}
