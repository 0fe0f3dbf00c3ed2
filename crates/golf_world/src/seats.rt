//! Steps on the table of a world, under its lock. Each step joins the pass's seat to the keeper's, and
//! splits it off again.

ghost use Rattle.std.specs.Prelude.{◌≡◌, ◌<◌, ◌∷◌, ◌++◌, [], None, length};
ghost use mathlib.Core.List.{IsPrefix};
ghost use Rattle.golf_model.specs.State.{ending};
ghost use Rattle.golf_world.specs.History.{after, entry, most_entries, next_number};
ghost use Rattle.golf_world.specs.Rule.{keeper_view, pass_view};
ghost use Rattle.golf_world.specs.Seats.{mine_in};

use crate::rule::{Append, Look, PassTransfer, View, WorldName, WorldRule};
use atomic_table::{Seat, Shared};

pub(crate) type SharedTable = Shared<(), View, u32, WorldRule>;

/// Adds an entry of this pass to the history and to the pass. Returns the seat of the pass.
pub(crate) fn append<W: WorldName>(
    table: &SharedTable,
    keeper: &mut Seat<(), View>,
    pass: u32,
    own: Seat<(), View>,
) -> Seat<(), View>
    requires word { 0 < table.now.table_id.words }
    requires keeper_table { keeper.old.table_id ≡ table.now.table_id }
    requires own_table { own.table_id ≡ table.now.table_id }
    requires keeper { keeper.old.me ≡ (keeper_view W.passes keeper.old.me.0.seen, []) }
    requires own { own.me ≡ (pass_view W.passes pass (mine_in own.me.0.held) own.me.0.seen, []) }
    requires few { length keeper.old.me.0.seen < most_entries }
    requires goes { ending (after W.code keeper.old.me.0.seen) ≡ None }
    ensures keeper_table { keeper.new.table_id ≡ table.now.table_id }
    ensures own_table { result.table_id ≡ table.now.table_id }
    ensures later { IsPrefix own.me.0.seen keeper.old.me.0.seen }
    ensures keeper { keeper.new.me ≡ (keeper_view W.passes (keeper.old.me.0.seen ++ entry pass (next_number W.code pass keeper.old.me.0.seen) ∷ []), []) }
    ensures own { result.me ≡ (pass_view W.passes pass (mine_in own.me.0.held ++ (length keeper.old.me.0.seen, next_number W.code pass keeper.old.me.0.seen) ∷ []) (keeper.old.me.0.seen ++ entry pass (next_number W.code pass keeper.old.me.0.seen) ∷ []), []) }
{
    table.join_seat::<PassTransfer>(keeper, own);
    table.fetch_add::<Append<W>>(keeper, 0, 1);
    table.split_seat::<PassTransfer>(keeper)
}

/// Lets the pass see the whole history. Returns the seat of the pass.
pub(crate) fn look<W: WorldName>(
    table: &SharedTable,
    keeper: &mut Seat<(), View>,
    pass: u32,
    own: Seat<(), View>,
) -> Seat<(), View>
    requires word { 0 < table.now.table_id.words }
    requires keeper_table { keeper.old.table_id ≡ table.now.table_id }
    requires own_table { own.table_id ≡ table.now.table_id }
    requires keeper { keeper.old.me ≡ (keeper_view W.passes keeper.old.me.0.seen, []) }
    requires own { own.me ≡ (pass_view W.passes pass (mine_in own.me.0.held) own.me.0.seen, []) }
    ensures keeper_table { keeper.new.table_id ≡ table.now.table_id }
    ensures own_table { result.table_id ≡ table.now.table_id }
    ensures later { IsPrefix own.me.0.seen keeper.old.me.0.seen }
    ensures keeper { keeper.new.me ≡ keeper.old.me }
    ensures own { result.me ≡ (pass_view W.passes pass (mine_in own.me.0.held) keeper.old.me.0.seen, []) }
{
    table.join_seat::<PassTransfer>(keeper, own);
    table.load::<Look>(keeper, 0);
    table.split_seat::<PassTransfer>(keeper)
}
