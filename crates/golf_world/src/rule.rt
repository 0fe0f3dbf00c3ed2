//! The name of a world, and the rule of its table.

use crate::history::HistoryEntry;
use atomic_table::{Join, Play, Split, TableRule};
use std::collections::LinkedList;
use std::marker::{Brand, PhantomData};

/// Names one world. The program chooses the members where it calls a function that is generic over the
/// name.
pub trait WorldName {
    ghost use Rattle.std.specs.Prelude.{ℕ};
    ghost use Rattle.atomic_table.specs.Seated.{TableId};
    ghost use Rattle.golf_data.specs.declared.code.Code.{Code};

    /// The table of the world.
    ghost table: { TableId };
    /// The number of its passes.
    ghost passes: { ℕ };
    /// The code that it runs.
    ghost code: { Code };
}

impl WorldName for Brand {
    ghost use Rattle.golf_world.specs.Rule.{no_table, no_code};

    ghost table = { no_table };

    ghost passes = { 0 };

    ghost code = { no_code };
}

/// The number of a pass, and the places and numbers of its entries, in order.
pub struct PassEntries {
    pub pass: u32,
    pub mine: LinkedList<(u32, u64)>,
}

/// The account of a seat. It is a ghost type: no value of it is ever made.
pub struct View {
    /// The number of passes of the world.
    pub passes: u32,
    /// Whether the seat is the keeper's, which has seen the whole history.
    pub keeps: bool,
    /// The passes that the seat stands for.
    pub held: LinkedList<PassEntries>,
    /// The prefix of the history that the seat has seen.
    pub seen: LinkedList<HistoryEntry>,
    /// The prefixes that the seats joined to this one had seen.
    pub earlier: LinkedList<LinkedList<HistoryEntry>>,
}

/// The rule of the shared world: its history grows only at its end.
pub struct WorldRule;

impl TableRule<(), View, u32> for WorldRule {
    ghost use Rattle.golf_world.specs.Rule.{HoldsHistory, first_view};

    ghost holds = { HoldsHistory };

    ghost first = { first_view };
}

/// The step that adds an entry of the one pass that the seat stands for.
pub struct Append<W: WorldName> {
    of: PhantomData<W>,
}

impl<W: WorldName> Play<(), View> for Append<W> {
    ghost use Rattle.golf_world.specs.Rule.{AppendTells};

    ghost then = { λ step me n now. AppendTells W.code step me n now };
}

/// The step that looks at the history.
pub struct Look;

impl Play<(), View> for Look {
    ghost use Rattle.golf_world.specs.Rule.{HistoryLookTells};

    ghost then = { HistoryLookTells };
}

/// Splits and joins of passes.
pub struct PassTransfer;

impl Split<View> for PassTransfer {
    ghost use Rattle.golf_world.specs.Rule.{left_view, right_view};

    ghost left = { left_view };

    ghost right = { right_view };
}

impl Join<View> for PassTransfer {
    ghost use Rattle.golf_world.specs.Rule.{both_views, spent_view};

    ghost both = { both_views };

    ghost spent = { spent_view };
}
