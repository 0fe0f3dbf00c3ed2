//! The table of a world.
//!
//! It is made before the world that uses it.

// `specs/Names.antt` names the struct, so this file must not name that file.
ghost use Rattle.std.specs.Prelude.{◌≡◌, ◌<◌, ◌≤◌, [], IfOk};
ghost use Rattle.golf_world.specs.Rule.{first_view};

use crate::passes::OwnedTable;
use crate::rule::View;
use atomic_table::{Seat, Table};
use golf_base::Memory;
use std::alloc::Global;

/// A table of one word with its first seat, for a world that is still to be made.
#[derive(Drop)]
pub struct WorldTable {
    pub(crate) table: OwnedTable,
    pub(crate) first: Seat<(), View>,
    pub(crate) passes: u32,
    ghost word: { table.shared.table_id.words ≡ 1 },
    ghost no_slots: { table.shared.table_id.slots ≡ 0 },
    ghost seat: { first.table_id ≡ table.shared.table_id },
    ghost view: { first.me ≡ (first_view passes, []) },
    ghost some: { 0 < passes },
    ghost few: { passes ≤ 16 },
}

impl WorldTable {
    /// Returns a table for `passes` passes, 1 to 16. The only error is `Memory`.
    pub fn new(alloc: Global, passes: u32) -> Result<WorldTable, Memory>
        requires some { 0 < passes }
        requires few { passes ≤ 16 }
        ensures { IfOk result (λ t. t.passes ≡ passes) }
    {
        let (table, first) = Table::of_words(alloc, &[0], &passes)?;
        Ok(WorldTable {
            table,
            first,
            passes,
        })
    }
}
