//! The sleepers that wait on each node.
//!
//! A sleeper is in the list of each node that it waits on. So a marked node wakes its sleepers without a
//! search.

ghost use Rattle.std.specs.Prelude.{◌≡◌, IfOk};

use golf_base::Memory;
use golf_model::Graph;
use golf_rows::FlatRows;
use std::alloc::Global;
use std::marker::Model;

/// For each node of a graph the list of the sleepers that wait on it. Without a sleeper there are no lists.
#[derive(Drop)]
pub(crate) struct Waiters {
    rows: FlatRows,
}

impl Model for Waiters {
    ghost use Rattle.std.specs.Prelude.{List, ℕ};

    ghost Value = { List (List ℕ) };

    ghost view = { λ w. w.rows };
}

impl Waiters {
    ghost use Rattle.golf_rows.specs.Rows.{row_of};
    ghost use Rattle.golf_mark.specs.Waiters.{IsWaiters};

    pub(crate) fn new(alloc: Global, graph: &Graph) -> Result<Waiters, Memory>
        ensures { IfOk result (IsWaiters graph.now) }
    {
        if graph.sleepers() == 0 {
            return Ok(Waiters {
                rows: FlatRows::new(alloc),
            });
        }
        Ok(Waiters {
            rows: graph.waiters(alloc)?,
        })
    }

    /// Returns the sleepers that wait on a node.
    pub(crate) fn of(&self, node: u32) -> &[u32]
        ensures { result.now ≡ row_of self.now node }
    {
        if (node as usize) < self.rows.len() {
            self.rows.row(node as usize)
        } else {
            &[]
        }
    }
}
