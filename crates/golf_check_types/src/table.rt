//! Tables of names with their numbers.
//!
//! The first entry of a name counts, and a name that is in the table is not added again. Contracts see a table as the
//! list of its entries in the order in which they were added.

ghost use Rattle.std.specs.Prelude.{◌≡◌, [], OnOk};
ghost use Rattle.golf_check_types.specs.Names.{number_of, with_name};

use golf_base::Memory;
use indexmap::IndexMap;
use std::alloc::Global;
use std::marker::Model;

/// Different names in the order in which they were added, with a number for each. A look-up takes the time of one in a
/// hash map.
pub struct Table {
    entries: IndexMap<Vec<u8>, usize>,
}

impl Drop for Table {
    fn drop(self) {
        let Table { entries: _ } = self;
    }
}

impl Model for Table {
    ghost use Rattle.std.specs.Prelude.{List, ℕ, map};

    ghost Value = { List (List ℕ × ℕ) };

    ghost view = { λ t. map (λ e. (e.0.items, e.1)) t.entries.entries };
}

impl Table {
    /// Returns a table without names. It takes no memory.
    pub fn new(alloc: Global) -> Table
        ensures { result ≡ [] }
    {
        Table {
            entries: IndexMap::new(alloc),
        }
    }

    /// Returns the number of a name, or `None` if the table does not have it.
    pub fn number_of(&self, name: &[u8]) -> Option<usize>
        ensures { result ≡ number_of self.now name.now }
    {
        self.entries.get(name).copied()
    }

    /// Adds a name at the end, unless the table has it.
    pub fn add(&mut self, alloc: Global, name: &[u8], number: usize) -> Result<(), Memory>
        ensures { OnOk result (self.new ≡ with_name self.old name.now number) }
    {
        match self.number_of(name) {
            Some(_) => Ok(()),
            None => {
                let copy = name.to_vec(alloc)?;
                self.entries.insert(copy, number)?;
                Ok(())
            }
        }
    }
}
