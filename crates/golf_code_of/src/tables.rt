//! The tables of a code: texts and constants by their numbers.
//!
//! The number of a text is its place in the table, which has each text once.

ghost use Rattle.std.specs.Prelude.{◌≡◌, [], IfOk, OnOk};
ghost use Rattle.golf_code_of.specs.Table.{with_text, text_number as text_number_of};

use golf_base::{List, Memory};
use golf_data::Value;
use indexmap::IndexSet;
use std::alloc::Global;
use std::marker::Model;

/// Different texts in the order in which they were added. The number of a text is its place. A look-up takes the time
/// of a look-up in a hash map.
#[derive(Drop)]
pub struct TextTable {
    texts: IndexSet<Vec<u8>>,
}

impl Model for TextTable {
    ghost use Rattle.std.specs.Prelude.{List, ℕ, map};

    ghost Value = { List (List ℕ) };

    ghost view = { λ t. map (λ v. v.items) t.texts.keys };
}

impl TextTable {
    /// Returns a table without texts.
    pub fn new(alloc: Global) -> TextTable
        ensures { result ≡ [] }
    {
        TextTable {
            texts: IndexSet::new(alloc),
        }
    }

    /// Adds a text at the end, unless the table has it already.
    pub fn add(&mut self, alloc: Global, text: &[u8]) -> Result<(), Memory>
        ensures { OnOk result (self.new ≡ with_text self.old text.now) }
    {
        let copy = text.to_vec(alloc)?;
        self.texts.insert(copy)?;
        Ok(())
    }

    // Returns the place of a text, or 0 if the table does not have it.
    fn place(&self, text: &[u8]) -> usize
        ensures { result ≡ text_number_of self.now text.now }
    {
        self.texts.get_index_of(text).unwrap_or(0)
    }

    /// Returns the number of a text, or 0 if the table does not have it.
    ///
    /// # Errors
    ///
    /// `Memory` if the number is 2^32 or more.
    pub fn number_of(&self, text: &[u8]) -> Result<u32, Memory>
        ensures { IfOk result (λ n. n ≡ text_number_of self.now text.now) }
    {
        match u32::try_from(self.place(text)) {
            Ok(number) => Ok(number),
            Err(_) => Err(Memory),
        }
    }

    /// Returns the texts as a list.
    pub fn list(&self, alloc: Global) -> Result<List<List<u8>>, Memory>
        ensures { IfOk result (λ texts. texts ≡ self.now) }
    {
        let mut list = List::new(alloc);
        for text in self.texts.as_slice() {
            let mut copy = List::new(alloc);
            copy.extend_from_slice(text.as_slice())?;
            list.push(copy)?;
        }
        Ok(list)
    }
}

/// The tables of a file's code: its texts, and the values of its constants in source order.
#[derive(Drop)]
pub struct Tables {
    pub texts: TextTable,
    pub constants: List<Value>,
}
