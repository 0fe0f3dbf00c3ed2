//! The variables that the statements of a function declare.
//!
//! Of two variables with one name the later one counts. Beside the list of variables there is a hash map from names to
//! places, so that a look-up takes the time of one in a hash map. The invariant of `Locals`: the map has exactly the
//! places of the list.

ghost use Rattle.std.specs.Prelude.{◌≡◌, ◌++◌, ◌∷◌, ◌-◌, [], ℕ, List, length, take, option_map, OnOk, if◌then◌else◌};
ghost use Rattle.std.specs.Str.{bytes_eq};
ghost use Rattle.golf_check_types.specs.Names.{look as look_in};
ghost use Rattle.golf_check_types.specs.Places.{places_at, with_place, without_place, last_place};

use crate::types::GoType;
use golf_base::{List, Memory};
use golf_syntax_trees::Name;
use std::alloc::Global;
use std::collections::HashMap;
use std::marker::Model;

/// A declared variable of a function.
#[derive(Debug)]
pub struct Local {
    pub name: Name,
    /// How many blocks are open at its declaration.
    pub depth: u32,
    pub slot: u32,
    /// `None` if its type is not known.
    pub of_type: Option<GoType>,
}

impl Drop for Local {
    fn drop(self) {
        let Local {
            name: _,
            depth: _,
            slot: _,
            of_type: _,
        } = self;
    }
}

// The places of each name in a list, in rising order.
type Places = HashMap<Vec<u8>, List<usize>>;

// Adds a place after those of a name. On `Err` nothing is said of the places.
fn add_place(alloc: Global, places: &mut Places, name: &[u8], place: usize) -> Result<(), Memory>
    ensures { OnOk result ((n : List ℕ) → places_at places.new n ≡ (if bytes_eq name.now n then with_place (places_at places.old n) place else places_at places.old n)) }
{
    let key = name.to_vec(alloc)?;
    let mut own = places.remove(name).unwrap_or(List::new(alloc));
    own.push(place)?;
    places.insert(key, own)?;
    Ok(())
}

// Removes the last place of a name. On `Err` nothing is said of the places.
fn take_place(alloc: Global, places: &mut Places, name: &[u8]) -> Result<(), Memory>
    ensures { OnOk result ((n : List ℕ) → places_at places.new n ≡ (if bytes_eq name.now n then without_place (places_at places.old n) else places_at places.old n)) }
{
    let key = name.to_vec(alloc)?;
    let mut own = places.remove(name).unwrap_or(List::new(alloc));
    own.pop();
    places.insert(key, own)?;
    Ok(())
}

// Returns the last place of a name, or `None` if it has none.
fn last_place_at(places: &Places, name: &[u8]) -> Option<usize>
    ensures { result ≡ last_place (places_at places.now name.now) }
{
    match places.get(name) {
        None => None,
        Some(own) => own.as_slice().last().copied(),
    }
}

/// The variables of a function that are declared at a place of its body, in order of declaration. A look-up takes the
/// time of one in a hash map.
pub struct Locals {
    list: List<Local>,
    places: Places,
}

impl Drop for Locals {
    fn drop(self) {
        let Locals { list: _, places: _ } = self;
    }
}

impl Model for Locals {
    ghost use Rattle.std.specs.Prelude.{◌≡◌, List, ℕ};
    ghost use Rattle.golf_check_types.specs.Places.{places_at, places_in};
    ghost use Rattle.golf_check_types.specs.declared.locals.Local.{Local};

    ghost Value = { List Local };

    ghost view = { λ l. l.list };

    ghost invariant = { λ l. (n : List ℕ) → places_at l.places n ≡ places_in l.list n };
}

impl Locals {
    /// Returns no variables. It takes no memory.
    pub fn new(alloc: Global) -> Locals
        ensures { result ≡ [] }
    {
        Locals {
            list: List::new(alloc),
            places: HashMap::new(alloc),
        }
    }

    /// Returns how many variables there are.
    pub fn len(&self) -> usize
        ensures { result ≡ length self.now }
    {
        self.list.len()
    }

    /// Returns the variable of this name, the later one of two, or `None`.
    pub fn look(&self, name: &[u8]) -> Option<&Local>
        ensures { option_map (λ r. r.now) result ≡ look_in self.now name.now }
    {
        match last_place_at(&self.places, name) {
            None => None,
            Some(place) => self.list.as_slice().get(place),
        }
    }

    /// Adds a variable. On `Err` nothing is said of the variables.
    pub fn add(&mut self, alloc: Global, local: Local) -> Result<(), Memory>
        ensures { OnOk result (self.new ≡ self.old ++ local ∷ []) }
    {
        let place = self.list.len();
        match add_place(alloc, &mut self.places, local.name.as_slice(), place) {
            Ok(()) => match self.list.push(local) {
                Ok(()) => Ok(()),
                Err(_) => {
                    self.list.clear();
                    self.places.clear();
                    Err(Memory)
                }
            },
            Err(_) => {
                self.list.clear();
                self.places.clear();
                Err(Memory)
            }
        }
    }

    // Removes the last variable. On `Err` nothing is said of the variables.
    fn drop_last(&mut self, alloc: Global) -> Result<(), Memory>
        ensures { OnOk result (self.new ≡ take (length self.old - 1) self.old) }
    {
        let Some(last) = self.list.pop() else {
            return Ok(());
        };
        match take_place(alloc, &mut self.places, last.name.as_slice()) {
            Ok(()) => Ok(()),
            Err(_) => {
                self.list.clear();
                self.places.clear();
                Err(Memory)
            }
        }
    }

    /// Keeps the first `n` variables. On `Err` nothing is said of the variables.
    pub fn truncate(&mut self, alloc: Global, n: usize) -> Result<(), Memory>
        ensures { OnOk result (self.new ≡ take n self.old) }
    {
        while n < self.len() {
            self.drop_last(alloc)?;
        }
        Ok(())
    }
}
