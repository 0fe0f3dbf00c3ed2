//! The waits of a blocked goroutine.
//!
//! A goroutine waits on one object, unless it is in a `select`. So one wait lies in the goroutine itself, and
//! a goroutine that blocks takes no memory for it. More waits lie in memory of their own.

ghost use Rattle.std.specs.Prelude.{◌≡◌, [], ◌∷◌, ◌++◌, IfOk, OnErr, OnOk};

use crate::copies::copied_list;
use crate::goroutine::Wait;
use golf_base::{List, Memory};
use std::alloc::Global;
use std::marker::Model;

// Where the waits lie.
#[derive(Debug, Drop)]
enum WaitList {
    Nothing,
    One(Wait),
    Many(List<Wait>),
}

/// The waits of a blocked goroutine, in the source order of the cases. Contracts see them as a list.
///
/// Only `push` and `copy` take memory, and only for more than one wait.
#[derive(Debug, Drop)]
pub struct Waits {
    waits: WaitList,
    alloc: Global,
}

impl Model for Waits {
    ghost use Rattle.std.specs.Prelude.{List};
    ghost use Rattle.golf_data.specs.Waits.{waits_in};
    ghost use Rattle.golf_data.specs.declared.goroutine.Wait.{Wait as One};

    ghost Value = { List One };

    ghost view = { λ w. waits_in w.waits };
}

// A list of two waits.
fn both(alloc: Global, first: Wait, second: Wait) -> Result<List<Wait>, Memory>
    ensures { IfOk result (λ list. list ≡ first ∷ second ∷ []) }
{
    let mut list = List::new(alloc);
    list.push(first)?;
    list.push(second)?;
    Ok(list)
}

impl Waits {
    /// Returns no waits.
    pub fn new(alloc: Global) -> Waits
        ensures { result ≡ [] }
    {
        Waits {
            waits: WaitList::Nothing,
            alloc,
        }
    }

    /// Returns one wait. It takes no memory.
    #[inline(always)]
    pub fn one(alloc: Global, wait: Wait) -> Waits
        ensures { result ≡ wait ∷ [] }
    {
        Waits {
            waits: WaitList::One(wait),
            alloc,
        }
    }

    /// Returns a copy of the waits, which is equal.
    pub fn copy(&self, alloc: Global) -> Result<Waits, Memory>
        ensures { IfOk result (λ copy. copy ≡ self.now) }
    {
        let waits = match &self.waits {
            WaitList::Nothing => WaitList::Nothing,
            WaitList::One(wait) => WaitList::One(*wait),
            WaitList::Many(list) => WaitList::Many(copied_list(alloc, list.as_slice())?),
        };
        Ok(Waits { waits, alloc })
    }

    /// Returns the waits.
    #[inline(always)]
    pub fn as_slice(&self) -> &[Wait]
        ensures { result.now ≡ self.now }
    {
        match &self.waits {
            WaitList::Nothing => &[],
            WaitList::One(wait) => std::slice::from_ref(wait),
            WaitList::Many(list) => list.as_slice(),
        }
    }

    /// Adds a wait at the end. On `Err` the waits are unchanged.
    pub fn push(&mut self, wait: Wait) -> Result<(), Memory>
        ensures ok { OnOk result (self.new ≡ self.old ++ wait ∷ []) }
        ensures err { OnErr result (self.new ≡ self.old) }
    {
        match &mut self.waits {
            WaitList::Nothing => self.waits = WaitList::One(wait),
            WaitList::One(first) => {
                let list = both(self.alloc, *first, wait)?;
                self.waits = WaitList::Many(list);
            }
            WaitList::Many(list) => list.push(wait)?,
        }
        Ok(())
    }

    /// Replaces all waits by one. It takes no memory.
    pub fn replace_all(&mut self, wait: Wait)
        ensures { self.new ≡ wait ∷ [] }
    {
        self.waits = WaitList::One(wait);
    }
}
