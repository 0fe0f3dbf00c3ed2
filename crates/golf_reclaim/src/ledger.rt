//! The book of a run, and the goroutines that stay reported in it.
//!
//! The invariant: a number is in `staying` exactly when the book has reported it once more than removed it.

ghost use Rattle.std.specs.Prelude.{◌≡◌, ◌+◌, ◌-◌, ◌<◌, ◌^◌, ◌++◌, ℕ, [], IfOk, OnErr, OnOk, filter, length, not};
ghost use Rattle.std.specs.List.Sorted.{IsNonDecreasingBy};
ghost use Rattle.golf_theory.specs.Maps.{keys};
ghost use Rattle.golf_theory.specs.Membership.{is_in};
ghost use Rattle.golf_theory.specs.Flags.{kept};
ghost use Rattle.golf_model.specs.Collections.{queue_outside};
ghost use Rattle.golf_model.specs.Presence.{IsWhole};
ghost use Rattle.golf_model.specs.Reports.{numbers};
ghost use Rattle.golf_reclaim.specs.RunBook.{noted, stays_reported, CanNote};

use golf_base::{GoroutineId, List, Memory};
use golf_final::queue_finalisers;
use golf_model::Marked;
use golf_snapshot::is_among;
use golf_state::State;
use std::alloc::Global;
use std::marker::Model;

/// The goroutines that all collections of a run so far have reported and removed. Contracts see it as the
/// run's book.
///
/// Beside the book it keeps the numbers that stay reported, in rising order. A goroutine stays reported if
/// the book has reported its number more often than removed it. So a collection finds the new goroutines by
/// a binary search, and reads no earlier report.
#[derive(Debug, Drop)]
pub struct Ledger {
    collections: u32,
    reported: Vec<GoroutineId>,
    reclaimed: Vec<GoroutineId>,
    staying: Vec<GoroutineId>,
}

impl Model for Ledger {
    ghost use Rattle.golf_data.specs.declared.report.Book.{Book};
    ghost use Rattle.golf_reclaim.specs.RunBook.{HasStaying};

    ghost Value = { Book };

    ghost view = { λ l. record { collections = l.collections; reported = l.reported.items; reclaimed = l.reclaimed.items } };

    ghost invariant = { λ l. HasStaying l.reported.items l.reclaimed.items l.staying.items };
}

impl Ledger {
    /// Returns the book before the first collection. It takes no memory.
    pub fn new(alloc: Global) -> Ledger
        ensures { result ≡ record { collections = 0; reported = []; reclaimed = [] } }
    {
        Ledger {
            collections: 0,
            reported: Vec::new(alloc),
            reclaimed: Vec::new(alloc),
            staying: Vec::new(alloc),
        }
    }

    /// Returns how many collections there were.
    pub fn collections(&self) -> u32
        ensures { result ≡ self.now.collections }
    {
        self.collections
    }

    /// Returns the goroutines that were reported, in the order of the reports.
    pub fn reported(&self) -> &[GoroutineId]
        ensures { result.now ≡ self.now.reported }
    {
        self.reported.as_slice()
    }

    /// Returns the goroutines that were removed, in the order of the removals.
    pub fn reclaimed(&self) -> &[GoroutineId]
        ensures { result.now ≡ self.now.reclaimed }
    {
        self.reclaimed.as_slice()
    }

    /// Returns those of the goroutines that do not stay reported.
    pub(crate) fn unreported(
        &self,
        alloc: Global,
        goroutines: &[GoroutineId],
    ) -> Result<List<GoroutineId>, Memory>
        ensures { IfOk result (λ new. new ≡ filter (λ g. not (stays_reported self.now g.0)) goroutines.now) }
    {
        let mut new = Vec::new(alloc);
        add_unlisted(&mut new, goroutines, self.staying.as_slice())?;
        Ok(List::from_vec(new))
    }

    /// Notes a collection that reported the goroutines in `new` and removed those in `gone`, whose numbers
    /// rise. It also queues the finalisers of the objects that are not marked. On `Err`, which is `Memory`,
    /// state and book are unchanged.
    pub(crate) fn note(
        &mut self,
        alloc: Global,
        state: &mut State,
        retained: &Marked,
        new: &[GoroutineId],
        gone: &[GoroutineId],
    ) -> Result<(), Memory>
        requires marked { length retained.now.flags ≡ length state.old.objects }
        requires whole { IsWhole state.old }
        requires rises { IsNonDecreasingBy (λ g. g.0) gone.now }
        requires known { CanNote (numbers new.now) (numbers gone.now) self.old }
        requires count { self.old.collections < 2 ^ 32 - 1 }
        ensures state { OnOk result (state.new ≡ queue_outside (kept retained.now.flags (keys state.old.objects)) state.old) }
        ensures book { OnOk result (self.new ≡ noted new.now gone.now self.old) }
        ensures err_state { OnErr result (state.new ≡ state.old) }
        ensures err_book { OnErr result (self.new ≡ self.old) }
    {
        let staying = staying_after(alloc, self.staying.as_slice(), new, gone)?;
        self.reported.reserve(new.len())?;
        self.reclaimed.reserve(gone.len())?;
        queue_finalisers(alloc, state, retained)?;
        let _ = self.reported.extend_from_slice(new);
        let _ = self.reclaimed.extend_from_slice(gone);
        self.staying = staying;
        self.collections += 1;
        Ok(())
    }
}

// Adds those of the goroutines that are not in the other list, whose numbers rise.
fn add_unlisted(
    list: &mut Vec<GoroutineId>,
    goroutines: &[GoroutineId],
    others: &[GoroutineId],
) -> Result<(), Memory>
    requires { IsNonDecreasingBy (λ g. g.0) others.now }
    ensures { OnOk result (list.new.items ≡ list.old.items ++ filter (λ g. not (is_in g.0 (numbers others.now))) goroutines.now) }
{
    for g in goroutines {
        if !is_among(*g, others) {
            list.push(*g)?;
        }
    }
    Ok(())
}

// The goroutines that stay reported after `new` are reported and `gone` are removed.
fn staying_after(
    alloc: Global,
    staying: &[GoroutineId],
    new: &[GoroutineId],
    gone: &[GoroutineId],
) -> Result<Vec<GoroutineId>, Memory>
    requires { IsNonDecreasingBy (λ g. g.0) gone.now }
    ensures members { IfOk result (λ after. (n : ℕ) → is_in n (numbers after.items) ≡ is_in n (filter (λ k. not (is_in k (numbers gone.now))) (numbers (staying.now ++ new.now)))) }
    ensures rises { IfOk result (λ after. IsNonDecreasingBy (λ g. g.0) after.items) }
{
    let mut after = Vec::new(alloc);
    add_unlisted(&mut after, staying, gone)?;
    add_unlisted(&mut after, new, gone)?;
    after.sort()?;
    Ok(after)
}
