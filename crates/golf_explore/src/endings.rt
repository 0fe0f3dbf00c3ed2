//! The endings of the visited states.
//!
//! A program ends by a return, by a panic or fatal error, or with all goroutines asleep.

ghost use Rattle.std.specs.Prelude.{◌≡◌};
ghost use Rattle.golf_explore_laws.specs.Laws.{is_panic, is_asleep};
ghost use Rattle.golf_explore.specs.Results.{some_ended};
ghost use Rattle.golf_explore.specs.VisitLists.{has_ended_by};

use crate::visits::Visit;
use golf_data::Ending;
use golf_state::State;

/// Returns whether the state has ended by a panic or a fatal error.
pub(crate) fn panics(state: &State) -> bool
    ensures { result ≡ has_ended_by is_panic state.now }
{
    match state.ending() {
        Some(Ending::Panicked { .. }) => true,
        Some(Ending::Returned) => false,
        Some(Ending::Asleep) => false,
        None => false,
    }
}

/// Returns whether the state has ended with all goroutines asleep.
pub(crate) fn sleeps(state: &State) -> bool
    ensures { result ≡ has_ended_by is_asleep state.now }
{
    match state.ending() {
        Some(Ending::Asleep) => true,
        Some(Ending::Returned) => false,
        Some(Ending::Panicked { .. }) => false,
        None => false,
    }
}

/// Returns whether a visited state has ended by a panic or a fatal error.
pub(crate) fn has_panic(visits: &[Visit]) -> bool
    ensures { result ≡ some_ended is_panic visits.now }
{
    for visit in visits {
        if panics(&visit.state) {
            return true;
        }
    }
    false
}

/// Returns whether a visited state has ended with all goroutines asleep.
pub(crate) fn has_sleep(visits: &[Visit]) -> bool
    ensures { result ≡ some_ended is_asleep visits.now }
{
    for visit in visits {
        if sleeps(&visit.state) {
            return true;
        }
    }
    false
}
