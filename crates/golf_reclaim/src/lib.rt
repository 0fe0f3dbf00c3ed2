//! One collection: the live objects and goroutines, the removed goroutines, the freed objects, and the
//! report.
//!
//! - `collect`: the whole collection.
//! - `Ledger`: the book of all collections of a run.
#![tactic(auto)]

mod collection;
mod finaliser_setters;
mod ledger;
mod markings;
mod reported;

pub use collection::{CollectOptions, collect};
pub use finaliser_setters::sets_finalisers;
pub use ledger::Ledger;
pub use markings::find_gone;
