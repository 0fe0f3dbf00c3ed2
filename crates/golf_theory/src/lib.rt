//! General theory: finite maps, lists, derivations, least sets and multiplicities, with their laws.
//!
//! The definitions are in `specs/`, the proofs of the laws in `proofs/`. Each function here has the main laws of
//! one definition as its contract.
#![tactic(auto)]

ghost use Rattle.golf_theory.specs.Laws.{
  Counted,
  EntriesFound,
  FindAdd,
  FindOnly,
  FindPut,
  KeysSatisfy,
  KeysRise,
  LeastDerived,
  MembersCount,
  OnlyGoes,
  ReachedLeast,
};

/// States what `find` gives in a map after `put`, `add` and `only`.
pub fn map_laws<T>()
    ensures put { FindPut T }
    ensures add { FindAdd T }
    ensures only { FindOnly T }
{}

/// States that a cut of a map commutes with each change of it.
pub fn cut_laws<T>()
    ensures goes { OnlyGoes T }
{}

/// States two facts about a map whose keys rise. Its entries are exactly what `find` gives, and
/// each change keeps the keys rising.
pub fn order_laws<T>()
    ensures entries { EntriesFound T }
    ensures keys { KeysSatisfy T }
    ensures rise { KeysRise T }
{}

/// States that the reached set is the least set that has the roots and is closed under the steps.
pub fn reached_law<T>()
    ensures least { ReachedLeast T }
{}

/// States that the computed least set is exactly the derived one.
pub fn least_law<T>()
    ensures derived { LeastDerived T }
{}

/// States how membership in a list and the number of occurrences are related.
pub fn counting_laws()
    ensures counted { Counted }
    ensures members { MembersCount }
{}
