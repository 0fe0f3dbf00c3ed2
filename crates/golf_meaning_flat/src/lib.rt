//! The meaning of flat code and of structured code, as visible operations and their answers.
//!
//! A meaning is a list of visible operations and an end, under a bound on instructions or rounds.
#![tactic(auto)]

ghost use Rattle.golf_meaning_flat.specs.Laws.{BothWays, PlacedFollows};

/// States that placed code does what its piece does, wherever it is placed.
pub fn placed_code_follows()
    ensures { PlacedFollows }
{}

/// States that the code and a meaning agree in both directions, if the code does the meaning at
/// each bound and a rule always fits.
pub fn both_ways()
    ensures { BothWays }
{}
