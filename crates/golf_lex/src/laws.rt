//! Laws of lexing: bytes lex in one way, or are at fault at one place.

ghost use Rattle.golf_lex.specs.Laws.{FaultsOnce, LexesOnce, LexesOrFaults};

/// States that bytes lex in at most one way.
pub fn lexes_once()
    ensures { LexesOnce }
{}

/// States that bytes that do not lex are at fault at one place at most.
pub fn faults_once()
    ensures { FaultsOnce }
{}

/// States that bytes lex, or that there is a place where they are at fault.
pub fn lexes_or_faults()
    ensures { LexesOrFaults }
{}
