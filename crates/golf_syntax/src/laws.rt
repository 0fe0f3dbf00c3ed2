//! Laws: a reader finds exactly what is printed, and a file is read in one way.
//!
//! There are two laws for imports and for declarations: each one that is found is printed there (`found`), and each one
//! that is printed is found (`read`).

ghost use Rattle.golf_syntax.specs.Laws.{DeclsFound, DeclsRead, ImportsFound, ImportsRead, OneReads, OneTree};

/// States that an import that the reader finds is printed there, on the line of its keyword.
pub fn imports_found()
    ensures { ImportsFound }
{}

/// States that the reader finds each import that is printed.
pub fn imports_read()
    ensures { ImportsRead }
{}

/// States that a declaration that the reader finds is well formed and printed there. Its statements and clauses have
/// their lines.
pub fn declarations_found()
    ensures { DeclsFound }
{}

/// States that the reader finds each well-formed declaration that is printed before a semicolon.
pub fn declarations_read()
    ensures { DeclsRead }
{}

/// States that at most one tree reads a list of tokens.
pub fn one_reads()
    ensures { OneReads }
{}

/// States that at most one tree reads the bytes of a file.
pub fn one_tree()
    ensures { OneTree }
{}
