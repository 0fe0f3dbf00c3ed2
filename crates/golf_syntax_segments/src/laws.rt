//! Laws: a printed file is cut into segments exactly where imports and declarations end.

ghost use Rattle.golf_syntax_segments.specs.Laws.{DeclsAreSegments, FilesAreSegments, ImportsAreSegments};

/// States that a printed import with the semicolon after it is one segment. Its brackets are in pairs, and it has no
/// other semicolon outside them.
pub fn imports_are_segments()
    ensures { ImportsAreSegments }
{}

/// States that a printed declaration with the semicolon after it is one segment.
pub fn declarations_are_segments()
    ensures { DeclsAreSegments }
{}

/// States that the segments of a printed file are those of its package, of each import and of each declaration.
pub fn files_are_segments()
    ensures { FilesAreSegments }
{}
