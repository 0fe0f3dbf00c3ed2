//! Laws: a reader finds exactly what is printed at the front.
//!
//! There are two laws for each construct. A construct that is found is well formed and printed there (`found`). A
//! construct that is printed is found (`read`), if the token that ends it follows.

ghost use Rattle.golf_syntax_statements.specs.Laws.{CommsFound, CommsRead, HeadersFound, HeadersRead, StatementsFound};
ghost use Rattle.golf_syntax_statements.specs.Laws.{StatementsRead, TestsFound, TestsRead, VarsFound, VarsRead};

/// States that a variable that the reader finds is well formed and printed there, on the line of its keyword.
pub fn variables_found()
    ensures { VarsFound }
{}

/// States that the reader finds each well-formed variable that is printed, if its statement ends there.
pub fn variables_read()
    ensures { VarsRead }
{}

/// States that a condition that the reader finds, with the simple statement before it, is well formed and printed
/// there.
pub fn tests_found()
    ensures { TestsFound }
{}

/// States that the reader finds each well-formed condition that is printed before a body.
pub fn tests_read()
    ensures { TestsRead }
{}

/// States that a header of a `for` that the reader finds is well formed and printed there.
pub fn headers_found()
    ensures { HeadersFound }
{}

/// States that the reader finds each well-formed header that is printed before a body.
pub fn headers_read()
    ensures { HeadersRead }
{}

/// States that a communication that the reader finds is well formed and printed there.
pub fn communications_found()
    ensures { CommsFound }
{}

/// States that the reader finds each well-formed communication that is printed before a colon.
pub fn communications_read()
    ensures { CommsRead }
{}

/// States that a statement that the reader finds is well formed and printed there. Its statements and clauses have
/// their lines.
pub fn statements_found()
    ensures { StatementsFound }
{}

/// States that the reader finds each well-formed statement that is printed, if it ends there.
pub fn statements_read()
    ensures { StatementsRead }
{}
