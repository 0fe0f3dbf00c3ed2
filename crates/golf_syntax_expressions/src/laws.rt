//! Laws: a reader finds exactly what is printed at the front.
//!
//! There are two laws for each construct. A construct that is found is well formed and printed
//! there (`found`). A construct that is printed is found (`read`).

ghost use Rattle.golf_syntax_expressions.specs.Laws.{ExpressionsFound, ExpressionsRead, OperandsFound, OperandsRead};
ghost use Rattle.golf_syntax_expressions.specs.Laws.{SimplesFound, SimplesRead, TypesFound, TypesRead};

/// States that a type that the reader finds is well formed and printed there.
pub fn types_found()
    ensures { TypesFound }
{}

/// States that the reader finds each well-formed type that is printed, if no dot follows it.
pub fn types_read()
    ensures { TypesRead }
{}

/// States that an expression that the reader finds is well formed and printed there. In a header,
/// no operand outside its brackets begins with `&`.
pub fn expressions_found()
    ensures { ExpressionsFound }
{}

/// States that the reader finds each well-formed expression that is printed, if nothing after it
/// continues it.
pub fn expressions_read()
    ensures { ExpressionsRead }
{}

/// States that an operand that the reader finds with its operators is well formed and printed
/// there. It binds tighter than binary operators.
pub fn operands_found()
    ensures { OperandsFound }
{}

/// States that the reader finds each such operand that is printed, if nothing after it continues
/// it.
pub fn operands_read()
    ensures { OperandsRead }
{}

/// States that a simple statement that the reader finds is well formed and printed there, on its
/// line.
pub fn simples_found()
    ensures { SimplesFound }
{}

/// States that the reader finds each well-formed simple statement that is printed, if nothing after
/// it continues it.
pub fn simples_read()
    ensures { SimplesRead }
{}
