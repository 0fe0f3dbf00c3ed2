//! The meaning of statements, and that their code does the same.
//!
//! The main word is `Deed`: what a statement does in an environment, where each loop begins a
//! bounded number of rounds.
#![tactic(auto)]

ghost use Rattle.golf_meaning_statements.specs.FunctionLaws.{FilesAgree, FunctionsAgree};
ghost use Rattle.golf_meaning_source.specs.Operations.{Taking};
ghost use Rattle.golf_meaning_statements.specs.Laws.{StatementsMean};
ghost use Rattle.golf_meaning_statements.specs.MadeFunctions.{EntryAgrees, MadeFunctionsAgree};

/// States that the code of a statement does what the statement does, however answers are taken.
pub fn statements_mean()
    ensures { (taking : Taking) → StatementsMean taking }
{}

/// States that the code of a function and its source agree in both directions, for all answers.
///
/// There are as many arguments as parameters, and the source must not lack a rule.
pub fn functions_agree()
    ensures { FunctionsAgree }
{}

/// States that the code of a file has exactly the functions of the file, and that each agrees with what the source says
/// of its number.
///
/// These are function 0, the functions and methods, and those that are made for `go` and `defer`. There are as many
/// arguments as parameters, and the source must not lack a rule.
pub fn files_agree()
    ensures { FilesAgree }
{}

/// States that the code of function 0 agrees with the initialisers of the globals, in source order, and the call of
/// `main`. These must not lack a rule.
pub fn entry_agrees()
    ensures { EntryAgrees }
{}

/// States that the code of a function that is made for `go` or `defer` agrees with the operation that its statement
/// names.
///
/// There are as many arguments as parameters, and the operation must not lack a rule.
pub fn made_functions_agree()
    ensures { MadeFunctionsAgree }
{}
