//! The code of a file that breaks no rule has shapes.
//!
//! Each function here has one law as its contract. The statements and the definitions are in
//! `specs/`, the proofs in `proofs/`.
#![tactic(auto)]

ghost use Rattle.golf_code_shapes.specs.FileLaws.{FilesFit};
ghost use Rattle.golf_code_shapes.specs.FunctionLaws.{FunctionsFit, MadeFunctionsFit};
ghost use Rattle.golf_code_shapes.specs.Laws.{ExpressionsFit, StatementsFit};
ghost use Rattle.golf_code_shapes.specs.LayoutLaws.{BodiesFit, PiecesHaveShapes};
ghost use Rattle.golf_code_shapes.specs.NameLaws.{NamesMean, MainFits};
ghost use Rattle.golf_code_shapes.specs.GlobalLaws.{DeclarationsKnown, FormsStay, NamesFitAll};

/// States that the code of an expression that breaks no rule has the shape of the expression's
/// judgment.
pub fn expressions_fit()
    ensures { ExpressionsFit }
{}

/// States that the code of a well-formed statement that breaks no rule has shapes. The code leads
/// from the slots that are assigned before it to those assigned after it.
pub fn statements_fit()
    ensures { StatementsFit }
{}

/// States that a function of a file that breaks no rule fits its types, if the names of the file
/// mean what the types of the code say.
pub fn functions_fit()
    ensures { FunctionsFit }
{}

/// States that a function that is made for `go` or `defer` fits its types.
pub fn made_functions_fit()
    ensures { MadeFunctionsFit }
{}

/// States that the code of a well-formed file that breaks no rule has shapes, if the names of the
/// file mean what the types of the code say.
pub fn files_fit()
    ensures { FilesFit }
{}

/// States for each way of putting pieces together that the whole has shapes if the parts have
/// shapes.
pub fn pieces_have_shapes()
    ensures { PiecesHaveShapes }
{}

/// States that a body fits its types if it begins with only its parameters assigned, and ends.
pub fn bodies_fit()
    ensures { BodiesFit }
{}

/// States that the names and members of a file that breaks no rule mean what the types of the code
/// say, if all its globals have known types.
pub fn names_mean()
    ensures { NamesMean }
{}

/// States that `main` of a file that breaks no rule takes nothing and gives nothing.
pub fn main_fits()
    ensures { MainFits }
{}

/// States that the judgment of a global's initialiser that breaks no rule depends only on the types
/// of the globals above it.
pub fn forms_stay()
    ensures { FormsStay }
{}

/// States that in a file that breaks no rule each global has the type of its initial value, and
/// receivers and parameters have known types.
pub fn declarations_known()
    ensures { DeclarationsKnown }
{}

/// States that the names of a file that breaks no rule mean what the types of its code say.
pub fn names_fit()
    ensures { NamesFitAll }
{}
