//! The meaning of sources, as visible operations and their answers, by recursion over the tree.
//!
//! The main word is `Does`: what an expression does in an environment. The law here is that the
//! code of an expression does the same.
#![tactic(auto)]

ghost use Rattle.golf_meaning_source.specs.Laws.{ExpressionsMean};
ghost use Rattle.golf_meaning_source.specs.Operations.{Taking};

/// States that the code of an expression does what the expression does, however answers are taken.
pub fn expressions_mean()
    ensures { (taking : Taking) → ExpressionsMean taking }
{}
