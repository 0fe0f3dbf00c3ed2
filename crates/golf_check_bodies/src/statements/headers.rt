//! The parts of the headers of `if` and `for`: conditions and simple statements. Each of them can be left out.

ghost use Rattle.std.specs.Prelude.{◌≡◌};
ghost use Rattle.golf_check_types.specs.Statements.{condition as condition_of, optional};
ghost use Rattle.golf_check_types.specs.Statements.{optional_test as optional_test_of, counted};
ghost use Rattle.golf_check_bodies.specs.CheckerClauses.{AddsFacts, Walks};

use crate::checker::Checker;
use crate::facts::count_part;
use golf_check_operands::has_base;
use golf_check_types::rules::WRONG_OPERAND;
use golf_check_types::{Base, Fact, TypeFault};
use golf_syntax_trees::{Expr, OwnedExpr, OwnedSimple};

impl Checker {
    /// Walks over a condition, which must be `bool`.
    pub(crate) fn condition(&mut self, e: &Expr) -> Result<(), TypeFault>
        ensures { AddsFacts result (condition_of self.old.line e.now self.old.scope) self.old self.new }
    {
        let value = self.given(e)?;
        self.require(WRONG_OPERAND, has_base(Base::Bool, &value))
    }

    /// Walks over a condition, if there is one.
    pub(crate) fn optional_condition(&mut self, test: &Option<OwnedExpr>) -> Result<(), TypeFault>
        ensures { AddsFacts result (optional_test_of self.old.line test.now self.old.scope) self.old self.new }
    {
        match test {
            None => Ok(()),
            Some(e) => self.condition(e.get()),
        }
    }

    /// Walks over a simple statement, if there is one.
    #[tactic(auto, using(golf_check_types::proofs::WalkLaws::stays))]
    pub(crate) fn optional_statement(
        &mut self,
        simple: &Option<OwnedSimple>,
    ) -> Result<(), TypeFault>
        ensures { Walks result (optional simple.now self.old.scope) self.old self.new }
    {
        match simple {
            None => Ok(()),
            Some(simple) => self.simple_statement(simple.get()),
        }
    }

    /// Walks over the last statement of the header of a `for`, if there is one. Its facts are counted, since its code
    /// comes after the body.
    #[tactic(auto, using(golf_check_types::proofs::Seams::part_filled))]
    pub(crate) fn post_statement(&mut self, post: &Option<OwnedSimple>) -> Result<(), TypeFault>
        ensures { Walks result (counted (optional post.now) self.old.scope) self.old self.new }
    {
        let at = self.facts.len();
        self.facts.push(Fact::Part(0))?;
        self.optional_statement(post)?;
        count_part(&mut self.facts, at);
        Ok(())
    }
}
