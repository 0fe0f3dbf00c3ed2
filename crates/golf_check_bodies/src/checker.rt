//! The checker of expressions and statements.
//!
//! A checker goes over trees in the order of the walk. It keeps the line of the present statement, the scope there, and
//! the facts found so far. A method named after a construct walks over one such construct. After it the checker is
//! where the walk of the definitions is after that construct, or the method returns the first broken rule. After an
//! error nothing is said of the checker.

ghost use Rattle.std.specs.Prelude.{◌≡◌, ◌∷◌, []};
ghost use Rattle.golf_check_types.specs.Faults.{AnswersOrFault, broken as broken_of};
ghost use Rattle.golf_check_types.specs.Facts.{new_target as new_target_of};
ghost use Rattle.golf_check_types.specs.Types.{is_nil as is_nil_of};
ghost use Rattle.golf_check_types.specs.Statements.{declares_one};
ghost use Rattle.golf_check_bodies.specs.CheckerClauses.{Walks};

use golf_base::List;
use golf_check_types::{
    Fact, Given, GoType, Operand, Scope, TypeFault, Where, copy_optional, require,
};
use std::alloc::Global;

/// The present state of the walk over the bodies of a file.
pub struct Checker {
    pub alloc: Global,
    /// The line of the present statement. Each statement sets it as it begins.
    pub line: u32,
    /// The scope at the present place.
    pub scope: Scope,
    /// The facts found so far.
    pub facts: List<Fact>,
}

// Written out once here, so that no other crate has to prove the drop of each field.
impl Drop for Checker {
    fn drop(self) {
        let Checker {
            alloc: _,
            line: _,
            scope: _,
            facts: _,
        } = self;
    }
}

impl Checker {
    /// Returns the present scope and the facts found so far.
    pub fn into_found(self) -> (Scope, List<Fact>)
        ensures scope { result.0 ≡ self.scope }
        ensures facts { result.1 ≡ self.facts }
    {
        let Checker {
            alloc: _,
            line: _,
            scope,
            facts,
        } = self;
        (scope, facts)
    }

    /// Returns `Ok` if the test holds, and otherwise the fault of this rule on the present line.
    pub fn require(&self, rule: u32, holds: bool) -> Result<(), TypeFault>
        ensures { AnswersOrFault result (broken_of self.now.line rule holds) (λ _. Unit {0}) }
    {
        require(self.line, rule, holds)
    }

    /// Declares a variable of this name and type in the next slot, and adds its fact.
    pub fn declare(&mut self, name: &[u8], t: Option<GoType>) -> Result<(), TypeFault>
        ensures { Walks result (declares_one self.old.scope name.now t [] (new_target_of self.old.scope t ∷ [])) self.old self.new }
    {
        let of_type = copy_optional(self.alloc, &t)?;
        let slot = Where::Slot(self.scope.next);
        self.facts
            .push(Fact::Target(Operand::Variable(slot, of_type)))?;
        golf_check_types::declare(self.alloc, &mut self.scope, name, t)?;
        Ok(())
    }
}

/// Returns whether a value is `nil`.
pub fn is_nil(given: &Given) -> bool
    ensures { result ≡ is_nil_of given.now }
{
    matches!(given, Given::Nil)
}
