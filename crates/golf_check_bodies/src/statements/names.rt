//! Names left of `:=` and `=`, beside a receive.
//!
//! Left of `:=` a name that this block has not declared is new. Any other name is kept: the value is stored under it.
//! The second of two names gets whether a value was received.

ghost use Rattle.std.specs.Prelude.{◌≡◌, ◌∷◌, [], IfOk, unwrap_or};
ghost use Rattle.golf_check_types.specs.Faults.{AnswersOrFault};
ghost use Rattle.golf_check_types.specs.Statements.{kept_local as kept_local_of, kept_faults, is_new as is_new_of};
ghost use Rattle.golf_check_types.specs.Statements.{pair_differs as pair_differs_of, kept_pair_faults, pair_faults};
ghost use Rattle.golf_check_types.specs.Statements.{new_or_kept as new_or_kept_of, assigned as assigned_of, then, pair};
ghost use Rattle.golf_check_types.specs.Statements.{bool_type, put_in_faults, takes_value as takes_value_of};
ghost use Rattle.golf_check_types.specs.Statements.{assigned_faults, assigned_pair_faults};
ghost use Rattle.golf_check_types.specs.Statements.{assign_name as assign_name_of, assign_pair as assign_pair_of};
ghost use Rattle.golf_check_types.specs.Statements.{define_name};
ghost use Rattle.golf_check_bodies.specs.CheckerClauses.{AddsFacts, Walks};

use crate::checker::Checker;
use crate::statements::simple::is_place;
use golf_base::Memory;
use golf_check_operands::assignable;
use golf_check_types::rules::{
    NO_PLACE, NOT_ASSIGNABLE, NOT_DECLARABLE, NOTHING_NEW, UNKNOWN_NAME,
};
use golf_check_types::{
    Base, Fact, GoType, Local, Operand, TypeFault, assigned_name, copy_optional, given_type,
    is_new, is_reserved, may_be_declared, plain, type_of,
};
use std::alloc::Global;

// Returns `bool`, the type of the second name.
fn truth_type(alloc: Global) -> Option<GoType>
    ensures { result ≡ bool_type }
{
    Some(plain(alloc, Base::Bool))
}

// Returns the fact of the target of a store.
fn target(operand: Option<Operand>) -> Fact
    ensures { result ≡ Fact.Target (unwrap_or operand Operand.Unknown) }
{
    Fact::Target(operand.unwrap_or(Operand::Unknown))
}

// Returns whether an operand can be stored to. An operand that is not known takes any value.
fn takes_value(operand: &Option<Operand>) -> bool
    ensures { result ≡ takes_value_of operand.now }
{
    match operand {
        None => true,
        Some(operand) => match operand {
            Operand::Blank => true,
            _ => is_place(operand),
        },
    }
}

impl Checker {
    /// Declares the name of a received value, left of `:=`.
    pub(crate) fn declare_name(&mut self, name: &[u8], t: Option<GoType>) -> Result<(), TypeFault>
        ensures { Walks result (define_name self.old.line name.now t self.old.scope) self.old self.new }
    {
        self.require(NOT_DECLARABLE, may_be_declared(&self.scope, name))?;
        self.declare(name, t)
    }

    /// Walks over two names left of `:=`. The first takes a value of this type.
    pub(crate) fn declare_pair(
        &mut self,
        first: &[u8],
        second: &[u8],
        t: Option<GoType>,
    ) -> Result<(), TypeFault>
        ensures { Walks result (pair self.old.line first.now second.now t self.old.scope) self.old self.new }
    {
        self.pair_fits(first, second, &t)?;
        self.store_both(first, second, t)
    }

    // Checks that two names can be left of `:=`.
    fn pair_fits(&self, first: &[u8], second: &[u8], t: &Option<GoType>) -> Result<(), TypeFault>
        ensures { AnswersOrFault result (pair_faults self.now.line self.now.scope first.now second.now t.now) (λ _. Unit {0}) }
    {
        self.require(NOT_DECLARABLE, self.pair_differs(first, second))?;
        self.kept_pair_fits(first, second, t)?;
        self.require(
            NOTHING_NEW,
            is_new(&self.scope, first) || is_new(&self.scope, second),
        )
    }

    // Returns whether neither name is reserved, and they are not the same new name.
    #[tactic(auto, unfolding(golf_check_types::specs::Statements::pair_differs))]
    fn pair_differs(&self, first: &[u8], second: &[u8]) -> bool
        ensures { result ≡ pair_differs_of self.now.scope first.now second.now }
    {
        !is_reserved(first)
            && !is_reserved(second)
            && !(first == second && is_new(&self.scope, first))
    }

    // Checks that kept names can take the values. A name that comes twice is not assigned.
    fn kept_pair_fits(
        &self,
        first: &[u8],
        second: &[u8],
        t: &Option<GoType>,
    ) -> Result<(), TypeFault>
        ensures { AnswersOrFault result (kept_pair_faults self.now.line self.now.scope first.now second.now t.now) (λ _. Unit {0}) }
    {
        if first == second {
            return Ok(());
        }
        self.kept_fits(first, t)?;
        self.kept_fits(second, &truth_type(self.alloc))
    }

    // Checks that a name that this block has declared can take a value of this type.
    #[tactic(auto, unfolding(golf_check_types::specs::Statements::kept_faults))]
    fn kept_fits(&self, name: &[u8], t: &Option<GoType>) -> Result<(), TypeFault>
        ensures { AnswersOrFault result (kept_faults self.now.line self.now.scope name.now t.now) (λ _. Unit {0}) }
    {
        match self.scope.locals.look(name) {
            None => Ok(()),
            Some(local) => self.local_fits(local, t),
        }
    }

    // Checks the same for a variable. A variable of an outer block is not assigned.
    fn local_fits(&self, local: &Local, t: &Option<GoType>) -> Result<(), TypeFault>
        ensures { AnswersOrFault result (kept_local_of self.now.line self.now.scope.depth (Some local.now) t.now) (λ _. Unit {0}) }
    {
        if local.depth == self.scope.depth {
            let value = given_type(copy_optional(self.alloc, t)?);
            self.require(NOT_ASSIGNABLE, assignable(&value, &local.of_type))
        } else {
            Ok(())
        }
    }

    // Declares each name that is new, and adds the targets of the stores.
    fn store_both(
        &mut self,
        first: &[u8],
        second: &[u8],
        t: Option<GoType>,
    ) -> Result<(), TypeFault>
        ensures { Walks result (then (new_or_kept_of (is_new_of self.old.scope first.now) (assigned_of self.old.scope first.now) first.now t) (new_or_kept_of (is_new_of self.old.scope second.now) (assigned_of self.old.scope second.now) second.now bool_type) self.old.scope) self.old self.new }
    {
        let first_new = is_new(&self.scope, first);
        let second_new = is_new(&self.scope, second);
        let first_kept = self.assigned(first)?;
        let second_kept = self.assigned(second)?;
        self.new_or_kept(first, first_new, first_kept, t)?;
        let truth = truth_type(self.alloc);
        self.new_or_kept(second, second_new, second_kept, truth)
    }

    // Returns the operand to which a name left of `=` assigns.
    fn assigned(&self, name: &[u8]) -> Result<Operand, Memory>
        ensures { IfOk result (λ m. m ≡ assigned_of self.now.scope name.now) }
    {
        let operand = assigned_name(self.alloc, &self.scope, name)?;
        Ok(operand.unwrap_or(Operand::Unknown))
    }

    /// Declares a variable if it is new, and adds the fact of the store's target: its slot, or the kept operand.
    #[tactic(auto, using(golf_check_types::proofs::WalkLaws::stays))]
    pub(crate) fn new_or_kept(
        &mut self,
        name: &[u8],
        new: bool,
        kept: Operand,
        t: Option<GoType>,
    ) -> Result<(), TypeFault>
        ensures { Walks result (new_or_kept_of new kept name.now t self.old.scope) self.old self.new }
    {
        if new {
            return self.declare(name, t);
        }
        self.facts.push(Fact::Target(kept))?;
        Ok(())
    }

    /// Walks over a name left of `=` that takes a value of this type.
    pub(crate) fn assign_name(&mut self, name: &[u8], t: &Option<GoType>) -> Result<(), TypeFault>
        ensures { AddsFacts result (assign_name_of self.old.line name.now t.now self.old.scope) self.old self.new }
    {
        let operand = assigned_name(self.alloc, &self.scope, name)?;
        self.is_assigned(&operand, t)?;
        self.facts.push(target(operand))?;
        Ok(())
    }

    /// Walks over two names left of `=`. The first takes a value of this type.
    pub(crate) fn assign_pair(
        &mut self,
        first: &[u8],
        second: &[u8],
        t: &Option<GoType>,
    ) -> Result<(), TypeFault>
        ensures { AddsFacts result (assign_pair_of self.old.line first.now second.now t.now self.old.scope) self.old self.new }
    {
        let a = assigned_name(self.alloc, &self.scope, first)?;
        let b = assigned_name(self.alloc, &self.scope, second)?;
        self.are_assigned(&a, &b, t)?;
        self.facts.push(target(a))?;
        self.facts.push(target(b))?;
        Ok(())
    }

    // Checks that a value of this type can be stored to an operand.
    fn is_assigned(&self, operand: &Option<Operand>, t: &Option<GoType>) -> Result<(), TypeFault>
        ensures { AnswersOrFault result (assigned_faults self.now.line operand.now t.now) (λ _. Unit {0}) }
    {
        self.require(UNKNOWN_NAME, operand.is_some())?;
        self.put_in_fits(operand, t)?;
        self.require(NO_PLACE, takes_value(operand))
    }

    // Checks that a value of this type, and a truth value, can be stored to two operands.
    fn are_assigned(
        &self,
        first: &Option<Operand>,
        second: &Option<Operand>,
        t: &Option<GoType>,
    ) -> Result<(), TypeFault>
        ensures { AnswersOrFault result (assigned_pair_faults self.now.line first.now second.now t.now) (λ _. Unit {0}) }
    {
        self.require(UNKNOWN_NAME, first.is_some() && second.is_some())?;
        self.put_in_fits(first, t)?;
        self.put_in_fits(second, &truth_type(self.alloc))?;
        self.require(NO_PLACE, takes_value(first) && takes_value(second))
    }

    // Checks that an assigned operand can take a value of this type. An operand that is not known takes any.
    #[tactic(auto, unfolding(golf_check_types::specs::Statements::put_in_faults))]
    fn put_in_fits(&self, operand: &Option<Operand>, t: &Option<GoType>) -> Result<(), TypeFault>
        ensures { AnswersOrFault result (put_in_faults self.now.line operand.now t.now) (λ _. Unit {0}) }
    {
        match operand {
            None => Ok(()),
            Some(operand) => self.operand_fits(operand, t),
        }
    }

    // Checks the same for an operand that is known.
    #[tactic(auto, unfolding(golf_check_types::specs::Statements::put_in_faults))]
    fn operand_fits(&self, operand: &Operand, t: &Option<GoType>) -> Result<(), TypeFault>
        ensures { AnswersOrFault result (put_in_faults self.now.line (Some operand.now) t.now) (λ _. Unit {0}) }
    {
        match operand {
            Operand::Blank => Ok(()),
            _ => {
                let value = given_type(copy_optional(self.alloc, t)?);
                let of_type = type_of(self.alloc, operand)?;
                self.require(NOT_ASSIGNABLE, assignable(&value, &of_type))
            }
        }
    }
}
