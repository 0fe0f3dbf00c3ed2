//! Simple statements, and the receives that `select` has, too.
//!
//! Both sides are judged first, from left to right. Then the checker looks whether they fit each other.

ghost use Rattle.std.specs.Prelude.{◌≡◌, ◌++◌};
ghost use Rattle.golf_check_types.specs.Faults.{AnswersOrFault, broken as broken_of};
ghost use Rattle.golf_check_types.specs.Types.{assignable as assignable_of, type_of as type_of_of};
ghost use Rattle.golf_check_types.specs.Statements.{action_faults, action, send_faults, send as send_of};
ghost use Rattle.golf_check_types.specs.Statements.{is_place as is_place_of, step_faults, step, update_faults};
ghost use Rattle.golf_check_types.specs.Statements.{update as update_of, left_faults, assign_faults};
ghost use Rattle.golf_check_types.specs.Statements.{assignment as assignment_of, definition, define_received};
ghost use Rattle.golf_check_types.specs.Statements.{assign_received as assign_received_of, simple_walk};
ghost use Rattle.golf_check_bodies.specs.CheckerClauses.{AddsFacts, Walks, AnswersReceived};

use crate::checker::{Checker, is_nil};
use golf_check_operands::{
    assignable, can_give, can_take, element, has_base, has_channel, is_value, late,
};
use golf_check_types::rules::{
    NIL_WITHOUT_TYPE, NO_PLACE, NOT_ASSIGNABLE, NOT_DECLARABLE, NOTHING_NEW, WRONG_CHANNEL,
    WRONG_OPERAND, WRONG_USE,
};
use golf_check_types::{
    Base, Given, GoType, Operand, TypeFault, is_blank, is_here, is_reserved, type_of, value_of,
};
use golf_syntax_trees::{Expr, Simple, SimpleKind};

/// Returns whether an operand is a variable, a field or an element. An operand that is not known counts as one.
pub(crate) fn is_place(operand: &Operand) -> bool
    ensures { result ≡ is_place_of operand.now }
{
    match operand {
        Operand::Variable(_, _) => true,
        Operand::Field(_, _) => true,
        Operand::Element(_) => true,
        Operand::Unknown => true,
        _ => false,
    }
}

impl Checker {
    /// Walks over a simple statement.
    #[tactic(auto, using(golf_check_types::proofs::WalkLaws::stays))]
    pub(crate) fn simple_statement(&mut self, simple: &Simple) -> Result<(), TypeFault>
        ensures { Walks result (simple_walk simple.now self.old.scope) self.old self.new }
    {
        self.line = simple.line;
        match simple.kind.get() {
            SimpleKind::Expression(e) => self.expression_statement(e.get()),
            SimpleKind::Send(channel, e) => self.send(channel.get(), e.get()),
            SimpleKind::Increment(place) => self.increment(place.get()),
            SimpleKind::Decrement(place) => self.increment(place.get()),
            SimpleKind::Assign(place, e) => self.assignment(place.get(), e.get()),
            SimpleKind::Update(place, _, e) => self.update(place.get(), e.get()),
            SimpleKind::Define(name, e) => self.short_declaration(name.as_slice(), e.get()),
            SimpleKind::DefineReceived(first, second, e) => {
                self.declare_received(simple.line, first.as_slice(), second.as_slice(), e.get())
            }
            SimpleKind::AssignReceived(first, second, e) => {
                self.assign_received(first.as_slice(), second.as_slice(), e.get())
            }
        }
    }

    // Walks over an expression statement: a call or a receive.
    fn expression_statement(&mut self, e: &Expr) -> Result<(), TypeFault>
        ensures { AddsFacts result (action self.old.line e.now self.old.scope) self.old self.new }
    {
        let operand = self.expression(e)?;
        self.stands_alone(&operand)
    }

    // Checks that an operand can be a statement.
    fn stands_alone(&self, operand: &Operand) -> Result<(), TypeFault>
        ensures { AnswersOrFault result (action_faults self.now.line operand.now) (λ _. Unit {0}) }
    {
        match operand {
            Operand::Outcome(_) => Ok(()),
            Operand::Nothing(rule) => late(self.line, *rule),
            _ => {
                is_value(self.line, operand)?;
                self.require(WRONG_USE, false)
            }
        }
    }

    /// `channel <- e`
    pub(crate) fn send(&mut self, channel: &Expr, e: &Expr) -> Result<(), TypeFault>
        ensures { AddsFacts result (send_of self.old.line channel.now e.now self.old.scope) self.old self.new }
    {
        let channel = self.given(channel)?;
        let value = self.given(e)?;
        self.can_be_sent(channel, &value)
    }

    // Checks that a value can be sent on a channel.
    fn can_be_sent(&self, channel: Given, value: &Given) -> Result<(), TypeFault>
        ensures { AnswersOrFault result (send_faults self.now.line channel value.now) (λ _. Unit {0}) }
    {
        let takes = can_take(&channel);
        let carries = has_channel(&channel);
        self.require(
            NOT_ASSIGNABLE,
            !carries || assignable(value, &element(channel)),
        )?;
        self.require(WRONG_CHANNEL, takes)
    }

    // `place++` and `place--`
    fn increment(&mut self, place: &Expr) -> Result<(), TypeFault>
        ensures { AddsFacts result (step self.old.line place.now self.old.scope) self.old self.new }
    {
        let left = self.name_or_value(place)?;
        self.can_step(left)
    }

    // Checks that an operand can be counted up or down.
    fn can_step(&self, left: Operand) -> Result<(), TypeFault>
        ensures { AnswersOrFault result (step_faults self.now.line left) (λ _. Unit {0}) }
    {
        let place = is_place(&left);
        self.require(
            WRONG_OPERAND,
            has_base(Base::Int, &value_of(self.alloc, left)),
        )?;
        self.require(NO_PLACE, place)
    }

    // `place += e` and its like
    fn update(&mut self, place: &Expr, e: &Expr) -> Result<(), TypeFault>
        ensures { AddsFacts result (update_of self.old.line place.now e.now self.old.scope) self.old self.new }
    {
        let left = self.name_or_value(place)?;
        let value = self.given(e)?;
        self.can_update(left, &value)
    }

    // Checks that an operand can be updated by a value.
    fn can_update(&self, left: Operand, value: &Given) -> Result<(), TypeFault>
        ensures { AnswersOrFault result (update_faults self.now.line left value.now) (λ _. Unit {0}) }
    {
        let place = is_place(&left);
        let is_int = has_base(Base::Int, &value_of(self.alloc, left)) && has_base(Base::Int, value);
        self.require(WRONG_OPERAND, is_int)?;
        self.require(NO_PLACE, place)
    }

    // `place = e`
    fn assignment(&mut self, place: &Expr, e: &Expr) -> Result<(), TypeFault>
        ensures { AddsFacts result (assignment_of self.old.line place.now e.now self.old.scope) self.old self.new }
    {
        let left = self.expression(place)?;
        self.may_stand_left(&left)?;
        let value = self.given(e)?;
        self.can_be_assigned(&left, &value)
    }

    // Checks that an operand can be on a left side: a call without a result cannot.
    fn may_stand_left(&self, left: &Operand) -> Result<(), TypeFault>
        ensures { AnswersOrFault result (left_faults self.now.line left.now) (λ _. Unit {0}) }
    {
        match left {
            Operand::Nothing(_) => self.require(WRONG_USE, false),
            _ => Ok(()),
        }
    }

    // Checks that a value can be assigned to an operand. `_` takes any value.
    fn can_be_assigned(&self, left: &Operand, value: &Given) -> Result<(), TypeFault>
        ensures { AnswersOrFault result (assign_faults self.now.line left.now value.now) (λ _. Unit {0}) }
    {
        match left {
            Operand::Blank => Ok(()),
            _ => self.place_can_take(left, value),
        }
    }

    // Checks the same for an operand that is not `_`. The types are judged first, even if the operand is no place.
    fn place_can_take(&self, left: &Operand, value: &Given) -> Result<(), TypeFault>
        ensures { AnswersOrFault result (broken_of self.now.line NOT_ASSIGNABLE (assignable_of value.now (type_of_of left.now)) ++ broken_of self.now.line NO_PLACE (is_place_of left.now)) (λ _. Unit {0}) }
    {
        let of_type = type_of(self.alloc, left)?;
        self.require(NOT_ASSIGNABLE, assignable(value, &of_type))?;
        self.require(NO_PLACE, is_place(left))
    }

    // `name := e`
    fn short_declaration(&mut self, name: &[u8], e: &Expr) -> Result<(), TypeFault>
        ensures { Walks result (definition self.old.line name.now e.now self.old.scope) self.old self.new }
    {
        let value = self.given(e)?;
        self.require(NOT_DECLARABLE, !is_blank(name) && !is_reserved(name))?;
        self.require(NIL_WITHOUT_TYPE, !is_nil(&value))?;
        self.require(NOTHING_NEW, !is_here(&self.scope, name))?;
        self.declare(name, value.into_type())
    }

    /// Walks over a receive beside names, and returns the type of the received value.
    pub(crate) fn receive(&mut self, e: &Expr) -> Result<Option<GoType>, TypeFault>
        ensures { AnswersReceived result e.now self.old self.new }
    {
        let channel = self.given(e)?;
        self.require(WRONG_CHANNEL, can_give(&channel))?;
        Ok(element(channel))
    }

    /// Walks over `first, second := <-e`. The names are on a line of their own.
    pub(crate) fn declare_received(
        &mut self,
        names_line: u32,
        first: &[u8],
        second: &[u8],
        e: &Expr,
    ) -> Result<(), TypeFault>
        ensures { Walks result (define_received self.old.line names_line first.now second.now e.now self.old.scope) self.old self.new }
    {
        let t = self.receive(e)?;
        self.line = names_line;
        self.declare_pair(first, second, t)
    }

    // `first, second = <-e`
    fn assign_received(&mut self, first: &[u8], second: &[u8], e: &Expr) -> Result<(), TypeFault>
        ensures { AddsFacts result (assign_received_of self.old.line first.now second.now e.now self.old.scope) self.old self.new }
    {
        let t = self.receive(e)?;
        self.assign_pair(first, second, &t)
    }
}
