//! The header of a `for` with `range`.
//!
//! A range over a slice has three hidden slots: the slice, its length and the next index. A range over a channel has
//! one. The names come after them: an index and an element, or an element of the channel.

ghost use Rattle.std.specs.Prelude.{◌≡◌, ◌++◌, [], IfOk};
ghost use Rattle.golf_check_types.specs.Faults.{AnswersOrFault};
ghost use Rattle.golf_check_types.specs.Types.{starts_with, type_given as type_given_of, is_slice as is_slice_layer};
ghost use Rattle.golf_check_types.specs.Types.{is_channel as is_channel_layer};
ghost use Rattle.golf_check_types.specs.Expressions.{given_by};
ghost use Rattle.golf_check_types.specs.Judgments.{judge};
ghost use Rattle.golf_check_types.specs.Statements.{range_names_differ as range_names_differ_of, are_two as are_two_of};
ghost use Rattle.golf_check_types.specs.Statements.{only_takes, is_outer, range_faults, hidden, hides};
ghost use Rattle.golf_check_types.specs.Statements.{range_name as range_name_of, first_type as first_type_of};
ghost use Rattle.golf_check_types.specs.Statements.{range_names as range_names_of, range_head as range_head_of};
ghost use Rattle.golf_check_types.specs.Statements.{range_slots as range_slots_of};
ghost use Rattle.golf_check_bodies.specs.CheckerClauses.{Walks, with_facts};

use crate::checker::Checker;
use golf_base::Memory;
use golf_check_operands::{begins_channel, begins_slice, element, has_any};
use golf_check_types::rules::{NOT_DECLARABLE, WRONG_CHANNEL, WRONG_RANGE};
use golf_check_types::{
    Base, Fact, Given, GoType, Layer, Operand, TypeFault, copy_optional, hide, is_blank,
    is_reserved, plain,
};
use golf_syntax_trees::{Expr, RangeNames};
use std::alloc::Global;

// Returns whether no name is reserved, and two names are different.
#[tactic(auto, unfolding(golf_check_types::specs::Statements::range_names_differ))]
fn range_names_differ(names: &RangeNames) -> bool
    ensures { result ≡ range_names_differ_of names.now }
{
    match names {
        RangeNames::Neither => true,
        RangeNames::One(n) => !is_reserved(n.as_slice()),
        RangeNames::Two(n, m) => {
            !is_reserved(n.as_slice())
                && !is_reserved(m.as_slice())
                && (is_blank(n.as_slice()) || n.as_slice() != m.as_slice())
        }
    }
}

// Returns whether a `range` has two names.
fn are_two(names: &RangeNames) -> bool
    ensures { result ≡ are_two_of names.now }
{
    match names {
        RangeNames::Two(_, _) => true,
        _ => false,
    }
}

// Returns whether the layers are those of a channel that can only be sent on.
fn begins_only_taking(layers: &[Layer]) -> bool
    ensures { result ≡ starts_with only_takes layers.now }
{
    match layers {
        [Layer::SendChan, ..] => true,
        _ => false,
    }
}

// Returns whether a value is a channel that can only be sent on.
fn only_takes_values(given: &Given) -> bool
    ensures { result ≡ is_outer only_takes given.now }
{
    match given {
        Given::Typed(t) => begins_only_taking(t.layers.as_slice()),
        _ => false,
    }
}

// Returns whether a value is known to be a channel.
fn is_channel(given: &Given) -> bool
    ensures { result ≡ is_outer is_channel_layer given.now }
{
    match given {
        Given::Typed(t) => begins_channel(t.layers.as_slice()),
        _ => false,
    }
}

// Returns whether a value is known to be a slice.
fn is_slice(given: &Given) -> bool
    ensures { result ≡ is_outer is_slice_layer given.now }
{
    match given {
        Given::Typed(t) => begins_slice(t.layers.as_slice()),
        _ => false,
    }
}

// Returns the type of the first name: an index, or the element type of the channel.
fn first_type(alloc: Global, slice: bool, t: &Option<GoType>) -> Result<Option<GoType>, Memory>
    ensures { IfOk result (λ r. r ≡ first_type_of slice t.now) }
{
    if slice {
        Ok(Some(plain(alloc, Base::Int)))
    } else {
        copy_optional(alloc, t)
    }
}

impl Checker {
    /// Walks over the expression of a `range` and returns what it gives. The fact of the first hidden slot is added.
    pub(crate) fn range_head(&mut self, names: &RangeNames, e: &Expr) -> Result<Given, TypeFault>
        ensures { AnswersOrFault result (range_head_of self.old.line names.now e.now self.old.scope).faults (λ v. (v ≡ given_by (judge e.now self.old.line self.old.scope)) × (self.new ≡ with_facts self.old (range_head_of self.old.line names.now e.now self.old.scope).facts)) }
    {
        let value = self.given(e)?;
        self.can_be_ranged(names, &value)?;
        self.facts.push(Fact::Hidden(self.scope.next))?;
        Ok(value)
    }

    // Checks that a `range` over a value can have these names.
    fn can_be_ranged(&self, names: &RangeNames, given: &Given) -> Result<(), TypeFault>
        ensures { AnswersOrFault result (range_faults self.now.line names.now given.now) (λ _. Unit {0}) }
    {
        self.require(NOT_DECLARABLE, range_names_differ(names))?;
        self.require(WRONG_CHANNEL, !only_takes_values(given))?;
        let fits = has_any(given) && !(are_two(names) && is_channel(given));
        self.require(WRONG_RANGE, fits)
    }

    /// Hands out the hidden slots of a `range` over this value, and declares its names.
    pub(crate) fn range_slots(&mut self, names: &RangeNames, given: Given) -> Result<(), TypeFault>
        ensures { Walks result (range_slots_of names.now given self.old.scope) self.old self.new }
    {
        let slice = is_slice(&given);
        self.hide_slots(slice, &given)?;
        self.range_names(names, slice, element(given))
    }

    // Hands out the hidden slots.
    fn hide_slots(&mut self, slice: bool, given: &Given) -> Result<(), TypeFault>
        ensures { Walks result (hides (hidden slice (type_given_of given.now))) self.old self.new }
    {
        if slice {
            hide(&mut self.scope, 3)?;
        } else {
            hide(&mut self.scope, 1)?;
        }
        Ok(())
    }

    // Declares the names of a `range` over elements of this type.
    #[tactic(auto, using(golf_check_types::proofs::WalkLaws::stays))]
    fn range_names(
        &mut self,
        names: &RangeNames,
        slice: bool,
        t: Option<GoType>,
    ) -> Result<(), TypeFault>
        ensures { Walks result (range_names_of names.now slice t self.old.scope) self.old self.new }
    {
        let first = first_type(self.alloc, slice, &t)?;
        match names {
            RangeNames::Neither => Ok(()),
            RangeNames::One(n) => self.range_name(n.as_slice(), first),
            RangeNames::Two(n, m) => {
                self.range_name(n.as_slice(), first)?;
                self.range_name(m.as_slice(), t)
            }
        }
    }

    // Walks over a name of a `range`, which is new unless it is `_`.
    fn range_name(&mut self, name: &[u8], t: Option<GoType>) -> Result<(), TypeFault>
        ensures { Walks result (range_name_of name.now t self.old.scope) self.old self.new }
    {
        self.new_or_kept(name, !is_blank(name), Operand::Blank, t)
    }
}
