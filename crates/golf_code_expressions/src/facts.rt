//! The facts of the part of a file that is still to be written.
//!
//! The writer takes them in the order in which the checker recorded them. `skip` skips the
//! facts of a whole part.

ghost use Rattle.std.specs.Prelude.{◌≡◌, ◌∷◌, [], drop, IfSome, IfNone};
ghost use Rattle.golf_code_facts.specs.Facts.{skip as skip_of, past_one, next as next_of, next_is};
ghost use Rattle.golf_code_facts.specs.Facts.{operand_in as operand_in_of, parts_in as parts_in_of};
ghost use Rattle.golf_code_facts.specs.Facts.{number_in as number_in_of, field_in as field_in_of};
ghost use Rattle.golf_code_facts.specs.Facts.{hidden_in as hidden_in_of};

use golf_check_types::{Fact, Operand};
use std::marker::Model;

/// The facts that are still to be used, in the order of the checker's walk.
#[derive(Drop)]
pub struct Facts<'a> {
    left: &'a [Fact],
    // The operand of an expression that has no fact.
    unknown: &'a Operand,
}

impl<'a> Model for Facts<'a> {
    ghost use Rattle.std.specs.Prelude.{◌≡◌, List};
    ghost use Rattle.golf_check_types.specs.declared.facts.Fact.{Fact};
    ghost use Rattle.golf_check_types.specs.declared.operands.Operand.TheVariants as operand;

    ghost Value = { List Fact };

    ghost view = { λ f. f.left.now };

    ghost invariant = { λ f. f.unknown.now ≡ operand.Unknown };
}

// Returns the operand of an expression, or the target of a store.
fn operand_in<'a>(fact: &'a Fact, unknown: &'a Operand) -> &'a Operand
    requires { unknown.now ≡ Operand.Unknown }
    ensures { result.now ≡ operand_in_of fact.now }
{
    match fact {
        Fact::Expression { operand, parts: _ } => operand,
        Fact::Target(operand) => operand,
        Fact::Number(_)
        | Fact::Field(_)
        | Fact::Hidden(_)
        | Fact::Part(_)
        | Fact::Function {
            arguments: _,
            slots: _,
            parts: _,
        } => unknown,
    }
}

fn parts_in(fact: &Fact) -> usize
    ensures { result ≡ parts_in_of fact.now }
{
    match fact {
        Fact::Expression { operand: _, parts } => *parts,
        Fact::Part(parts) => *parts,
        Fact::Function {
            arguments: _,
            slots: _,
            parts,
        } => *parts,
        Fact::Number(_) | Fact::Field(_) | Fact::Target(_) | Fact::Hidden(_) => 0,
    }
}

fn number_in(fact: &Fact) -> i64
    ensures { result ≡ number_in_of fact.now }
{
    match fact {
        Fact::Number(number) => *number,
        _ => 0,
    }
}

fn field_in(fact: &Fact) -> u32
    ensures { result ≡ field_in_of fact.now }
{
    match fact {
        Fact::Field(place) => *place,
        _ => 0,
    }
}

fn hidden_in(fact: &Fact) -> u32
    ensures { result ≡ hidden_in_of fact.now }
{
    match fact {
        Fact::Hidden(slot) => *slot,
        _ => 0,
    }
}

fn skipped(facts: &[Fact]) -> &[Fact]
    ensures { result.now ≡ skip_of facts.now }
{
    match facts {
        [] => facts,
        [fact, rest @ ..] => {
            let parts = parts_in(fact);
            if parts < rest.len() {
                &rest[parts..]
            } else {
                &[]
            }
        }
    }
}

fn from(facts: &[Fact], at: usize) -> &[Fact]
    ensures { result.now ≡ drop at facts.now }
{
    if at < facts.len() { &facts[at..] } else { &[] }
}

impl<'a> Facts<'a> {
    /// Returns these facts. `unknown` is the operand of an expression that has no fact.
    pub fn new(facts: &'a [Fact], unknown: &'a Operand) -> Facts<'a>
        requires { unknown.now ≡ Operand.Unknown }
        ensures { result ≡ facts.now }
    {
        Facts {
            left: facts,
            unknown,
        }
    }

    /// Returns the same facts again.
    pub fn copy(&self) -> Facts<'a>
        ensures { result ≡ self.now }
    {
        Facts {
            left: self.left,
            unknown: self.unknown,
        }
    }

    /// Returns the facts from a place on.
    pub fn from(&self, at: usize) -> Facts<'a>
        ensures { result ≡ drop at self.now }
    {
        Facts {
            left: from(self.left, at),
            unknown: self.unknown,
        }
    }

    /// Takes the next fact and returns it, or `None` if there is none.
    pub fn take(&mut self) -> Option<&'a Fact>
        ensures some { IfSome result (λ fact. self.old ≡ fact.now ∷ self.new) }
        ensures none { IfNone result ((self.old ≡ []) × (self.new ≡ [])) }
    {
        match self.left {
            [] => None,
            [fact, rest @ ..] => {
                self.left = rest;
                Some(fact)
            }
        }
    }

    /// Skips the next fact.
    pub fn skip_one(&mut self)
        ensures { self.new ≡ past_one self.old }
    {
        match self.left {
            [] => {}
            [_, rest @ ..] => self.left = rest,
        }
    }

    /// Skips the next fact and all facts that belong to it.
    pub fn skip(&mut self)
        ensures { self.new ≡ skip_of self.old }
    {
        self.left = skipped(self.left);
    }

    /// Returns the operand of the next expression, or the target of the next store.
    pub fn operand(&self) -> &'a Operand
        ensures { result.now ≡ next_is self.now }
    {
        match self.left {
            [] => self.unknown,
            [fact, ..] => operand_in(fact, self.unknown),
        }
    }

    /// Returns the operand of an expression with this fact.
    pub fn operand_of(&self, fact: &'a Fact) -> &'a Operand
        ensures { result.now ≡ operand_in_of fact.now }
    {
        operand_in(fact, self.unknown)
    }

    /// Returns the value of an integer, if the next fact is one, else 0.
    pub fn number(&self) -> i64
        ensures { result ≡ number_in_of (next_of self.now) }
    {
        match self.left {
            [] => 0,
            [fact, ..] => number_in(fact),
        }
    }

    /// Returns the place of a field, if the next fact is one, else 0.
    pub fn field(&self) -> u32
        ensures { result ≡ field_in_of (next_of self.now) }
    {
        match self.left {
            [] => 0,
            [fact, ..] => field_in(fact),
        }
    }

    /// Returns the first hidden slot of a `range`, if the next fact is one, else 0.
    pub fn hidden(&self) -> u32
        ensures { result ≡ hidden_in_of (next_of self.now) }
    {
        match self.left {
            [] => 0,
            [fact, ..] => hidden_in(fact),
        }
    }
}
