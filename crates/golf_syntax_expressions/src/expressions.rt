//! The reader of expressions (Go specification, "Expressions").
//!
//! It does not recur: the constructs that wait for an expression are in a list. A `Move` says how the reader goes on.
//! Each move takes a token, lowers the weight, or lets a waiting construct go on, so the reader ends.

ghost use Rattle.std.specs.Prelude.{false, Some, ◌≡◌, ◌+◌, ◌*◌, ◌<◌, length, IfOk, IfSome};
ghost use Rattle.golf_syntax_expressions.specs.Front as front_spec;
ghost use Rattle.golf_syntax_expressions.specs.Front.{seen};
ghost use Rattle.golf_syntax_expressions.specs.ExpressionReader.{expr_at, Suffixes, Prefixed, Level, Climb};
ghost use Rattle.golf_syntax_expressions.specs.Places as places_spec;
ghost use Rattle.golf_syntax_expressions.specs.Moves as moves_spec;
ghost use Rattle.golf_syntax_expressions.specs.Moves.{goal_at, pending_at, argument_at, item_at, element_at, closed_at};
ghost use Rattle.golf_syntax_expressions.specs.Moves.{field_at, started_at, extended_at, goal_weight, weight};

use crate::front::{after, copied, name_at};
use crate::operators::{binary_at, binds, unary_at};
use crate::pending::{Goal, Move, Pending};
use crate::place::{Context, in_header};
use crate::starts::{Start, Suffix, start_at, suffix_at};
use golf_base::{List, Memory};
use golf_lex_tokens::{Punctuation, Token};
use golf_syntax_trees::{Name, OwnedElements, OwnedExpr, OwnedExprs, OwnedType};
use std::alloc::Global;

// Reads an expression inside brackets next, for which `pending` waits.
fn inside(pending: Pending) -> Move
    ensures value { result ≡ Move.Wait pending (Goal.Level false 1) }
{
    Move::Wait(pending, Goal::Level(false, 1))
}

// Reads the name and the colon of the next element of a struct literal.
fn field_move(
    alloc: Global,
    name: Name,
    done: OwnedElements,
    tokens: &[Token],
) -> Result<Option<(Move, &[Token])>, Memory>
    ensures value { IfOk result (λ o. moves_spec.moved o ≡ field_at name done tokens.now) }
    ensures less { IfOk result (λ o. IfSome o (λ x. weight x.0 + 8 * length x.1.now < 8 * length tokens.now)) }
{
    let Some((field, named)) = name_at(tokens) else {
        return Ok(None)
    };
    let Some(valued) = after(named, Punctuation::Colon) else {
        return Ok(None)
    };
    let field = copied(alloc, field)?;
    Ok(Some((inside(Pending::Element(name, done, field)), valued)))
}

// Goes on after the beginning of an operand.
fn start_move(
    alloc: Global,
    start: Start,
    tokens: &[Token],
) -> Result<Option<(Move, &[Token])>, Memory>
    ensures value { IfOk result (λ o. moves_spec.moved o ≡ started_at start tokens.now) }
    ensures less { IfOk result (λ o. IfSome o (λ x. weight x.0 + 8 * length x.1.now < 8 * length tokens.now + 8)) }
{
    match start {
        Start::Whole(e) => Ok(Some((Move::Seek(Goal::Suffixes(e)), tokens))),
        Start::Group => Ok(Some((inside(Pending::Group), tokens))),
        Start::Sized(made) => Ok(Some((inside(Pending::Sized(made)), tokens))),
        Start::Items(element) => Ok(Some((
            inside(Pending::Item(element, OwnedExprs::empty(alloc))),
            tokens,
        ))),
        Start::Elements(name) => field_move(alloc, name, OwnedElements::empty(alloc), tokens),
    }
}

// Goes on after one more suffix.
fn suffix_move(
    alloc: Global,
    base: OwnedExpr,
    suffix: Suffix,
    tokens: &[Token],
) -> Result<(Move, &[Token]), Memory>
    ensures value { IfOk result (λ x. moves_spec.moved (Some x) ≡ extended_at base suffix tokens.now) }
    ensures less { IfOk result (λ x. weight x.0 + 8 * length x.1.now < 8 * length tokens.now + 8) }
{
    match suffix {
        Suffix::Field(name) => {
            Ok((
                Move::Seek(Goal::Suffixes(OwnedExpr::selector(alloc, base, name)?)),
                tokens,
            ))
        }
        Suffix::NoArguments => {
            Ok((
                Move::Seek(Goal::Suffixes(OwnedExpr::call(alloc, base, OwnedExprs::empty(alloc))?)),
                tokens,
            ))
        }
        Suffix::Index => Ok((inside(Pending::Index(base)), tokens)),
        Suffix::Arguments => Ok((
            inside(Pending::Argument(base, OwnedExprs::empty(alloc))),
            tokens,
        )),
    }
}

// Reads an operator in front of an operand, or the beginning of the operand.
#[tactic(auto, using(crate::proofs::Moves::prefixed_steps))]
fn prefixed_move(
    alloc: Global,
    header: bool,
    tokens: &[Token],
) -> Result<Option<(Move, &[Token])>, Memory>
    ensures value { IfOk result (λ o. moves_spec.moved o ≡ expr_at (Prefixed header) tokens.now) }
    ensures less { IfOk result (λ o. IfSome o (λ x. weight x.0 + 8 * length x.1.now < 8 * length tokens.now)) }
{
    if let Some((operator, behind)) = unary_at(tokens) {
        return Ok(Some((
            Move::Wait(Pending::Prefix(operator), Goal::Prefixed(header)),
            behind,
        )));
    }
    match start_at(alloc, header, tokens)? {
        None => Ok(None),
        Some((start, behind)) => start_move(alloc, start, behind),
    }
}

// Reads the next suffix of an operand, if there is one.
#[tactic(auto, using(crate::proofs::Moves::suffixes_steps))]
fn suffixes_move(
    alloc: Global,
    base: OwnedExpr,
    tokens: &[Token],
) -> Result<(Move, &[Token]), Memory>
    ensures value { IfOk result (λ x. moves_spec.moved (Some x) ≡ expr_at (Suffixes base) tokens.now) }
    ensures less { IfOk result (λ x. weight x.0 + 8 * length x.1.now < 8 * length tokens.now + 1) }
{
    match suffix_at(alloc, tokens)? {
        None => Ok((Move::Found(base), tokens)),
        Some((suffix, behind)) => suffix_move(alloc, base, suffix, behind),
    }
}

// Reads the next operator of a level, if there is one.
#[tactic(auto, using(crate::proofs::Moves::climb_steps))]
fn climb_move(header: bool, lowest: u8, left: OwnedExpr, tokens: &[Token]) -> (Move, &[Token])
    ensures value { moves_spec.moved (Some result) ≡ expr_at (Climb header lowest left) tokens.now }
    ensures less { weight result.0 + 8 * length result.1.now < 8 * length tokens.now + 1 }
{
    match binary_at(tokens) {
        None => (Move::Found(left), tokens),
        Some((operator, behind)) => {
            if lowest > binds(operator) {
                return (Move::Found(left), tokens);
            }
            let right = Goal::Level(header, binds(operator) + 1);
            (
                Move::Wait(Pending::Operand(header, lowest, left, operator), right),
                behind,
            )
        }
    }
}

// Reads what a goal asks for.
#[tactic(auto, using(crate::proofs::Moves::level_steps))]
fn goal_move(
    alloc: Global,
    goal: Goal,
    tokens: &[Token],
) -> Result<Option<(Move, &[Token])>, Memory>
    ensures value { IfOk result (λ o. moves_spec.moved o ≡ goal_at goal tokens.now) }
    ensures less { IfOk result (λ o. IfSome o (λ x. weight x.0 + 8 * length x.1.now < 8 * length tokens.now + goal_weight goal)) }
{
    match goal {
        Goal::Level(header, lowest) => {
            let first = Move::Wait(Pending::Level(header, lowest), Goal::Prefixed(header));
            Ok(Some((first, tokens)))
        }
        Goal::Prefixed(header) => prefixed_move(alloc, header, tokens),
        Goal::Suffixes(base) => Ok(Some(suffixes_move(alloc, base, tokens)?)),
        Goal::Climb(header, lowest, left) => Ok(Some(climb_move(header, lowest, left, tokens))),
    }
}

// Reads a comma and the next argument, or the closing parenthesis.
#[tactic(auto, using(crate::proofs::Moves::resume_steps))]
fn argument_move(
    alloc: Global,
    callee: OwnedExpr,
    done: OwnedExprs,
    tokens: &[Token],
) -> Result<Option<(Move, &[Token])>, Memory>
    ensures value { IfOk result (λ o. moves_spec.moved o ≡ argument_at callee done tokens.now (front_spec.after Punctuation.Comma tokens.now)) }
    ensures less { IfOk result (λ o. IfSome o (λ x. weight x.0 + 8 * length x.1.now < 8 * length tokens.now)) }
{
    if let Some(next) = after(tokens, Punctuation::Comma) {
        return Ok(Some((inside(Pending::Argument(callee, done)), next)));
    }
    match after(tokens, Punctuation::CloseParen) {
        None => Ok(None),
        Some(rest) => {
            let call = OwnedExpr::call(alloc, callee, done)?;
            Ok(Some((Move::Seek(Goal::Suffixes(call)), rest)))
        }
    }
}

// Reads a comma and the next item of a slice literal, or the closing brace.
#[tactic(auto, using(crate::proofs::Moves::resume_steps))]
fn item_move(element: OwnedType, done: OwnedExprs, tokens: &[Token]) -> Option<(Move, &[Token])>
    ensures value { moves_spec.moved result ≡ item_at element done tokens.now (front_spec.after Punctuation.Comma tokens.now) }
    ensures less { IfSome result (λ x. weight x.0 + 8 * length x.1.now < 8 * length tokens.now) }
{
    if let Some(next) = after(tokens, Punctuation::Comma) {
        return Some((inside(Pending::Item(element, done)), next));
    }
    match after(tokens, Punctuation::CloseBrace) {
        None => None,
        Some(rest) => Some((
            Move::Seek(Goal::Suffixes(OwnedExpr::slice_literal(element, done))),
            rest,
        )),
    }
}

// Reads a comma and the next element of a struct literal, or the closing brace.
#[tactic(auto, using(crate::proofs::Moves::resume_steps))]
fn element_move(
    alloc: Global,
    name: Name,
    done: OwnedElements,
    tokens: &[Token],
) -> Result<Option<(Move, &[Token])>, Memory>
    ensures value { IfOk result (λ o. moves_spec.moved o ≡ element_at name done tokens.now (front_spec.after Punctuation.Comma tokens.now)) }
    ensures less { IfOk result (λ o. IfSome o (λ x. weight x.0 + 8 * length x.1.now < 8 * length tokens.now)) }
{
    if let Some(next) = after(tokens, Punctuation::Comma) {
        return field_move(alloc, name, done, next);
    }
    match after(tokens, Punctuation::CloseBrace) {
        None => Ok(None),
        Some(rest) => Ok(Some((
            Move::Seek(Goal::Suffixes(OwnedExpr::struct_literal(name, done))),
            rest,
        ))),
    }
}

// Reads the closing bracket after an expression in brackets.
fn closed_move(close: Punctuation, whole: OwnedExpr, tokens: &[Token]) -> Option<(Move, &[Token])>
    ensures value { moves_spec.moved result ≡ closed_at close whole tokens.now }
    ensures less { IfSome result (λ x. weight x.0 + 8 * length x.1.now < 8 * length tokens.now) }
{
    match after(tokens, close) {
        None => None,
        Some(rest) => Some((Move::Seek(Goal::Suffixes(whole)), rest)),
    }
}

// Goes on with the construct that waited for this expression.
fn resume(
    alloc: Global,
    pending: Pending,
    found: OwnedExpr,
    tokens: &[Token],
) -> Result<Option<(Move, &[Token])>, Memory>
    ensures value { IfOk result (λ o. moves_spec.moved o ≡ pending_at pending (found, tokens.now)) }
    ensures less { IfOk result (λ o. IfSome o (λ x. weight x.0 + 8 * length x.1.now < 8 * length tokens.now + 3)) }
{
    match pending {
        Pending::Group => {
            Ok(closed_move(
                Punctuation::CloseParen,
                OwnedExpr::parens(alloc, found)?,
                tokens,
            ))
        }
        Pending::Sized(made) => {
            Ok(closed_move(
                Punctuation::CloseParen,
                OwnedExpr::make_sized(alloc, made, found)?,
                tokens,
            ))
        }
        Pending::Index(base) => {
            Ok(closed_move(
                Punctuation::CloseBracket,
                OwnedExpr::index(alloc, base, found)?,
                tokens,
            ))
        }
        Pending::Argument(callee, done) => {
            let mut done = done;
            done.push(found)?;
            argument_move(alloc, callee, done, tokens)
        }
        Pending::Item(element, done) => {
            let mut done = done;
            done.push(found)?;
            Ok(item_move(element, done, tokens))
        }
        Pending::Element(name, done, field) => {
            let mut done = done;
            done.push(field, found)?;
            element_move(alloc, name, done, tokens)
        }
        Pending::Prefix(operator) => {
            Ok(Some((
                Move::Found(OwnedExpr::unary(alloc, operator, found)?),
                tokens,
            )))
        }
        Pending::Level(header, lowest) => {
            Ok(Some((Move::Seek(Goal::Climb(header, lowest, found)), tokens)))
        }
        Pending::Operand(header, lowest, left, operator) => {
            let grown = OwnedExpr::binary(alloc, operator, left, found)?;
            Ok(Some((Move::Seek(Goal::Climb(header, lowest, grown)), tokens)))
        }
    }
}

// Reads all that this goal asks for, with a list of the constructs that wait.
#[tactic(auto, using(crate::proofs::Moves::read_steps))]
fn read(
    alloc: Global,
    goal: Goal,
    tokens: &[Token],
) -> Result<Option<(OwnedExpr, &[Token])>, Memory>
    ensures value { IfOk result (λ o. seen o ≡ goal_at goal tokens.now) }
{
    let mut waiting: List<Pending> = List::new(alloc);
    let mut now = Move::Seek(goal);
    let mut rest = tokens;
    'moves: loop {
        let next = match now {
            Move::Found(found) => match waiting.pop() {
                None => return Ok(Some((found, rest))),
                Some(pending) => resume(alloc, pending, found, rest)?,
            },
            Move::Seek(goal) => goal_move(alloc, goal, rest)?,
            Move::Wait(pending, goal) => {
                waiting.push(pending)?;
                goal_move(alloc, goal, rest)?
            }
        };
        let Some((moved, behind)) = next else {
            return Ok(None)
        };
        now = moved;
        rest = behind;
    }
}

// Reads an expression whose operators bind at least as tightly as `lowest`. Returns it and the tokens after it.
#[tactic(auto, using(crate::proofs::Moves::shorter_steps))]
pub(crate) fn level_at(
    alloc: Global,
    header: bool,
    lowest: u8,
    tokens: &[Token],
) -> Result<Option<(OwnedExpr, &[Token])>, Memory>
    ensures value { IfOk result (λ o. seen o ≡ expr_at (Level header lowest) tokens.now) }
    ensures shorter { IfOk result (λ o. IfSome o (λ x. length x.1.now < length tokens.now)) }
{
    read(alloc, Goal::Level(header, lowest), tokens)
}

// Reads an operand with the operators before it. Returns it and the tokens after it.
#[tactic(auto, using(crate::proofs::Moves::shorter_steps))]
pub(crate) fn prefixed_at(
    alloc: Global,
    header: bool,
    tokens: &[Token],
) -> Result<Option<(OwnedExpr, &[Token])>, Memory>
    ensures value { IfOk result (λ o. seen o ≡ expr_at (Prefixed header) tokens.now) }
    ensures shorter { IfOk result (λ o. IfSome o (λ x. length x.1.now < length tokens.now)) }
{
    read(alloc, Goal::Prefixed(header), tokens)
}

/// Reads the expression at the front. Returns it and the tokens after it, or `None` if there is none.
pub fn expression_at(
    alloc: Global,
    place: Context,
    tokens: &[Token],
) -> Result<Option<(OwnedExpr, &[Token])>, Memory>
    ensures value { IfOk result (λ o. seen o ≡ expr_at (Level (places_spec.in_header place) 1) tokens.now) }
    ensures shorter { IfOk result (λ o. IfSome o (λ x. length x.1.now < length tokens.now)) }
{
    level_at(alloc, in_header(place), 1, tokens)
}

/// Reads the operand at the front with the operators before it, outside headers. Returns it and the tokens after it, or
/// `None` if there is none.
pub fn operand_at(alloc: Global, tokens: &[Token]) -> Result<Option<(OwnedExpr, &[Token])>, Memory>
    ensures value { IfOk result (λ o. seen o ≡ expr_at (Prefixed false) tokens.now) }
    ensures shorter { IfOk result (λ o. IfSome o (λ x. length x.1.now < length tokens.now)) }
{
    prefixed_at(alloc, false, tokens)
}
