//! Operators: how tightly they bind, and how they are read (Go specification, "Operators").
//!
//! A binary operator binds with 1 to 5. `-`, `!` and `<-` are the unary operators.

ghost use Rattle.std.specs.Prelude.{◌≡◌, ◌<◌, ◌≤◌, length, IfSome};
ghost use Rattle.golf_syntax_trees.specs.Expressions as expressions_spec;
ghost use Rattle.golf_syntax_expressions.specs.Front.{seen};
ghost use Rattle.golf_syntax_expressions.specs.Operators as operators_spec;
ghost use Rattle.golf_syntax_expressions.specs.Operators.{unary_of, binary_of};

use golf_lex_tokens::{Punctuation, Token, TokenKind};
use golf_syntax_trees::{BinaryOperator, UnaryOperator};

/// Returns how tightly an operator binds, from 1 to 5.
pub fn binds(operator: BinaryOperator) -> u8
    ensures value { result ≡ expressions_spec.binds operator }
    ensures small { result ≤ 5 }
{
    match operator {
        BinaryOperator::Or => 1,
        BinaryOperator::And => 2,
        BinaryOperator::Equal
        | BinaryOperator::NotEqual
        | BinaryOperator::Less
        | BinaryOperator::AtMost
        | BinaryOperator::Greater
        | BinaryOperator::AtLeast => 3,
        BinaryOperator::Add | BinaryOperator::Subtract => 4,
        BinaryOperator::Multiply | BinaryOperator::Divide | BinaryOperator::Remainder => 5,
    }
}

fn unary(punctuation: Punctuation) -> Option<UnaryOperator>
    ensures { result ≡ unary_of punctuation }
{
    match punctuation {
        Punctuation::Minus => Some(UnaryOperator::Negate),
        Punctuation::Not => Some(UnaryOperator::Not),
        Punctuation::Arrow => Some(UnaryOperator::Receive),
        _ => None,
    }
}

fn binary(punctuation: Punctuation) -> Option<BinaryOperator>
    ensures { result ≡ binary_of punctuation }
{
    match punctuation {
        Punctuation::Or => Some(BinaryOperator::Or),
        Punctuation::And => Some(BinaryOperator::And),
        Punctuation::Equal => Some(BinaryOperator::Equal),
        Punctuation::NotEqual => Some(BinaryOperator::NotEqual),
        Punctuation::Less => Some(BinaryOperator::Less),
        Punctuation::AtMost => Some(BinaryOperator::AtMost),
        Punctuation::Greater => Some(BinaryOperator::Greater),
        Punctuation::AtLeast => Some(BinaryOperator::AtLeast),
        Punctuation::Plus => Some(BinaryOperator::Add),
        Punctuation::Minus => Some(BinaryOperator::Subtract),
        Punctuation::Star => Some(BinaryOperator::Multiply),
        Punctuation::Slash => Some(BinaryOperator::Divide),
        Punctuation::Percent => Some(BinaryOperator::Remainder),
        _ => None,
    }
}

/// Reads a unary operator at the front. Returns it and the tokens after it.
#[tactic(auto, unfolding(crate::specs::Operators::unary_at))]
pub fn unary_at(tokens: &[Token]) -> Option<(UnaryOperator, &[Token])>
    ensures value { seen result ≡ operators_spec.unary_at tokens.now }
    ensures shorter { IfSome result (λ x. length x.1.now < length tokens.now) }
{
    match tokens.split_first() {
        None => None,
        Some((first, rest)) => match &first.kind {
            TokenKind::Punctuation(punctuation) => match unary(*punctuation) {
                Some(operator) => Some((operator, rest)),
                None => None,
            },
            _ => None,
        },
    }
}

/// Reads a binary operator at the front. Returns it and the tokens after it.
#[tactic(auto, unfolding(crate::specs::Operators::binary_at))]
pub fn binary_at(tokens: &[Token]) -> Option<(BinaryOperator, &[Token])>
    ensures value { seen result ≡ operators_spec.binary_at tokens.now }
    ensures shorter { IfSome result (λ x. length x.1.now < length tokens.now) }
{
    match tokens.split_first() {
        None => None,
        Some((first, rest)) => match &first.kind {
            TokenKind::Punctuation(punctuation) => match binary(*punctuation) {
                Some(operator) => Some((operator, rest)),
                None => None,
            },
            _ => None,
        },
    }
}
