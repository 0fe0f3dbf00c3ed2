//! The cost of tokens: how many tokens and brackets a reader must keep open at them.
//!
//! The invariant of `Counts`: `total` is the sum of all counts. A file with a token that costs more than 1,000 is
//! refused, so recursion over a tree is bounded.

ghost use Rattle.std.specs.Prelude.{◌≡◌, ◌+◌, ◌≤◌, ◌∷◌, IfOk, reverse, sum};
ghost use Rattle.golf_lex_tokens.specs.Cost.{counted};
ghost use Rattle.golf_syntax_trees.specs.Reads as reads_spec;
ghost use Rattle.golf_syntax_trees.specs.Reads.{no_counts};
ghost use Rattle.golf_syntax_segments.specs.Counts.{role_of};

use golf_base::{List, Memory};
use golf_lex_tokens::{Punctuation, Token, TokenKind};
use std::alloc::Global;

/// The most that a token may cost.
pub const MOST_COST: u32 = 1_000;

/// The role of a token for the brackets around it.
#[derive(Clone, Copy)]
pub enum Role {
    Opens,
    Closes,
    Separates,
    Ordinary,
}

// The number of tokens since the last `;` or `,` in the innermost open bracket, in each bracket around it, and in all.
#[derive(Drop)]
struct Counts {
    inner: u32,
    outer: List<u32>,
    total: u32,
}

fn punctuation_role(punctuation: Punctuation) -> Role
    ensures { result ≡ role_of (TokenKind.Punctuation punctuation) }
{
    match punctuation {
        Punctuation::OpenParen | Punctuation::OpenBracket | Punctuation::OpenBrace => Role::Opens,
        Punctuation::CloseParen | Punctuation::CloseBracket | Punctuation::CloseBrace =>
            Role::Closes,
        Punctuation::Semicolon | Punctuation::Comma => Role::Separates,
        _ => Role::Ordinary,
    }
}

fn kind_role(kind: &TokenKind) -> Role
    ensures { result ≡ role_of kind.now }
{
    match kind {
        TokenKind::Punctuation(punctuation) => punctuation_role(*punctuation),
        _ => Role::Ordinary,
    }
}

// Returns the counts after one more token.
#[tactic(auto, using(crate::proofs::CountSteps::count_steps))]
fn count(counts: Counts, kind: &TokenKind) -> Result<Counts, Memory>
    requires small { counts.total ≤ MOST_COST }
    requires adds_up { counts.total ≡ counts.inner + sum counts.outer }
    ensures adds_up { IfOk result (λ c. c.total ≡ c.inner + sum c.outer) }
    ensures value { IfOk result (λ c. c.inner ∷ reverse c.outer ≡ counted kind.now (counts.inner ∷ reverse counts.outer)) }
{
    let Counts {
        inner,
        mut outer,
        total,
    } = counts;
    match kind_role(kind) {
        Role::Opens => {
            outer.push(inner + 1)?;
            Ok(Counts {
                inner: 0,
                outer,
                total: total + 1,
            })
        }
        Role::Closes => match outer.pop() {
            Some(count) => Ok(Counts {
                inner: count + 1,
                outer,
                total: total - inner + 1,
            }),
            None => Ok(Counts {
                inner: inner + 1,
                outer,
                total: total + 1,
            }),
        },
        Role::Separates => Ok(Counts {
            inner: 0,
            outer,
            total: total - inner,
        }),
        Role::Ordinary => Ok(Counts {
            inner: inner + 1,
            outer,
            total: total + 1,
        }),
    }
}

/// Returns the line of the first token that costs more than `MOST_COST`, or `None` if there is none.
pub fn first_too_complex(alloc: Global, tokens: &[Token]) -> Result<Option<u32>, Memory>
    ensures { IfOk result (λ o. o ≡ reads_spec.first_too_complex no_counts tokens.now) }
{
    let mut counts = Counts {
        inner: 0,
        outer: List::new(alloc),
        total: 0,
    };
    for token in tokens {
        counts = count(counts, &token.kind)?;
        if counts.total > MOST_COST {
            return Ok(Some(token.line));
        }
    }
    Ok(None)
}
