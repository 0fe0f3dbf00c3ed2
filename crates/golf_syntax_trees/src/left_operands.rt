//! The path down the left operands of an expression, its spine.
//!
//! The cost of tokens bounds how deep all other parts of an expression are. Nothing bounds the number of left operands
//! in one another, as in `1 + 1 + ..`. So the code that reads expressions follows them by a loop over `spine`. It
//! recurs only for the other parts.

ghost use Rattle.std.specs.Prelude.{◌≡◌, ◌<◌, ◌≤◌, None, IfOk, IfSome};
ghost use Rattle.std.specs.Option.{option_map};
ghost use Rattle.golf_syntax_trees.specs.declared.expressions.Expr.{size-Expr};
ghost use Rattle.golf_syntax_trees.specs.Spines.{left_of, shown, AreNoLarger, IsSpine};

use crate::expressions::Expr;
use golf_base::{List, Memory};
use std::alloc::Global;

/// Returns the left operand of a selector, an index, a call or a binary operator, or `None` for any other expression.
#[tactic(auto, unfolding(crate::specs::Spines::left_of))]
pub fn left_operand(e: &Expr) -> Option<&Expr>
    ensures is { option_map (λ x. x.now) result ≡ left_of e.now }
    ensures smaller { IfSome result (λ x. size-Expr x.now < size-Expr e.now) }
{
    match e {
        Expr::Integer(_) => None,
        Expr::Text(_) => None,
        Expr::Name(_) => None,
        Expr::Parens(_) => None,
        Expr::StructLiteral(_, _) => None,
        Expr::SyncLiteral(_) => None,
        Expr::SliceLiteral(_, _) => None,
        Expr::EmptyLiteral => None,
        Expr::Make(_) => None,
        Expr::MakeSized(_, _) => None,
        Expr::New(_) => None,
        Expr::NewSync(_) => None,
        Expr::Selector(left, _) => Some(left.get()),
        Expr::Index(left, _) => Some(left.get()),
        Expr::Call(left, _) => Some(left.get()),
        Expr::Unary(_, _) => None,
        Expr::Binary(_, left, _) => Some(left.get()),
    }
}

/// Returns the expressions on the path down the left operands, the outermost first, and the innermost left operand.
///
/// Each of them has the next one as its left operand. The innermost one has no left operand, and is not in the list.
pub fn spine<'a>(alloc: Global, e: &'a Expr) -> Result<(List<&'a Expr>, &'a Expr), Memory>
    ensures down { IfOk result (λ x. IsSpine left_of e.now (shown x.0) x.1.now) }
    ensures within { IfOk result (λ x. AreNoLarger size-Expr (size-Expr e.now) (shown x.0)) }
    ensures smaller { IfOk result (λ x. size-Expr x.1.now ≤ size-Expr e.now) }
    ensures innermost { IfOk result (λ x. left_of x.1.now ≡ None) }
{
    let mut waiting = List::new(alloc);
    let mut inner = e;
    while let Some(left) = left_operand(inner) {
        waiting.push(inner)?;
        inner = left;
    }
    Ok((waiting, inner))
}
