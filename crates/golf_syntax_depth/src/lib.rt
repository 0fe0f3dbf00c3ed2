//! How deep trees are. The cost of a file's tokens bounds the depth of recursion over its tree.
//!
//! Code follows left operands and the `else` of an `if` by loops, and all other parts of a tree by recursion. So the
//! depth counts all parts except for these two. The statements are in `specs/`, the proofs in `proofs/`.
#![tactic(auto)]

ghost use Rattle.golf_syntax_depth.specs.Laws.{DepthIsWithinCost, FilesAreShallow};

/// States that the depth of a file is at most the largest cost of its tokens.
pub fn depth_is_within_cost()
    ensures { DepthIsWithinCost }
{}

/// States that the depth of a file that is read is at most the highest cost that a token may have.
pub fn files_are_shallow()
    ensures { FilesAreShallow }
{}
