//! Structured code without addresses: its pieces, where they are placed, and the flat list of
//! parts.
//!
//! - A piece is the code of a construct. A jump in it names the block that it leaves or begins
//! anew.
//! - The code of a whole body is its piece, placed.
//! - The generator writes the parts of a piece from left to right at the end of a list.
//!
//! The definitions are in `specs/`.
#![tactic(auto)]

mod emitted;
mod parts;

ghost use Rattle.golf_code_layout.specs.Laws.{PlacedSize};

pub use emitted::Emitted;
pub use parts::{again, block, end, exit, op, unless};

/// States that a piece has its size wherever it is placed.
pub fn placed_pieces_have_their_size()
    ensures { PlacedSize }
{}
