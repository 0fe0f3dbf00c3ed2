//! The parts of structured code, as the generator writes them one after another.
//!
//! A block begins and ends by a part of its own. No part has an address.

use golf_base::List;
use golf_data::{Instr, SelectCase};

/// A part of structured code. A jump names its target by a number: the innermost target around the
/// jump has number 0.
#[derive(Drop)]
pub enum Emitted {
    /// An instruction without a target, and its line.
    Op(Instr, u32),
    /// Goes on at a target. The fields are the line and the number of the target.
    Exit(u32, u32),
    /// The same, if the operand is false.
    Unless(u32, u32),
    /// A `select` on this line. Each case, and `default`, goes on at the target of its number.
    Choose(u32, List<SelectCase>, Option<u32>),
    /// A block begins whose target is its end.
    Block,
    /// A block begins whose target is its beginning.
    Again,
    /// A block ends.
    End,
}
