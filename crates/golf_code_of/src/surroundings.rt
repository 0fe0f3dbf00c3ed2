//! What the code of a statement needs to know about its surroundings, and the functions that it needs.

use golf_base::List;
use golf_check_types::{BuiltIn, GoType};

/// A function that is made for `go` or `defer` of a built-in call. It has the operation, the types of its parameters
/// with the receiver first, and the line of the statement.
#[derive(Drop)]
pub struct Making {
    pub operation: BuiltIn,
    pub parameters: List<Option<GoType>>,
    pub line: u32,
}

/// The surroundings of a statement: the targets of `break` and `continue`, counted from the innermost one, and the
/// number of functions before the next one that is made.
#[derive(Clone, Copy, Debug, PartialEq, Eq)]
pub struct Around {
    pub breaks: u32,
    pub continues: u32,
    pub functions: u32,
}
