//! The code of a typed file.
//!
//! The checker has already computed the scope and the facts of the file. `generate` uses them, and computes
//! neither again.

ghost use Rattle.std.specs.Prelude.{◌≡◌, IfOk};
ghost use Rattle.golf_code_of.specs.Files.{CodeOf};

use crate::file_code::code;
use golf_base::Memory;
use golf_check::Checked;
use golf_data::Code;
use std::alloc::Global;

/// Returns the code of a typed file, which is `CodeOf` its tree. The only error is `Memory`.
pub fn generate(alloc: Global, checked: &Checked) -> Result<Code, Memory>
    ensures { IfOk result (λ code. code ≡ CodeOf checked.now) }
{
    let decls = checked.file().declarations.as_slice();
    code(alloc, &checked.scope().file, decls, checked.facts())
}
