//! Whether a code can set a finaliser.
//!
//! If it cannot, the keep rule keeps fewer goroutines.

ghost use Rattle.std.specs.Prelude.{◌≡◌};
ghost use Rattle.golf_theory.specs.Membership.{any_of};
ghost use Rattle.golf_model.specs.Collections.{is_setting as is_setting_of, sets_finalisers as sets_finalisers_of};

use golf_data::{Code, CodeLine, Function, Instr};

fn is_setting(line: &CodeLine) -> bool
    ensures { result ≡ is_setting_of line.now.instr }
{
    matches!(line.instr, Instr::SetFinalizer(_))
}

fn sets_one(function: &Function) -> bool
    ensures { result ≡ any_of (λ l. is_setting_of l.instr) function.now.body }
{
    for line in function.body.as_slice() {
        if is_setting(line) {
            return true;
        }
    }
    false
}

/// Returns whether an instruction of the code sets a finaliser. If not, no object ever gets one.
pub fn sets_finalisers(code: &Code) -> bool
    ensures { result ≡ sets_finalisers_of code.now }
{
    for function in code.functions.as_slice() {
        if sets_one(function) {
            return true;
        }
    }
    false
}
