//! The result of the checker for a text, and its code.

use golf_base::Memory;
use golf_check::{Checked, check};
use golf_code::generate;
use golf_data::Code;
use std::alloc::Global;
use std::process::Abort;

/// Returns the result of the checker for a file that breaks no rule.
pub(crate) fn checked(rt: &impl Abort, alloc: Global, source: &str) -> Checked {
    assert!(rt; source.len() < 100_000);
    match golf_lex::tokens(alloc, source.as_bytes()) {
        Err(_) => panic!(rt; "it does not lex"),
        Ok(tokens) => match golf_syntax::parse(alloc, tokens.as_slice()) {
            Err(_) => panic!(rt; "it is no file"),
            Ok(file) => match check(alloc, file) {
                Err(_) => panic!(rt; "it is not typed"),
                Ok(checked) => checked,
            },
        },
    }
}

/// Returns the code of a checked file.
pub(crate) fn code_of(rt: &impl Abort, alloc: Global, checked: &Checked) -> Code {
    match generate(alloc, checked) {
        Ok(code) => code,
        Err(Memory) => panic!(rt; "out of memory"),
    }
}
