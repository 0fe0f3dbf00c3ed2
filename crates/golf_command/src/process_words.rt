//! The words of the process.

use golf_run_texts::Status;
use std::env::{self, Env};
use std::io::ErrorKind;

/// Returns the words after the program's name, or the status if there are none. Then memory has run out, or
/// a word is not UTF-8, and so no word that a program knows.
pub fn arguments<R: AllocGlobal + Env>(rt: &R) -> Result<Vec<String>, Status> {
    let args = match env::args(rt) {
        Ok(args) => args,
        Err(fault) if fault.kind() == ErrorKind::OutOfMemory => return Err(Status::Memory),
        Err(_) => return Err(Status::Usage),
    };
    match args.skip(1).collect::<Vec<String>>(rt.alloc()) {
        Ok(words) => Ok(words),
        Err(_) => Err(Status::Memory),
    }
}
