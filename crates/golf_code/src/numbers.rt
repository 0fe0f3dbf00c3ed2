//! The line and the number of `main`, and numbers of functions.

ghost use Rattle.std.specs.Prelude.{◌≡◌, ◌+◌, false, length, is_some, IfOk};
ghost use Rattle.golf_check_types.specs.Scopes.{meaning_in};
ghost use Rattle.golf_code_of.specs.Files.{number_of_function as number_of_function_of, main_number as main_number_of};
ghost use Rattle.golf_code_of.specs.Files.{main_line as main_line_of, giving as giving_of};

use golf_base::{List, Memory};
use golf_check_names::{declares_main, line_of};
use golf_check_types::{Entity, FileScope};
use golf_syntax_trees::Decl;
use std::alloc::Global;

// Returns the meaning of a name of the file, or `None`.
fn meaning_of(file: &FileScope, name: &[u8]) -> Option<Entity>
    ensures { result ≡ meaning_in file.now name.now }
{
    match file.names.number_of(name) {
        None => None,
        Some(number) => file.entities.as_slice().get(number).copied(),
    }
}

fn number_of_function(meaning: Option<Entity>) -> Result<u32, Memory>
    ensures { IfOk result (λ n. n ≡ number_of_function_of meaning) }
{
    match meaning {
        Some(Entity::Function(number)) => Ok(number.checked_add(1).ok_or(Memory)?),
        Some(Entity::Constant(_, _)) => Ok(0),
        Some(Entity::Global(_)) => Ok(0),
        Some(Entity::Struct(_)) => Ok(0),
        None => Ok(0),
    }
}

/// Returns the number of `main`, or 0 if there is none.
pub fn main_number(file: &FileScope) -> Result<u32, Memory>
    ensures { IfOk result (λ n. n ≡ main_number_of file.now) }
{
    number_of_function(meaning_of(file, b"main".as_slice()))
}

/// Returns the line of `main`, or 0 if it is not declared.
pub fn main_line(decls: &[Decl]) -> u32
    ensures { result ≡ main_line_of decls.now }
{
    for decl in decls {
        if declares_main(decl) {
            return line_of(decl);
        }
    }
    0
}

/// Returns for function 0 and each function of the file whether it gives a value.
pub fn giving(alloc: Global, file: &FileScope) -> Result<List<bool>, Memory>
    ensures { IfOk result (λ gives. gives ≡ giving_of file.now) }
{
    let functions = file.functions.as_slice();
    let mut gives = List::new(alloc);
    gives.push(false)?;
    for function in functions {
        gives.push(function.result.is_some())?;
    }
    Ok(gives)
}

/// Returns the number of the first function that is made.
pub fn first_made(file: &FileScope) -> Result<u32, Memory>
    ensures { IfOk result (λ n. n ≡ length file.now.functions + 1) }
{
    match u32::try_from(file.functions.len()) {
        Ok(count) => Ok(count.checked_add(1).ok_or(Memory)?),
        Err(_) => Err(Memory),
    }
}
