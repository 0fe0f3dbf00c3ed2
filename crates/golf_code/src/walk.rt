//! One walk over the declarations of a file and their facts. It writes function 0, the functions and methods, and
//! records the functions to be made for them.

ghost use Rattle.std.specs.Prelude.{◌≡◌, [], IfOk, OnOk};
ghost use Rattle.golf_code_of.specs.Files.{giving};
ghost use Rattle.golf_code.specs.Steps.{ended, with_own, WalksDeclaration, Starts};

use crate::constants::skip_const;
use crate::functions::own_function;
use crate::initials::initial;
use crate::numbers::first_made;
use golf_base::{List, Memory};
use golf_check_types::{FileScope, Signature};
use golf_code_expressions::{Draft, Facts, Writer};
use golf_code_layout::Emitted;
use golf_code_of::Tables;
use golf_data::Function;
use golf_syntax_trees::Decl;
use std::alloc::Global;
use std::mem::swap;

/// The state of a walk.
#[derive(Drop)]
pub struct Walk<'a> {
    /// The facts that are left, and the functions to be made for the functions so far.
    pub writer: Writer<'a>,
    /// The initialisers of the globals so far.
    pub initials: List<Emitted>,
    /// Whether each function gives a value.
    pub gives: &'a [bool],
    /// The signatures of the functions that follow.
    pub signatures: &'a [Signature],
    /// How many globals are above the next declaration.
    pub globals: u32,
}

/// Begins a walk over the declarations of a file with these facts.
pub fn start<'a>(
    alloc: Global,
    tables: &'a Tables,
    gives: &'a [bool],
    file: &'a FileScope,
    facts: Facts<'a>,
) -> Result<Walk<'a>, Memory>
    requires { gives.now ≡ giving file.now }
    ensures { IfOk result (Starts tables.now file.now facts.entry) }
{
    Ok(Walk {
        writer: Writer {
            facts,
            draft: Draft {
                tables,
                emitted: List::new(alloc),
                made: List::new(alloc),
                functions: first_made(file)?,
                alloc,
            },
        },
        initials: List::new(alloc),
        gives,
        signatures: file.functions.as_slice(),
        globals: 0,
    })
}

/// Walks over a declaration. Returns its function, if it is one.
pub fn walk_decl(walk: &mut Walk, decl: &Decl) -> Result<Option<Function>, Memory>
    ensures { IfOk result (λ own. WalksDeclaration own walk.old decl.now walk.new) }
{
    match decl {
        Decl::Const(_, _, constant) => {
            skip_const(&mut walk.writer.facts, constant);
            Ok(None)
        }
        Decl::Var(var) => {
            let var = var.get();
            swap(&mut walk.writer.draft.emitted, &mut walk.initials);
            initial(&mut walk.writer, var.line, walk.globals, var.content.get())?;
            swap(&mut walk.writer.draft.emitted, &mut walk.initials);
            walk.globals = walk.globals.checked_add(1).ok_or(Memory)?;
            Ok(None)
        }
        Decl::Struct(_, _, _) => Ok(None),
        Decl::Func(func) => Ok(Some(own_function(walk, func)?)),
    }
}

/// Walks over declarations, and adds their functions and methods to a list.
pub fn walk_decls(
    walk: &mut Walk,
    decls: &[Decl],
    functions: &mut List<Function>,
) -> Result<(), Memory>
    ensures { OnOk result (with_own functions.new (ended walk.new []) ≡ with_own functions.old (ended walk.old decls.now)) }
{
    for decl in decls {
        if let Some(own) = walk_decl(walk, decl)? {
            functions.push(own)?;
        }
    }
    Ok(())
}
