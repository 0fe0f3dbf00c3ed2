//! The check of a whole file.
//!
//! The walks follow one another as in the definition of `Broken`: imports, names, written types, `main`, and then
//! constants, initialisers and bodies. The first broken rule ends the check.

ghost use Rattle.std.specs.Prelude.{◌≡◌, ◌++◌, IfOk};
ghost use Rattle.golf_check_types.specs.Faults.{AnswersOrFault};
ghost use Rattle.golf_check_types.specs.Facts.{types_told};
ghost use Rattle.golf_check_types.specs.Files.{outside, decl_walked, walk_faults, walk_facts, decl_faults, file_scope};
ghost use Rattle.golf_check_types.specs.Files.{Broken, facts_in};
ghost use Rattle.golf_check.specs.Heads.{Stays, scope_of, typed_file, named_faults};

use crate::functions::function;
use crate::initialisers::{constant, global};
use crate::scopes::{add_types, bare_scope};
use golf_base::{List, Memory};
use golf_check_bodies::Checker;
use golf_check_names::{imported, main_is_there, names_are_good, next_global, types_are_there};
use golf_check_types::{Fact, GoType, Imports, Scope, TypeFault, type_of};
use golf_syntax_trees::{Decl, File};
use std::alloc::Global;
use std::marker::Model;

/// A file that keeps the rules, and the facts of its constants, initialisers and functions in source order.
///
/// There is one fact for each expression of the tree, in the order in which their prints begin. An outer expression
/// comes before an inner one that begins at the same token. Facts of other kinds are between them.
///
/// Contracts see it as its file. The scope outside all functions and the facts are those of the file.
pub struct Checked {
    file: File,
    scope: Scope,
    facts: List<Fact>,
}

impl Model for Checked {
    ghost use Rattle.std.specs.Prelude.{◌≡◌};
    ghost use Rattle.golf_check_types.specs.Files.{facts_in};
    ghost use Rattle.golf_check.specs.Heads.{scope_of};
    ghost use Rattle.golf_syntax_trees.specs.declared.declarations.File.{File};
    ghost use Rattle.golf_syntax_trees.specs.contracts.declarations.File as file_of_tree;
    ghost use Rattle.std.specs.Coded.{codes};

    ghost Value = { File };

    ghost coded = { Prim.hlevel (codes, file_of_tree.the_row.coded) };

    ghost view = { λ c. c.file };

    ghost invariant = { λ c. (c.scope ≡ scope_of c.file) × (c.facts ≡ facts_in c.file) };
}

// Written out once here, so that no other crate has to prove the drop of each field.
impl Drop for Checked {
    fn drop(self) {
        let Checked {
            file: _,
            scope: _,
            facts: _,
        } = self;
    }
}

impl Checked {
    /// Returns the file.
    pub fn file(&self) -> &File
        ensures { result.now ≡ self.now }
    {
        &self.file
    }

    /// Returns the scope outside all functions.
    pub fn scope(&self) -> &Scope
        ensures { result.now ≡ scope_of self.now }
    {
        &self.scope
    }

    /// Returns the facts of constants, initialisers and functions in source order.
    pub fn facts(&self) -> &[Fact]
        ensures { result.now ≡ facts_in self.now }
    {
        self.facts.as_slice()
    }

    /// Returns the types of the expressions, in the order of their facts. The type is `None` for a callee, a package, a
    /// function's name, `_`, `nil` and a call without a result.
    pub fn types(&self, alloc: Global) -> Result<List<Option<GoType>>, Memory>
        ensures { IfOk result (λ ts. ts ≡ types_told (facts_in self.now)) }
    {
        let mut types = List::new(alloc);
        for fact in self.facts() {
            match fact {
                Fact::Expression { operand, parts: _ } => types.push(type_of(alloc, operand)?)?,
                Fact::Number(_) => {}
                Fact::Field(_) => {}
                Fact::Target(_) => {}
                Fact::Hidden(_) => {}
                Fact::Part(_) => {}
                Fact::Function {
                    arguments: _,
                    slots: _,
                    parts: _,
                } => {}
            }
        }
        Ok(types)
    }
}

// Checks a declaration. `global_number` is the number of globals above it.
#[tactic(auto, using(crate::proofs::Laws::var_stays, crate::proofs::Laws::func_stays))]
fn declaration(checker: &mut Checker, global_number: u32, decl: &Decl) -> Result<(), TypeFault>
    requires { checker.old.scope ≡ outside checker.old.scope.file }
    ensures { Stays result (decl_walked checker.old.scope.file global_number decl.now) checker.old checker.new }
{
    match decl {
        Decl::Const(line, _, value) => constant(checker, *line, value),
        Decl::Var(var) => global(checker, global_number, var.get()),
        Decl::Struct(_, _, _) => Ok(()),
        Decl::Func(func) => function(checker, func),
    }
}

// Checks constants, initialisers and bodies, in source order.
fn declarations(checker: &mut Checker, decls: &[Decl]) -> Result<(), TypeFault>
    requires { checker.old.scope ≡ outside checker.old.scope.file }
    ensures { AnswersOrFault result (walk_faults checker.old.scope.file 0 decls.now) (λ _. (checker.new.scope ≡ checker.old.scope) × (checker.new.facts ≡ checker.old.facts ++ walk_facts checker.old.scope.file 0 decls.now)) }
{
    let mut globals_above = 0u32;
    for decl in decls {
        declaration(checker, globals_above, decl)?;
        globals_above = next_global(globals_above, decl)?;
    }
    Ok(())
}

// Does the same if the names of the file have no types yet.
#[tactic(auto, using(crate::proofs::Laws::walked_tells))]
fn untyped_declarations(checker: &mut Checker, decls: &[Decl]) -> Result<(), TypeFault>
    requires { checker.old.scope ≡ outside checker.old.scope.file }
    ensures { AnswersOrFault result (walk_faults (typed_file checker.old.scope.file decls.now) 0 decls.now) (λ _. (checker.new.scope ≡ outside (typed_file checker.old.scope.file decls.now)) × (checker.new.facts ≡ checker.old.facts ++ walk_facts (typed_file checker.old.scope.file decls.now) 0 decls.now)) }
{
    add_types(checker.alloc, &mut checker.scope, decls)?;
    declarations(checker, decls)
}

// Checks names, written types and `main`, and then the rest.
fn named_declarations(checker: &mut Checker, decls: &[Decl]) -> Result<(), TypeFault>
    requires { checker.old.scope ≡ outside checker.old.scope.file }
    ensures { AnswersOrFault result (named_faults checker.old.scope decls.now) (λ _. (checker.new.scope ≡ outside (typed_file checker.old.scope.file decls.now)) × (checker.new.facts ≡ checker.old.facts ++ walk_facts (typed_file checker.old.scope.file decls.now) 0 decls.now)) }
{
    names_are_good(checker.alloc, &checker.scope.file, decls)?;
    types_are_there(checker.alloc, &checker.scope, decls)?;
    main_is_there(decls)?;
    untyped_declarations(checker, decls)
}

// Returns the checker after the declarations of a file with these imports.
fn checked_declarations(
    alloc: Global,
    imports: Imports,
    decls: &[Decl],
) -> Result<Checker, TypeFault>
    ensures { AnswersOrFault result (decl_faults imports decls.now) (λ c. (c.scope ≡ outside (file_scope imports decls.now)) × (c.facts ≡ walk_facts (file_scope imports decls.now) 0 decls.now)) }
{
    let scope = bare_scope(alloc, imports, decls)?;
    let facts = List::new(alloc);
    let mut checker = Checker {
        alloc,
        line: 1,
        scope,
        facts,
    };
    match named_declarations(&mut checker, decls) {
        Ok(()) => Ok(checker),
        Err(fault) => Err(fault),
    }
}

// Returns the checker after a file.
#[tactic(auto, unfolding(golf_check_types::specs::Files::Broken, golf_check_types::specs::Files::facts_in))]
fn checked_file(alloc: Global, file: &File) -> Result<Checker, TypeFault>
    ensures { AnswersOrFault result (Broken file.now) (λ c. (c.scope ≡ scope_of file.now) × (c.facts ≡ facts_in file.now)) }
{
    let written = file.imports.as_slice();
    let imports = imported(written)?;
    let decls = file.declarations.as_slice();
    checked_declarations(alloc, imports, decls)
}

/// Returns the file with its scope and its facts, or the first broken rule in the order of the walk.
pub fn check(alloc: Global, file: File) -> Result<Checked, TypeFault>
    ensures { AnswersOrFault result (Broken file) (λ checked. checked ≡ file) }
{
    match checked_file(alloc, &file) {
        Ok(checker) => {
            let (scope, facts) = checker.into_found();
            Ok(Checked { file, scope, facts })
        }
        Err(fault) => Err(fault),
    }
}
