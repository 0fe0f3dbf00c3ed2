//! The imports of a file (Go specification, "Import declarations").
//!
//! There are three packages. Each can be imported at most once, by any declaration.

ghost use Rattle.std.specs.Prelude.{◌≡◌};
ghost use Rattle.golf_check_types.specs.Faults.{AnswersOrFault, broken as broken_of};
ghost use Rattle.golf_check_types.specs.Files.{package_of as package_of_of, is_new_import as is_new_import_of};
ghost use Rattle.golf_check_types.specs.Files.{with_import as with_import_of, path_faults, with_paths, import_line};
ghost use Rattle.golf_check_types.specs.Files.{import_paths as import_paths_of, import_faults, with_imports};
ghost use Rattle.golf_check_types.specs.Files.{no_imports};

use golf_check_types::rules::WRONG_IMPORT;
use golf_check_types::{Imports, Package, TypeFault, require};
use golf_syntax_trees::{Import, Name};

// Returns the package of this path, or `None` if the language does not have it.
#[tactic(auto, unfolding(golf_check_types::specs::Files::package_of))]
fn package_of(path: &[u8]) -> Option<Package>
    ensures { result ≡ package_of_of path.now }
{
    if path == b"fmt".as_slice() {
        return Some(Package::Fmt);
    }
    if path == b"runtime".as_slice() {
        return Some(Package::Runtime);
    }
    if path == b"sync".as_slice() {
        return Some(Package::Sync);
    }
    None
}

// Returns whether a package is known and not imported yet.
fn is_new_import(imports: Imports, from: Option<Package>) -> bool
    ensures { result ≡ is_new_import_of imports from }
{
    match from {
        None => false,
        Some(from) => match from {
            Package::Fmt => !imports.fmt,
            Package::Runtime => !imports.runtime,
            Package::Sync => !imports.sync,
        },
    }
}

// Returns the imports with one more package.
fn with_import(imports: Imports, from: Option<Package>) -> Imports
    ensures { result ≡ with_import_of imports from }
{
    match from {
        None => imports,
        Some(from) => match from {
            Package::Fmt => Imports {
                fmt: true,
                runtime: imports.runtime,
                sync: imports.sync,
            },
            Package::Runtime => Imports {
                fmt: imports.fmt,
                runtime: true,
                sync: imports.sync,
            },
            Package::Sync => Imports {
                fmt: imports.fmt,
                runtime: imports.runtime,
                sync: true,
            },
        },
    }
}

// Returns the imports after one path. Its package must be known and not imported yet.
fn import_path(line: u32, imports: Imports, path: &[u8]) -> Result<Imports, TypeFault>
    ensures { AnswersOrFault result (broken_of line WRONG_IMPORT (is_new_import_of imports (package_of_of path.now))) (λ i. i ≡ with_import_of imports (package_of_of path.now)) }
{
    let from = package_of(path);
    require(line, WRONG_IMPORT, is_new_import(imports, from))?;
    Ok(with_import(imports, from))
}

// Returns the imports after these paths.
fn import_paths(line: u32, imports: Imports, paths: &[Name]) -> Result<Imports, TypeFault>
    ensures { AnswersOrFault result (path_faults line imports paths.now) (λ i. i ≡ with_paths imports paths.now) }
{
    let mut imports = imports;
    for path in paths {
        imports = import_path(line, imports, path.as_slice())?;
    }
    Ok(imports)
}

// Returns the imports after one declaration.
fn import_one(imports: Imports, import: &Import) -> Result<Imports, TypeFault>
    ensures { AnswersOrFault result (path_faults (import_line import.now) imports (import_paths_of import.now)) (λ i. i ≡ with_paths imports (import_paths_of import.now)) }
{
    match import {
        Import::One(line, path) => import_path(*line, imports, path.as_slice()),
        Import::Group(line, paths) => import_paths(*line, imports, paths.as_slice()),
    }
}

/// Returns the packages that are imported. It checks `WRONG_IMPORT`.
pub fn imported(imports: &[Import]) -> Result<Imports, TypeFault>
    ensures { AnswersOrFault result (import_faults no_imports imports.now) (λ i. i ≡ with_imports no_imports imports.now) }
{
    let mut found = Imports {
        fmt: false,
        runtime: false,
        sync: false,
    };
    for import in imports {
        found = import_one(found, import)?;
    }
    Ok(found)
}
