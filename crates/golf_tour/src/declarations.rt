//! The imports and functions of a tree: a line for each, with the body of a function below it.

use crate::expressions::tell_type;
use crate::page::Page;
use crate::statements::tell_stmts;
use golf_syntax_trees::{Decl, Field, File, Func, Import};

fn tell_import(page: &mut Page, import: &Import) {
    match import {
        Import::One(line, path) => {
            page.begin(0, *line, "");
            page.named("One", path.as_slice());
        }
        Import::Group(_, _) => page.say("Other"),
    }
    page.say("\n");
}

fn tell_field(page: &mut Page, field: &Field) {
    page.say(" ");
    page.bytes(field.first.as_slice());
    page.say(": ");
    tell_type(page, field.of_type.get());
}

fn tell_func(page: &mut Page, func: &Func) {
    page.begin(0, func.line, "");
    page.named("Func", func.name.as_slice());
    for field in func.parameters.as_slice() {
        tell_field(page, field);
    }
    page.say("\n");
    tell_stmts(page, func.body.as_slice());
}

/// Tells the imports and functions of a file.
pub(crate) fn tell_file(page: &mut Page, file: &File) {
    for import in file.imports.as_slice() {
        tell_import(page, import);
    }
    for decl in file.declarations.as_slice() {
        match decl {
            Decl::Func(func) => tell_func(page, func),
            _ => page.say("Other\n"),
        }
    }
}
