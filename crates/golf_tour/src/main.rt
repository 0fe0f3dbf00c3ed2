//! Prints what each step makes of a file: tokens, tree, facts, code, and the state, graph and marks at its first
//! collection.
//!
//! It reads the file from standard input and runs it in rotation, by the calls that `golf` makes. `checks/tour.py` puts
//! what it prints into `docs/TOUR.md`. Of the tree it tells the forms of `examples/leak.go`, and each other one as
//! `Other`. No clause says what it prints.
#![tactic(auto)]

mod collection;
mod declarations;
mod expressions;
mod fault;
mod flat_code;
mod page;
mod statements;
mod token_lines;

use collection::{collected_state, graph_of, marked, tell_graph, tell_marks, tell_state};
use declarations::tell_file;
use fault::TourFault;
use flat_code::{tell_code, tell_facts};
use golf_base::{StdSource, read_file};
use golf_check::{Checked, check};
use golf_code::generate;
use golf_data::Code;
use golf_lex::tokens;
use golf_lex_tokens::Token;
use golf_syntax::parse;
use page::Page;
use std::alloc::Global;
use std::thread::Threads;
use token_lines::tell_tokens;

/// The most bytes of a file.
const MOST_BYTES: u32 = 1_048_576;

// The typed tree of these tokens.
fn typed(alloc: Global, tokens: &[Token]) -> Result<Checked, TourFault> {
    let Ok(file) = parse(alloc, tokens) else {
        return Err(TourFault::Refused);
    };
    let Ok(checked) = check(alloc, file) else {
        return Err(TourFault::Refused);
    };
    Ok(checked)
}

// Tells what the collection marks in a run of a code.
fn tell_collection<R: Threads + Sync>(
    rt: &R,
    alloc: Global,
    page: &mut Page,
    code: &Code,
) -> Result<(), TourFault> {
    let state = collected_state(alloc, code)?;
    page.head("state");
    tell_state(alloc, page, &state)?;
    let graph = graph_of(alloc, &state)?;
    page.head("graph");
    tell_graph(page, &graph);
    let marks = marked(rt, alloc, &graph)?;
    page.head("marks");
    tell_marks(page, &marks);
    Ok(())
}

// Tells all stations of these tokens.
fn tell<R: Threads + Sync>(
    rt: &R,
    alloc: Global,
    page: &mut Page,
    tokens: &[Token],
) -> Result<(), TourFault> {
    page.head("tokens");
    tell_tokens(page, tokens);
    let checked = typed(alloc, tokens)?;
    page.head("tree");
    tell_file(page, checked.file());
    page.head("facts");
    tell_facts(page, checked.facts());
    let code = generate(alloc, &checked)?;
    page.head("code");
    tell_code(page, &code);
    tell_collection(rt, alloc, page, &code)
}

fn main(rt: HostRuntime) -> Result<(), TourFault> {
    let mut source = StdSource::new(rt.stdin());
    let Ok(bytes) = read_file(rt.alloc(), &mut source, MOST_BYTES) else {
        return Err(TourFault::Read);
    };
    let Ok(found) = tokens(rt.alloc(), bytes.as_slice()) else {
        return Err(TourFault::Refused);
    };
    let mut page = Page::new(rt.alloc());
    tell(&rt, rt.alloc(), &mut page, found.as_slice())?;
    let text = page.into_text()?;
    print!(rt; "{text}")?;
    Ok(())
}
