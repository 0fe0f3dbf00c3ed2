//! The facts of a file, and the code that is made from them.

use crate::page::Page;
use golf_check_types::Fact;
use golf_data::{Code, Function};

/// Tells the facts, a line for each.
pub(crate) fn tell_facts(page: &mut Page, facts: &[Fact]) {
    for fact in facts {
        page.show(fact);
        page.say("\n");
    }
}

// Tells a function: its counts, and for each position the mask of its slots, the line and the instruction.
fn tell_function(page: &mut Page, number: usize, function: &Function) {
    page.say("function ");
    page.show(&number);
    page.say(": line ");
    page.show(&function.line);
    page.say(", parameters ");
    page.show(&function.params);
    page.say(", slots ");
    page.show(&function.slots);
    page.say(", depth ");
    page.show(&function.depth);
    page.say("\n");
    for (at, line) in function.body.as_slice().iter().enumerate() {
        page.say("  ");
        page.show(&at);
        page.say(" ");
        page.show(&line.instr);
        page.say(" on line ");
        page.show(&line.line);
        match function.live.as_slice().get(at) {
            None => {}
            Some(mask) => {
                page.say(", live ");
                page.show(mask);
            }
        }
        page.say("\n");
    }
}

/// Tells the functions of a code.
pub(crate) fn tell_code(page: &mut Page, code: &Code) {
    for (number, function) in code.functions.as_slice().iter().enumerate() {
        tell_function(page, number, function);
    }
}
