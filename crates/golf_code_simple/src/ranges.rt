//! The code of the names of a `range`.
//!
//! The hidden slots hold the slice and the index, or the channel. Each name has a fact that says where its value is
//! stored.

ghost use Rattle.std.specs.Prelude.{◌≡◌, ◌+◌};
ghost use Rattle.golf_code_facts.specs.Facts.{past_one};
ghost use Rattle.golf_code_facts.specs.Statements.{past_two};
ghost use Rattle.golf_code_facts.specs.Loops.{past_names, index_name as index_name_of, element_name as element_name_of};
ghost use Rattle.golf_code_facts.specs.Loops.{slice_names as slice_names_of, channel_name as channel_name_of};
ghost use Rattle.golf_code_expressions.specs.WriterClauses.{Writes};

use crate::names::store_next;
use golf_base::Memory;
use golf_check_types::is_blank;
use golf_code_expressions::Writer;
use golf_code_layout::op;
use golf_data::Instr;
use golf_syntax_trees::RangeNames;

// Adds the code that stores the index, which is in this slot.
fn index_name(
    writer: &mut Writer,
    line: u32,
    slice: u32,
    index: u32,
    name: &[u8],
) -> Result<(), Memory>
    requires { index ≡ slice + 2 }
    ensures { Writes result (index_name_of writer.old.draft.tables.now line slice name.now writer.old.facts) (past_one writer.old.facts) writer.old writer.new }
{
    if is_blank(name) {
        writer.facts.skip_one();
        return Ok(());
    }
    op(&mut writer.draft.emitted, line, Instr::Load(index))?;
    store_next(writer, line)
}

// Adds the code that stores the element at the index, of the slice in this slot.
fn element_name(
    writer: &mut Writer,
    line: u32,
    slice: u32,
    index: u32,
    name: &[u8],
) -> Result<(), Memory>
    requires { index ≡ slice + 2 }
    ensures { Writes result (element_name_of writer.old.draft.tables.now line slice name.now writer.old.facts) (past_one writer.old.facts) writer.old writer.new }
{
    if is_blank(name) {
        writer.facts.skip_one();
        return Ok(());
    }
    op(&mut writer.draft.emitted, line, Instr::Load(slice))?;
    op(&mut writer.draft.emitted, line, Instr::Load(index))?;
    op(&mut writer.draft.emitted, line, Instr::Index)?;
    store_next(writer, line)
}

fn two_names(
    writer: &mut Writer,
    line: u32,
    slice: u32,
    index: u32,
    first: &[u8],
    second: &[u8],
) -> Result<(), Memory>
    requires { index ≡ slice + 2 }
    ensures { Writes result (slice_names_of writer.old.draft.tables.now line slice (RangeNames.Two first.now second.now) writer.old.facts) (past_two writer.old.facts) writer.old writer.new }
{
    index_name(writer, line, slice, index, first)?;
    element_name(writer, line, slice, index, second)
}

/// Adds the code of the names of a `range` over a slice. The slice is in the first hidden slot, the next index in the
/// third.
pub fn slice_names(
    writer: &mut Writer,
    line: u32,
    slice: u32,
    index: u32,
    names: &RangeNames,
) -> Result<(), Memory>
    requires { index ≡ slice + 2 }
    ensures { Writes result (slice_names_of writer.old.draft.tables.now line slice names.now writer.old.facts) (past_names names.now writer.old.facts) writer.old writer.new }
{
    match names {
        RangeNames::Neither => Ok(()),
        RangeNames::One(n) => index_name(writer, line, slice, index, n.as_slice()),
        RangeNames::Two(n, m) => {
            two_names(writer, line, slice, index, n.as_slice(), m.as_slice())
        }
    }
}

// Drops the received value, if there are two names. A checked `range` over a channel has at most one.
fn two_received(writer: &mut Writer, line: u32, first: &[u8], second: &[u8]) -> Result<(), Memory>
    ensures { Writes result (channel_name_of writer.old.draft.tables.now line (RangeNames.Two first.now second.now) writer.old.facts) (past_two writer.old.facts) writer.old writer.new }
{
    writer.facts.skip_one();
    writer.facts.skip_one();
    op(&mut writer.draft.emitted, line, Instr::Drop)
}

/// Adds the code of the name of a `range` over a channel.
pub fn channel_name(writer: &mut Writer, line: u32, names: &RangeNames) -> Result<(), Memory>
    ensures { Writes result (channel_name_of writer.old.draft.tables.now line names.now writer.old.facts) (past_names names.now writer.old.facts) writer.old writer.new }
{
    match names {
        RangeNames::Neither => op(&mut writer.draft.emitted, line, Instr::Drop),
        RangeNames::One(_) => store_next(writer, line),
        RangeNames::Two(n, m) => two_received(writer, line, n.as_slice(), m.as_slice()),
    }
}
