//! The output of `fmt.Println`. On `Err` the state is unchanged.
//!
//! Strings, integers and truth values have a printed form. For any other value no rule fits.

ghost use Rattle.std.specs.Prelude.{◌≡◌, ◌++◌, true, false, IfOk, OnErr, MatchOption};
ghost use Rattle.golf_model.specs.Values.{bytes_of, line_bytes};
ghost use Rattle.golf_model.specs.Turn.{prints};
ghost use Rattle.golf_state.specs.ActorChanges.{Stands};
ghost use Rattle.golf_machine.specs.Fits.{Fits};

use crate::new_frames::last_values;
use golf_base::{List, Memory};
use golf_data::{Code, Value};
use golf_state::{Acting, Outcome, State, proceed};
use std::alloc::Global;

// Adds the printed form of a value. Returns whether the value has one.
fn add_value(
    alloc: Global,
    text: &mut List<u8>,
    texts: &[List<u8>],
    value: Value,
) -> Result<bool, Memory>
    ensures { IfOk result (λ added. MatchOption (bytes_of texts.now value) (added ≡ false) (λ bytes. (added ≡ true) × (text.new ≡ text.old ++ bytes))) }
{
    match value {
        Value::Int(n) => {
            let digits = n.to_string(alloc)?;
            text.extend_from_slice(digits.as_bytes())?;
        }
        Value::Bool(true) => text.extend_from_slice(b"true")?,
        Value::Bool(false) => text.extend_from_slice(b"false")?,
        Value::Text(k) => match texts.get(k as usize) {
            Some(found) => text.extend_from_slice(found.as_slice())?,
            None => return Ok(false),
        },
        Value::Unit | Value::Nil | Value::Ref(_) => return Ok(false),
    }
    Ok(true)
}

/// Returns the line of these values, with one space between and a newline at the end, or `None` if a value
/// has no printed form.
pub fn line_of(
    alloc: Global,
    texts: &[List<u8>],
    values: &[Value],
) -> Result<Option<List<u8>>, Memory>
    ensures { IfOk result (λ line. line ≡ line_bytes texts.now values.now) }
{
    let mut text = List::new(alloc);
    for (i, value) in values.iter().enumerate() {
        if i > 0 {
            text.push(b' ')?;
        }
        if !add_value(alloc, &mut text, texts, *value)? {
            return Ok(None);
        }
    }
    text.push(b'\n')?;
    Ok(Some(text))
}

/// Prints the line of the last `count` operands.
pub fn print(
    alloc: Global,
    code: &Code,
    state: &mut State,
    acting: Acting,
    count: u32,
) -> Result<Outcome, Memory>
    requires { Stands acting.goroutine.0 acting.after state.old }
    ensures ok { IfOk result (λ outcome. Fits outcome (λ a. prints code.now a count) acting.goroutine.0 acting.line state.old state.new) }
    ensures err { OnErr result (state.new ≡ state.old) }
{
    let g = acting.goroutine;
    let Some(values) = last_values(state, g, count) else {
        return Ok(Outcome::Stuck);
    };
    let Some(line) = line_of(alloc, code.texts.as_slice(), values)? else {
        return Ok(Outcome::Stuck);
    };
    state.add_output(line.as_slice())?;
    proceed(state, acting, acting.after, count as usize);
    Ok(Outcome::Done)
}
