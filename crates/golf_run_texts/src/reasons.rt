//! The lines of certificates, and of live goroutines that wait. The only error is `Memory`.

ghost use Rattle.std.specs.Prelude.{◌≡◌, ◌++◌, IfOk, OnOk, string_bytes};
ghost use Rattle.golf_run_texts.specs.Texts.{
  certificate_line as certificate_bytes,
  member_text as member_bytes,
  more_members as more_bytes,
  members_text as members_bytes,
  blocked_text as blocked_bytes,
  reached_line as reached_bytes,
};

use crate::lines::wait_text;
use crate::refusals::list_of;
use golf_base::{List, Memory};
use golf_why::{Member, Reached};
use std::alloc::Global;

/// Returns the line of the certificate of a collection: its number, and how many objects and goroutines the
/// certificate has.
pub fn certificate_line(alloc: Global, number: u32, places: u32) -> Result<List<u8>, Memory>
    ensures { IfOk result (λ line. line ≡ certificate_bytes number places) }
{
    let line = format!(in alloc; "certificate {number}: {places} places\n")?;
    list_of(alloc, line.as_bytes())
}

fn member_text(alloc: Global, member: Member) -> Result<String, Memory>
    ensures { IfOk result (λ text. string_bytes text ≡ member_bytes member) }
{
    match member {
        Member::Object(object) => {
            let number = object.0;
            Ok(format!(in alloc; "object {number}")?)
        }
        Member::Goroutine(goroutine) => {
            let number = goroutine.0;
            Ok(format!(in alloc; "goroutine {number}")?)
        }
    }
}

// Adds each member, after a comma.
fn add_more(alloc: Global, line: &mut List<u8>, members: &[Member]) -> Result<(), Memory>
    ensures { OnOk result (line.new ≡ line.old ++ more_bytes members.now) }
{
    for member in members {
        line.extend_from_slice(b", ")?;
        line.extend_from_slice(member_text(alloc, *member)?.as_bytes())?;
    }
    Ok(())
}

// Adds the members, with a comma between two of them.
fn add_members(alloc: Global, line: &mut List<u8>, members: &[Member]) -> Result<(), Memory>
    ensures { OnOk result (line.new ≡ line.old ++ members_bytes members.now) }
{
    let Some((first, more)) = members.split_first() else {
        return Ok(());
    };
    line.extend_from_slice(member_text(alloc, *first)?.as_bytes())?;
    add_more(alloc, line, more)
}

// The first part of the line: how the goroutine is blocked.
fn blocked_text(alloc: Global, reached: &Reached) -> Result<String, Memory>
    ensures { IfOk result (λ text. string_bytes text ≡ blocked_bytes reached.now) }
{
    let goroutine = reached.goroutine.0;
    let wait = wait_text(reached.wait);
    let line = reached.line;
    Ok(format!(in alloc; "goroutine {goroutine}: {wait} at line {line}, reached by ")?)
}

/// Returns the line of a goroutine that waits and is live.
pub fn reached_line(alloc: Global, reached: &Reached) -> Result<List<u8>, Memory>
    ensures { IfOk result (λ line. line ≡ reached_bytes reached.now) }
{
    let mut line = List::new(alloc);
    line.extend_from_slice(blocked_text(alloc, reached)?.as_bytes())?;
    add_members(alloc, &mut line, reached.by.as_slice())?;
    line.extend_from_slice(b"\n")?;
    Ok(line)
}
