//! The generated file, made in memory.
//!
//! Each part leaves one goroutine that waits for ever. The goroutines of the odd parts are dead, and those
//! of the even parts are live.

ghost use Rattle.std.specs.Prelude.{◌≡◌, ◌<◌, ◌-◌, ◌++◌, IfOk, OnOk, decimal};
ghost use Rattle.golf_command_sample.specs.File.{part, parts, call, calls, tail, file as file_of};
ghost use Rattle.golf_command_sample.specs.Lines.{HasLines};

use golf_base::{List, Memory};
use std::alloc::Global;

/// The most parts of a generated file.
pub const MOST_PARTS: u32 = 5_000;

const HEAD: &[u8; 126] =
    b"package main\n\nimport \"runtime\"\n\ntype Node struct {\n\tc chan int\n\tnext *Node\n}\n\nvar root *Node\n\nfunc wait(c chan int) {\n\t<-c\n}\n\n";

const PART: &[u8; 97] =
    b"(n int) {\n\tc := make(chan int)\n\tgo wait(c)\n\tif n%2 == 0 {\n\t\troot = &Node{c: c, next: root}\n\t}\n}\n\n";

// Adds a number in decimal.
fn add_number(alloc: Global, text: &mut List<u8>, number: u32) -> Result<(), Memory>
    ensures { OnOk result (text.new ≡ text.old ++ decimal number) }
{
    text.extend_from_slice(format!(in alloc; "{number}")?.as_bytes())
}

fn add_part(alloc: Global, text: &mut List<u8>, number: u32) -> Result<(), Memory>
    ensures { OnOk result (text.new ≡ text.old ++ part number) }
{
    text.extend_from_slice(b"func part")?;
    add_number(alloc, text, number)?;
    text.extend_from_slice(PART)?;
    Ok(())
}

fn add_parts(alloc: Global, text: &mut List<u8>, count: u32) -> Result<(), Memory>
    ensures { OnOk result (text.new ≡ text.old ++ parts count) }
{
    for before in 0..count {
        add_part(alloc, text, before + 1)?;
    }
    Ok(())
}

fn add_call(alloc: Global, text: &mut List<u8>, number: u32) -> Result<(), Memory>
    ensures { OnOk result (text.new ≡ text.old ++ call number) }
{
    text.extend_from_slice(b"\tpart")?;
    add_number(alloc, text, number)?;
    text.extend_from_slice(b"(")?;
    add_number(alloc, text, number)?;
    text.extend_from_slice(b")\n")?;
    Ok(())
}

fn add_calls(alloc: Global, text: &mut List<u8>, count: u32) -> Result<(), Memory>
    ensures { OnOk result (text.new ≡ text.old ++ calls count) }
{
    for before in 0..count {
        add_call(alloc, text, before + 1)?;
    }
    Ok(())
}

fn add_tail(alloc: Global, text: &mut List<u8>, count: u32) -> Result<(), Memory>
    ensures { OnOk result (text.new ≡ text.old ++ tail count) }
{
    text.extend_from_slice(b"\tfor i := 0; i < ")?;
    add_number(alloc, text, count)?;
    text.extend_from_slice(b"; i++ {\n\t}\n\truntime.GC()\n}\n")?;
    Ok(())
}

/// Returns the generated file of `count` parts. With `MOST_PARTS` it has fewer than 700,000 bytes. The only
/// error is `Memory`.
pub fn sample_file(alloc: Global, count: u32) -> Result<List<u8>, Memory>
    ensures { IfOk result (λ file. file ≡ file_of count) }
{
    let mut text = List::new(alloc);
    text.extend_from_slice(HEAD)?;
    add_parts(alloc, &mut text, count)?;
    text.extend_from_slice(b"func main() {\n")?;
    add_calls(alloc, &mut text, count)?;
    add_tail(alloc, &mut text, count)?;
    Ok(text)
}

/// States that the generated file of n parts has 20 + 9n lines, for every n below 2^32.
pub fn file_lines()
    ensures { HasLines }
{}
