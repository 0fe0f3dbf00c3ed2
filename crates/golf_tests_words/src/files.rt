//! Tests of the generated file, and of the summary line of its run.

use golf_base::List;
use golf_command_sample::{Summary, sample_file, summary_line};
use std::test::Fail;

const ONE: &str = "\
    package main\n\
    \n\
    import \"runtime\"\n\
    \n\
    type Node struct {\n\
    \tc chan int\n\
    \tnext *Node\n\
    }\n\
    \n\
    var root *Node\n\
    \n\
    func wait(c chan int) {\n\
    \t<-c\n\
    }\n\
    \n\
    func part1(n int) {\n\
    \tc := make(chan int)\n\
    \tgo wait(c)\n\
    \tif n%2 == 0 {\n\
    \t\troot = &Node{c: c, next: root}\n\
    \t}\n\
    }\n\
    \n\
    func main() {\n\
    \tpart1(1)\n\
    \tfor i := 0; i < 1; i++ {\n\
    \t}\n\
    \truntime.GC()\n\
    }\n";

const TWO: &str = "\
    package main\n\
    \n\
    import \"runtime\"\n\
    \n\
    type Node struct {\n\
    \tc chan int\n\
    \tnext *Node\n\
    }\n\
    \n\
    var root *Node\n\
    \n\
    func wait(c chan int) {\n\
    \t<-c\n\
    }\n\
    \n\
    func part1(n int) {\n\
    \tc := make(chan int)\n\
    \tgo wait(c)\n\
    \tif n%2 == 0 {\n\
    \t\troot = &Node{c: c, next: root}\n\
    \t}\n\
    }\n\
    \n\
    func part2(n int) {\n\
    \tc := make(chan int)\n\
    \tgo wait(c)\n\
    \tif n%2 == 0 {\n\
    \t\troot = &Node{c: c, next: root}\n\
    \t}\n\
    }\n\
    \n\
    func main() {\n\
    \tpart1(1)\n\
    \tpart2(2)\n\
    \tfor i := 0; i < 2; i++ {\n\
    \t}\n\
    \truntime.GC()\n\
    }\n";

fn newlines(text: &[u8]) -> usize {
    text.iter().filter(|byte| **byte == 10).count()
}

#[test]
fn the_files_of_one_and_of_two_parts_are_these(rt: HostRuntime) -> Result<(), Fail> {
    let (one, two) = (sample_file(rt.alloc(), 1)?, sample_file(rt.alloc(), 2)?);
    assert!(rt; one.as_slice() == ONE.as_bytes() && two.as_slice() == TWO.as_bytes());
    Ok(())
}

#[test]
fn the_largest_file_has_45020_lines_and_under_700000_bytes(rt: HostRuntime) -> Result<(), Fail> {
    let file: List<u8> = sample_file(rt.alloc(), 5_000)?;
    assert!(rt; newlines(file.as_slice()) == 45_020 && file.len() < 700_000);
    Ok(())
}

#[test]
fn the_summary_is_one_line(rt: HostRuntime) -> Result<(), Fail> {
    let of = Summary {
        parts: 5,
        lines: 65,
        collections: 1,
        reported: 3,
        kept: 0,
        reclaimed: 3,
        objects: 4,
    };
    let wanted =
        "generated 5: lines 65, collections 1, reported 3, kept 0, reclaimed 3, objects 4\n";
    assert!(rt; summary_line(rt.alloc(), of)?.as_slice() == wanted.as_bytes());
    Ok(())
}
