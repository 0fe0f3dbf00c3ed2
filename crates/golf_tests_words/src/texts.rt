//! Tests of the texts of the program, and of the numbers of its statuses. Each expected text is a literal.

use golf_base::{GoroutineId, List, Memory, ObjectId};
use golf_data::{Ending, Entry, PanicKind, Report, WaitKind};
use golf_run_texts::{
    Status, certificate_line, code, ending_line, lexical_line, list_of, meaning_line, reached_line,
    report_text, rule_line, stopped_line, syntax_line,
};
use golf_why::{Member, Reached};
use std::alloc::Global;
use std::process::Abort;
use std::test::Fail;

const WAITS: [WaitKind; 11] = [
    WaitKind::Receive,
    WaitKind::ReceiveNil,
    WaitKind::Send,
    WaitKind::SendNil,
    WaitKind::Select,
    WaitKind::SelectNone,
    WaitKind::Lock,
    WaitKind::Group,
    WaitKind::ReadLock,
    WaitKind::WriteLock,
    WaitKind::Condition,
];

const REPORT: &str = r"collection 7: marked 1, reported 11, kept 12, reclaimed 13, objects 14
goroutine 2: chan receive at line 3, started at line 4
goroutine 2: chan receive (nil chan) at line 3, started at line 4
goroutine 2: chan send at line 3, started at line 4
goroutine 2: chan send (nil chan) at line 3, started at line 4
goroutine 2: select at line 3, started at line 4
goroutine 2: select (no cases) at line 3, started at line 4
goroutine 2: sync.Mutex.Lock at line 3, started at line 4
goroutine 2: sync.WaitGroup.Wait at line 3, started at line 4
goroutine 2: sync.RWMutex.RLock at line 3, started at line 4
goroutine 2: sync.RWMutex.Lock at line 3, started at line 4
goroutine 2: sync.Cond.Wait at line 3, started at line 4
";

// The report of a goroutine for each kind of wait.
fn report(alloc: Global) -> Result<Report, Memory> {
    let mut reported = List::new(alloc);
    for wait in WAITS.iter() {
        reported.push(Entry {
            goroutine: GoroutineId(2),
            wait: *wait,
            line: 3,
            started: 4,
        })?;
    }
    Ok(Report {
        number: 7,
        marked: 1,
        reported,
        kept: 12,
        reclaimed: 13,
        objects: 14,
    })
}

fn report_is_written_so(rt: &impl Abort, alloc: Global) -> Result<(), Fail> {
    let report = report(alloc)?;
    is_written_so(rt, report_text(alloc, &report)?, REPORT);
    Ok(())
}

// The line of each panic and each fatal error of goroutine 3 on line 5.
const FAULTS: [(PanicKind, &str); 16] = [
    (PanicKind::Custom(0), "panic: lost (goroutine 3, line 5)\n"),
    (
        PanicKind::NilPointer,
        "panic: runtime error: invalid memory address or nil pointer dereference (goroutine 3, line 5)\n",
    ),
    (
        PanicKind::Index { at: -1, length: 2 },
        "panic: runtime error: index out of range [-1] with length 2 (goroutine 3, line 5)\n",
    ),
    (
        PanicKind::DivideByZero,
        "panic: runtime error: integer divide by zero (goroutine 3, line 5)\n",
    ),
    (
        PanicKind::SliceSize,
        "panic: runtime error: makeslice: len out of range (goroutine 3, line 5)\n",
    ),
    (
        PanicKind::ChanSize,
        "panic: makechan: size out of range (goroutine 3, line 5)\n",
    ),
    (
        PanicKind::SendClosed,
        "panic: send on closed channel (goroutine 3, line 5)\n",
    ),
    (
        PanicKind::CloseClosed,
        "panic: close of closed channel (goroutine 3, line 5)\n",
    ),
    (
        PanicKind::CloseNil,
        "panic: close of nil channel (goroutine 3, line 5)\n",
    ),
    (
        PanicKind::NegativeGroup,
        "panic: sync: negative WaitGroup counter (goroutine 3, line 5)\n",
    ),
    (
        PanicKind::UnlockUnlocked,
        "fatal error: sync: unlock of unlocked mutex (goroutine 3, line 5)\n",
    ),
    (
        PanicKind::UnlockUnlockedRw,
        "fatal error: sync: Unlock of unlocked RWMutex (goroutine 3, line 5)\n",
    ),
    (
        PanicKind::RUnlockUnlocked,
        "fatal error: sync: RUnlock of unlocked RWMutex (goroutine 3, line 5)\n",
    ),
    (
        PanicKind::ReaderLimit,
        "fatal error: sync: too many readers (goroutine 3, line 5)\n",
    ),
    (
        PanicKind::FinalizerSet,
        "fatal error: runtime.SetFinalizer: finalizer already set (goroutine 3, line 5)\n",
    ),
    (
        PanicKind::StackOverflow,
        "fatal error: stack overflow (goroutine 3, line 5)\n",
    ),
];

// Fails the test unless the text is this one.
fn is_written_so(rt: &impl Abort, text: List<u8>, wanted: &str) {
    assert!(rt; text.as_slice() == wanted.as_bytes(), "{wanted}");
}

// The line of this panic or fatal error.
fn fault_line(alloc: Global, kind: PanicKind) -> Result<List<u8>, Memory> {
    let mut texts = List::new(alloc);
    texts.push(list_of(alloc, b"lost")?)?;
    let ending = Ending::Panicked {
        kind,
        goroutine: GoroutineId(3),
        line: 5,
    };
    ending_line(alloc, texts.as_slice(), ending)
}

fn faults_are_written_so(rt: &impl Abort, alloc: Global) -> Result<(), Fail> {
    for &(kind, line) in FAULTS.iter() {
        is_written_so(rt, fault_line(alloc, kind)?, line);
    }
    Ok(())
}

fn ends_are_written_so(rt: &impl Abort, alloc: Global) -> Result<(), Fail> {
    is_written_so(rt, ending_line(alloc, &[], Ending::Returned)?, "");
    is_written_so(
        rt,
        ending_line(alloc, &[], Ending::Asleep)?,
        "fatal error: all goroutines are asleep - deadlock!\n",
    );
    Ok(())
}

fn lines_with_numbers_are_written_so(rt: &impl Abort, alloc: Global) -> Result<(), Fail> {
    is_written_so(
        rt,
        stopped_line(alloc, 1_000_000)?,
        "stopped after 1000000 turns\n",
    );
    is_written_so(
        rt,
        lexical_line(alloc, 3, 36)?,
        "refused: line 3: byte 36\n",
    );
    is_written_so(rt, syntax_line(alloc, 2)?, "refused: line 2: syntax\n");
    is_written_so(rt, rule_line(alloc, 3, 24)?, "refused: line 3: rule 24\n");
    is_written_so(rt, meaning_line(alloc, 5)?, "meaning: 5 functions agree\n");
    is_written_so(
        rt,
        certificate_line(alloc, 3, 14)?,
        "certificate 3: 14 places\n",
    );
    Ok(())
}

fn reasons_are_written_so(rt: &impl Abort, alloc: Global) -> Result<(), Fail> {
    let mut by = List::new(alloc);
    by.extend_from_slice(&[
        Member::Object(ObjectId(1)),
        Member::Goroutine(GoroutineId(2)),
        Member::Object(ObjectId(30)),
    ])?;
    let reached = Reached {
        goroutine: GoroutineId(9),
        wait: WaitKind::Select,
        line: 8,
        by,
    };
    is_written_so(
        rt,
        reached_line(alloc, &reached)?,
        "goroutine 9: select at line 8, reached by object 1, goroutine 2, object 30\n",
    );
    Ok(())
}

const STATUSES: [(Status, u8); 9] = [
    (Status::Clean, 0),
    (Status::Found, 1),
    (Status::Crashed, 2),
    (Status::Spent, 3),
    (Status::Refused, 4),
    (Status::Usage, 5),
    (Status::ReadFault, 6),
    (Status::WriteFault, 7),
    (Status::Memory, 8),
];

fn statuses_have_these_numbers(rt: &impl Abort) {
    for &(status, number) in STATUSES.iter() {
        assert!(rt; code(status) == number, "{number}");
    }
}

#[test]
fn each_text_and_each_status_is_this_one(rt: HostRuntime) -> Result<(), Fail> {
    report_is_written_so(&rt, rt.alloc())?;
    faults_are_written_so(&rt, rt.alloc())?;
    ends_are_written_so(&rt, rt.alloc())?;
    lines_with_numbers_are_written_so(&rt, rt.alloc())?;
    reasons_are_written_so(&rt, rt.alloc())?;
    statuses_have_these_numbers(&rt);
    Ok(())
}
