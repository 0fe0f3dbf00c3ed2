//! Tests of each instruction, through turns. Expected values are from the Go specification and the
//! documentation of the packages.

use crate::programs::ends;
use crate::runs::panicked;
use golf_data::{Ending, PanicKind};
use std::process::Abort;
use std::test::Fail;

/// The instructions of `main` and of function 1, the output of their run, and the panic or fatal error with
/// its line. Without one the run returns.
struct Row {
    /// The fact that the row shows.
    shows: &'static str,
    main: &'static str,
    other: &'static str,
    prints: &'static str,
    panic: Option<(PanicKind, u32)>,
}

const ROWS: [Row; 12] = [
    Row {
        shows: "numbers wrap and divide toward zero",
        main: "
            Int(7); Int(-2); Div; Int(-7); Int(2); Rem; Int(-9223372036854775808); Neg; Int(3); Int(4); Mul;
            Int(5); Int(8); Sub; Int(9223372036854775807); Int(1); Add; Print(6); Int(1); Int(0); Div",
        other: "",
        prints: "-3 -1 -9223372036854775808 12 -3 -9223372036854775808\n",
        panic: Some((PanicKind::DivideByZero, 21)),
    },
    Row {
        shows: "values are compared",
        main: "
            Bool(true); Not; Int(1); Int(2); Less; Int(2); Int(2); AtMost; Unit; Unit; Eq; Nil; NewMutex; Eq;
            Text(1); Text(2); Eq; Print(6); Return",
        other: "",
        prints: "false true true true false false\n",
        panic: None,
    },
    Row {
        shows: "variables and jumps",
        main: "
            Int(5); StoreGlobal(0); LoadGlobal(0); Dup; Add; Store(0); Load(0); Int(1); Dup2; Drop; Print(3);
            Load(0); Int(8); AtMost; JumpIfNot(16); Return; Int(8); Store(0); Jump(11)",
        other: "",
        prints: "10 1 10\n",
        panic: None,
    },
    Row {
        shows: "structs and slices",
        main: "
            NewStruct(0); Store(0); Load(0); Int(4); SetField(0); Int(3); NewSlice(Int(0)); Store(1); Load(1);
            Int(1); Int(9); SetIndex; Load(0); Field(0); Load(1); Int(1); Index; Load(1); Len; Print(3);
            Load(1); Int(3); Index",
        other: "",
        prints: "4 9 3\n",
        panic: Some((PanicKind::Index { at: 3, length: 3 }, 23)),
    },
    Row {
        shows: "a closed channel gives its buffer and then zero",
        main: "
            Int(1); NewChan(Int(0)); Store(0); Load(0); Int(6); Send; Load(0); Close; Load(0); ReceiveOk;
            Print(2); Load(0); ReceiveOk; Print(2); Load(0); Close",
        other: "",
        prints: "6 true\n0 false\n",
        panic: Some((PanicKind::CloseClosed, 16)),
    },
    Row {
        shows: "a blocked select gets what is sent",
        main: "
            Int(0); NewChan(Int(0)); Store(0); Nil; Load(0); Jump(12); Print(1); Return; Print(2); Return; Unit;
            Unit; Load(0); Go(1, 1); Select(Take 6, TakeOk 8)",
        other: "Load(0); Int(8); Send; Return",
        prints: "8 true\n",
        panic: None,
    },
    Row {
        shows: "a select without a ready case takes its default",
        main: "Nil; Int(1); Select(Send 3, default 5); Int(1); Print(1); Int(2); Print(1); Return",
        other: "",
        prints: "2\n",
        panic: None,
    },
    Row {
        shows: "a mutex is handed to its waiter",
        main: "
            NewMutex; Store(0); Load(0); Lock; NewGroup; Store(1); Load(1); Int(1); GroupAdd; Load(1);
            StoreGlobal(0); Load(0); Go(1, 1); Int(1); Print(1); Load(0); Unlock; Load(1); GroupWait; Int(3);
            Print(1); Load(0); Unlock",
        other: "
            Load(0); Lock; Int(2); Print(1); Load(0); Unlock; LoadGlobal(0); Int(-1); GroupAdd; Return",
        prints: "1\n2\n3\n",
        panic: Some((PanicKind::UnlockUnlocked, 23)),
    },
    Row {
        shows: "a writer waits for a reader",
        main: "
            NewRw; Store(0); Load(0); ReadLock; Load(0); Go(1, 1); Int(0); Drop; Int(0); Drop; Int(1); Print(1);
            Load(0); ReadUnlock; Load(0); ReadLock; Int(3); Print(1); Load(0); RwUnlock",
        other: "Load(0); RwLock; Int(2); Print(1); Load(0); RwUnlock; Return",
        prints: "1\n2\n3\n",
        panic: Some((PanicKind::UnlockUnlockedRw, 20)),
    },
    Row {
        shows: "a condition passes its waiter on",
        main: "
            NewMutex; NewCond; Store(0); Load(0); CondMutex; Lock; Load(0); Go(1, 1); Load(0); CondWait; Int(2);
            Print(1); Load(0); CondBroadcast; Return",
        other: "
            Load(0); CondMutex; Lock; Load(0); CondSignal; Int(1); Print(1); Load(0); CondMutex; Unlock; Return",
        prints: "1\n2\n",
        panic: None,
    },
    Row {
        shows: "deferred calls run before a value is returned",
        main: "Int(7); Call(1, 1); Print(1); Text(1); Panic",
        other: "
            Load(0); Int(7); Eq; JumpIfNot(8); Int(5); Defer(1, 1); Int(6); ReturnValue; Load(0); Print(1);
            Return",
        prints: "5\n6\n",
        panic: Some((PanicKind::Custom(1), 5)),
    },
    Row {
        shows: "a second finaliser is fatal",
        main: "
            NewStruct(0); Store(0); Load(0); SetFinalizer(1); Load(0); ClearFinalizer; Load(0); SetFinalizer(1);
            Collect; Load(0); SetFinalizer(1)",
        other: "",
        prints: "",
        panic: Some((PanicKind::FinalizerSet, 11)),
    },
];

// The ending of the run of a row.
fn ending_of(row: &Row) -> Ending {
    match row.panic {
        Some((kind, line)) => panicked(kind, line),
        None => Ending::Returned,
    }
}

// Fails the test unless the run of each row prints its output and ends so.
fn all_end<R: AllocGlobal + Abort>(rt: &R, rows: &[Row]) -> Result<(), Fail> {
    for row in rows {
        let ending = ending_of(row);
        let ends = ends(rt.alloc(), (row.main, row.other), row.prints, ending)?;
        assert!(rt; ends, "{}", row.shows);
    }
    Ok(())
}

#[test]
fn each_instruction_does_as_the_specification_says(rt: HostRuntime) -> Result<(), Fail> {
    all_end(&rt, &ROWS)
}
