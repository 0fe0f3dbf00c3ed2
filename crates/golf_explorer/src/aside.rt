//! The top call, on a thread whose stack is taken beforehand, with its clause.

ghost use Rattle.std.specs.Prelude.{◌≡◌, IfOk};
ghost use Rattle.golf_run.specs.HasRun.{sinks};
ghost use Rattle.golf_command.specs.Means.{words_of, seen};
ghost use Rattle.golf_explore_command.specs.Means.{CallTells};

use golf_base::{Memory, Sink, Source};
use golf_command::{Ended, on_own_stack};
use golf_explore_command::explorer;
use std::snapshot::Snapshot;
use std::sync::Wait;
use std::thread::{Promise, Threads};
use std::time::Clock;

// The words and the streams before the call. Only clauses use them.
#[derive(Drop)]
struct Begun<S, O, E> {
    words: Snapshot<Vec<String>>,
    shows: Snapshot<bool>,
    source: Snapshot<S>,
    out: Snapshot<O>,
    err: Snapshot<E>,
}

impl<S: Source, O: Sink, E: Sink> Promise<Ended<S, O, E>> for Begun<S, O, E> {
    ghost kept_by = { λ b e. CallTells (words_of b.words.value.items) b.shows.value e.status
        (seen (S.left b.source.value) (S.faults b.source.value) (sinks (O.written b.out.value) (O.faults b.out.value) (E.written b.err.value) (E.faults b.err.value)))
        (seen (S.left e.source) (S.faults e.source) (sinks (O.written e.out) (O.faults e.out) (E.written e.err) (E.faults e.err))) };
}

/// Does all that `explorer` does, on its own thread. The error is `Memory` if the thread cannot be made;
/// then nothing is read or written.
pub(crate) fn explorer_aside<
    R: AllocGlobal + Threads + Wait + Clock + Sync + Send + Copy + 'static,
    S: Source + Send + Drop + 'static,
    O: Sink + Send + Drop + 'static,
    E: Sink + Send + Drop + 'static,
>(
    rt: R,
    words: Vec<String>,
    shows: bool,
    source: S,
    out: O,
    err: E,
) -> Result<Ended<S, O, E>, Memory>
    ensures { IfOk result (λ e. CallTells (words_of words.items) shows e.status
        (seen (S.left source) (S.faults source) (sinks (O.written out) (O.faults out) (E.written err) (E.faults err)))
        (seen (S.left e.source) (S.faults e.source) (sinks (O.written e.out) (O.faults e.out) (E.written e.err) (E.faults e.err)))) }
{
    let begun = Begun {
        words: Snapshot::of(&words),
        shows: Snapshot::of(&shows),
        source: Snapshot::of(&source),
        out: Snapshot::of(&out),
        err: Snapshot::of(&err),
    };
    let call = move || -> Ended<S, O, E>
        ensures { CallTells (words_of words.items) shows result.status
            (seen (S.left source) (S.faults source) (sinks (O.written out) (O.faults out) (E.written err) (E.faults err)))
            (seen (S.left result.source) (S.faults result.source) (sinks (O.written result.out) (O.faults result.out) (E.written result.err) (E.faults result.err))) }
    {
        let (mut source, mut out, mut err) = (source, out, err);
        let status = explorer(
            &rt,
            words.as_slice(),
            shows,
            &mut source,
            &mut out,
            &mut err,
        );
        Ended {
            status,
            source,
            out,
            err,
        }
    };
    on_own_stack(&rt, begun, call)
}
