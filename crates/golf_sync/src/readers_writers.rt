//! Reader and writer mutexes. On `Err` the state is unchanged.
//!
//! The count is -1 if a writer holds the mutex, and else how many readers do.

ghost use Rattle.std.specs.Prelude.{◌≡◌, ◌||◌, IfOk, OnErr, drop, true, is_some};
ghost use Rattle.golf_model.specs.Values.{is_minus_one};
ghost use Rattle.golf_theory.specs.Maps.{find};
ghost use Rattle.golf_model.specs.Actors.{at_rw};
ghost use Rattle.golf_model.specs.Waiters.{first};
ghost use Rattle.golf_model.specs.ReadersWriters.{write_locks, write_locks_by, write_unlocks, write_unlocks_by};
ghost use Rattle.golf_model.specs.ReadersWriters.{read_locks, read_locks_by, read_unlocks, read_unlocks_by};
ghost use Rattle.golf_data.specs.declared.goroutine.Side.{Side};
ghost use Rattle.golf_state.specs.ActorChanges.{Stands};
ghost use Rattle.golf_state.specs.Outcomes.{Comes};
ghost use Rattle.golf_state.specs.MutexHandover.{IsBlockedIn};
ghost use Rattle.golf_sync.specs.Served.{readers_of, next_in, served_by, is_ready_for};

use crate::objects::rw_at;
use golf_base::{Memory, ObjectId};
use golf_data::{Object, PanicKind, Side, WaitKind};
use golf_state::{
    Acting, Outcome, Reference, State, Waiting, Wakening, Waking, block_on, last_operand, proceed,
    reference_in,
};
use std::alloc::Global;

/// The most readers that hold a reader and writer mutex at the same time.
const MOST_READERS: i64 = 1_073_741_823;

/// The next holders of a free reader and writer mutex.
#[derive(Clone, Copy, Debug, PartialEq, Eq)]
pub enum Served {
    /// The count of readers, and the bound on their tickets: each ticket is below it. Without a bound all
    /// readers get it.
    Readers(i64, Option<u64>),
    Writer(Waiting),
}

// The readers with a ticket below this one, or all.
fn readers(state: &State, rw: ObjectId, below: Option<u64>) -> Served
    ensures { result ≡ readers_of rw.0 below state.now.goroutines }
{
    Served::Readers(state.readers_next(rw, below) as i64, below)
}

// The next holders of the mutex: the first waiter, or all readers if no goroutine waits to write.
fn next_served(state: &State, rw: ObjectId) -> Served
    ensures next { result ≡ next_in rw.0 state.now.goroutines (first rw.0 Side.Write state.now.goroutines) (first rw.0 Side.Read state.now.goroutines) }
    ensures blocked { IsBlockedIn state.now (first rw.0 Side.Write state.now.goroutines) }
{
    let Some(writer) = state.first_waiter(rw, Side::Write) else {
        return readers(state, rw, None);
    };
    match state.first_waiter(rw, Side::Read) {
        Some(reader) => {
            if reader.ticket < writer.ticket {
                readers(state, rw, Some(writer.ticket))
            } else {
                Served::Writer(writer)
            }
        }
        None => Served::Writer(writer),
    }
}

// Gives the mutex to these goroutines. It takes no memory.
fn serve(state: &mut State, rw: ObjectId, served: Served)
    requires { is_ready_for served state.old ≡ true }
    ensures { state.new ≡ served_by rw.0 served state.old }
{
    match served {
        Served::Readers(count, below) => {
            state.replace(rw, Object::Rw(count));
            state.wake_all(rw, Waking::ToReaders(below));
        }
        Served::Writer(waiting) => {
            state.replace(rw, Object::Rw(-1));
            state.wake(waiting.goroutine, Wakening::Released);
        }
    }
}

// Locks for writing, or blocks.
fn write_lock_at(
    alloc: Global,
    state: &mut State,
    acting: Acting,
    rw: ObjectId,
) -> Result<Outcome, Memory>
    requires { Stands acting.goroutine.0 acting.after state.old }
    ensures ok { IfOk result (λ outcome. Comes outcome (λ a. at_rw (write_locks_by a (drop 1 a.frame.operands) rw.0) (find rw.0 state.old.objects)) acting.goroutine.0 acting.line state.old state.new) }
    ensures err { OnErr result (state.new ≡ state.old) }
{
    let Some(count) = rw_at(state, rw) else {
        return Ok(Outcome::Stuck);
    };
    if count != 0 {
        block_on(
            alloc,
            state,
            acting,
            1,
            WaitKind::WriteLock,
            rw,
            Side::Write,
        )?;
        return Ok(Outcome::Blocked);
    }
    state.replace(rw, Object::Rw(-1));
    proceed(state, acting, acting.after, 1);
    Ok(Outcome::Done)
}

/// Locks the reader and writer mutex that is the last operand for writing, for the goroutine whose turn it
/// is. It blocks if any goroutine holds the mutex, and panics on nil.
pub fn rw_lock(alloc: Global, state: &mut State, acting: Acting) -> Result<Outcome, Memory>
    requires { Stands acting.goroutine.0 acting.after state.old }
    ensures ok { IfOk result (λ outcome. Comes outcome (λ a. write_locks a state.old) acting.goroutine.0 acting.line state.old state.new) }
    ensures err { OnErr result (state.new ≡ state.old) }
{
    let Some(rw) = last_operand(state, acting.goroutine) else {
        return Ok(Outcome::Stuck);
    };
    match reference_in(rw) {
        Reference::To(object) => write_lock_at(alloc, state, acting, object),
        Reference::Nil => Ok(Outcome::Panic(PanicKind::NilPointer)),
        Reference::Misfit => Ok(Outcome::Stuck),
    }
}

// Unlocks a mutex that a writer holds.
fn write_unlock_at(state: &mut State, acting: Acting, rw: ObjectId) -> Outcome
    requires { Stands acting.goroutine.0 acting.after state.old }
    ensures { Comes result (λ a. at_rw (write_unlocks_by a (drop 1 a.frame.operands) state.old rw.0) (find rw.0 state.old.objects)) acting.goroutine.0 acting.line state.old state.new }
{
    let Some(count) = rw_at(state, rw) else {
        return Outcome::Stuck;
    };
    if count != -1 {
        return Outcome::Panic(PanicKind::UnlockUnlockedRw);
    }
    let served = next_served(state, rw);
    proceed(state, acting, acting.after, 1);
    serve(state, rw, served);
    Outcome::Done
}

/// Unlocks the reader and writer mutex that is the last operand, which a writer holds, for the goroutine
/// whose turn it is. The first waiter gets it; a reader gets it with all readers before the first writer.
/// If no writer holds it, that is a fatal error. It panics on nil. It takes no memory.
pub fn rw_unlock(state: &mut State, acting: Acting) -> Outcome
    requires { Stands acting.goroutine.0 acting.after state.old }
    ensures { Comes result (λ a. write_unlocks a state.old) acting.goroutine.0 acting.line state.old state.new }
{
    let Some(rw) = last_operand(state, acting.goroutine) else {
        return Outcome::Stuck;
    };
    match reference_in(rw) {
        Reference::To(object) => write_unlock_at(state, acting, object),
        Reference::Nil => Outcome::Panic(PanicKind::NilPointer),
        Reference::Misfit => Outcome::Stuck,
    }
}

// Whether a writer holds the mutex, or waits for it.
fn is_for_writers(state: &State, rw: ObjectId, count: i64) -> bool
    ensures { result ≡ (is_minus_one count || is_some (first rw.0 Side.Write state.now.goroutines)) }
{
    count == -1 || state.first_waiter(rw, Side::Write).is_some()
}

// Locks for reading, or blocks.
fn read_lock_at(
    alloc: Global,
    state: &mut State,
    acting: Acting,
    rw: ObjectId,
) -> Result<Outcome, Memory>
    requires { Stands acting.goroutine.0 acting.after state.old }
    ensures ok { IfOk result (λ outcome. Comes outcome (λ a. at_rw (read_locks_by a (drop 1 a.frame.operands) state.old rw.0) (find rw.0 state.old.objects)) acting.goroutine.0 acting.line state.old state.new) }
    ensures err { OnErr result (state.new ≡ state.old) }
{
    let Some(count) = rw_at(state, rw) else {
        return Ok(Outcome::Stuck);
    };
    if is_for_writers(state, rw, count) {
        block_on(alloc, state, acting, 1, WaitKind::ReadLock, rw, Side::Read)?;
        return Ok(Outcome::Blocked);
    }
    if count >= MOST_READERS {
        return Ok(Outcome::Panic(PanicKind::ReaderLimit));
    }
    state.replace(rw, Object::Rw(count + 1));
    proceed(state, acting, acting.after, 1);
    Ok(Outcome::Done)
}

/// Locks the reader and writer mutex that is the last operand for reading, for the goroutine whose turn it
/// is. It blocks if a writer holds the mutex or waits for it, and panics on nil. More than 1,073,741,823
/// readers are a fatal error.
pub fn read_lock(alloc: Global, state: &mut State, acting: Acting) -> Result<Outcome, Memory>
    requires { Stands acting.goroutine.0 acting.after state.old }
    ensures ok { IfOk result (λ outcome. Comes outcome (λ a. read_locks a state.old) acting.goroutine.0 acting.line state.old state.new) }
    ensures err { OnErr result (state.new ≡ state.old) }
{
    let Some(rw) = last_operand(state, acting.goroutine) else {
        return Ok(Outcome::Stuck);
    };
    match reference_in(rw) {
        Reference::To(object) => read_lock_at(alloc, state, acting, object),
        Reference::Nil => Ok(Outcome::Panic(PanicKind::NilPointer)),
        Reference::Misfit => Ok(Outcome::Stuck),
    }
}

// Unlocks for one reader.
fn read_unlock_at(state: &mut State, acting: Acting, rw: ObjectId) -> Outcome
    requires { Stands acting.goroutine.0 acting.after state.old }
    ensures { Comes result (λ a. at_rw (read_unlocks_by a (drop 1 a.frame.operands) state.old rw.0) (find rw.0 state.old.objects)) acting.goroutine.0 acting.line state.old state.new }
{
    let Some(count) = rw_at(state, rw) else {
        return Outcome::Stuck;
    };
    if count <= 0 {
        return Outcome::Panic(PanicKind::RUnlockUnlocked);
    }
    let left = count - 1;
    if left == 0 {
        let served = next_served(state, rw);
        proceed(state, acting, acting.after, 1);
        serve(state, rw, served);
        return Outcome::Done;
    }
    proceed(state, acting, acting.after, 1);
    state.replace(rw, Object::Rw(left));
    Outcome::Done
}

/// Unlocks the reader and writer mutex that is the last operand, which readers hold, for the goroutine
/// whose turn it is. After the last reader the first waiter gets it. If no reader holds it, that is a fatal
/// error. It panics on nil. It takes no memory.
pub fn read_unlock(state: &mut State, acting: Acting) -> Outcome
    requires { Stands acting.goroutine.0 acting.after state.old }
    ensures { Comes result (λ a. read_unlocks a state.old) acting.goroutine.0 acting.line state.old state.new }
{
    let Some(rw) = last_operand(state, acting.goroutine) else {
        return Outcome::Stuck;
    };
    match reference_in(rw) {
        Reference::To(object) => read_unlock_at(state, acting, object),
        Reference::Nil => Outcome::Panic(PanicKind::NilPointer),
        Reference::Misfit => Outcome::Stuck,
    }
}
