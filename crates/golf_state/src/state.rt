//! The state: what a caller can ask of it, and the changes that a turn is made of.
//!
//! The invariant: the lists of running goroutines, the wait queues and the room of blocked goroutines fit
//! the goroutines.

ghost use Rattle.std.specs.Prelude.{◌≡◌, ◌<◌, ◌≤◌, ◌^◌, ◌+◌, ◌-◌, ◌↔◌, IsTrue, [], not, length, map, true, false, Some};
ghost use Rattle.std.specs.Prelude.{None, IfOk, OnOk, OnErr, IsSome, IfSome, is_some, option_map, slice_get};
ghost use Rattle.std.specs.Borrow.{sem};
ghost use Rattle.golf_theory.specs.Maps.{find, keys, Rises, IsRising};
ghost use Rattle.golf_data.specs.declared.goroutine.Mode.{Mode};
ghost use Rattle.golf_model.specs.Futures.{Numbered};
ghost use Rattle.golf_model.specs.Presence.{IsWhole};
ghost use Rattle.golf_model.specs.Views.{frame_view, frame_views, goroutine_view};
ghost use Rattle.golf_model.specs.State.{runnable, ending, is_running, not_empty};
ghost use Rattle.golf_model.specs.Waiters.{first};
ghost use Rattle.golf_model.specs.ReadersWriters.{readers_next};
ghost use Rattle.golf_model.specs.ClearedSlots.{clears};
ghost use Rattle.golf_model.specs.Changes.{apply_all, make, replace, set_global, become, block, spawn, leave, finish};
ghost use Rattle.golf_model.specs.Changes.{set_finaliser, clear_finaliser, take_queued, output as output_of, wake_all};
ghost use Rattle.golf_model.specs.Changes.{requeue, move_wait};
ghost use Rattle.golf_theory.specs.Flags.{kept};
ghost use Rattle.golf_state_goroutines.specs.Places.{running_of};
ghost use Rattle.golf_state.specs.CollectedParts.{queue_unflagged};
ghost use Rattle.golf_state.specs.Looked.{looked_up, runs, is_blocked, frames_of, reframed, advanced, opening};
ghost use Rattle.golf_state.specs.Wakenings.{wakened};
ghost use Rattle.golf_state.specs.Enqueued.{has_queue};
ghost use Rattle.golf_state.specs.Woken.{waking_of};
ghost use Rattle.golf_state.specs.WokenAll.{wakening_in, AreWokenBelow, IsHolderBelow};
ghost use Rattle.golf_state.specs.Waited.{waiting_of};
ghost use Rattle.golf_state.specs.Seen.{waiter_by};
ghost use Rattle.golf_state.specs.Loans.{LendsFrames, LendsStateObject};

use crate::cleared_slots::clear_goroutine;
use crate::finaliser_queue::FinaliserQueue;
use crate::frames::{Wakening, settle, waken};
use crate::places::has_no_call;
use crate::runnable::Runnable;
use crate::waiters::{
    Waiting, enter_for_mutex, first_in_queue, first_waiter, forget, has_queue, leave_queues,
    move_mode, narrow_queues, waiter_by,
};
use crate::wake_all::{readers_next, wake_all};
use crate::wake_causes::{Waking, wakening_of};
use golf_base::{GoroutineId, List, Memory, ObjectId};
use golf_data::{
    Code, Ending, Frame, Goroutine, Mode, Object, Queued, Side, Value, WaitKind, Waits, copied_list,
};
use golf_heap::Heap;
use golf_state_finalisers::Finalisers;
use golf_state_goroutines::{Roster, copied_roster, place_of};
use golf_state_queues::{Queues, TicketHolder, last_before};
use std::alloc::Global;
use std::marker::Model;

/// The state of a running program, which contracts see as that of the plain machine. Contracts see only the
/// items of a frame's operands, and not the room for more.
///
/// A call that answers `Memory` leaves the state unchanged. If the numbers of objects, goroutines or
/// tickets are used up, the answer is `Memory` too.
pub struct State {
    globals: List<Value>,
    heap: Heap,
    finalisers: Finalisers,
    roster: Roster,
    next_goroutine: u32,
    waiting: Queues,
    are_mutexes_enqueued: bool,
    queue: FinaliserQueue,
    output: List<u8>,
    next_ticket: u64,
    recorded: Option<Ending>,
}

impl Model for State {
    ghost use Rattle.golf_model.specs.State.{State};

    ghost Value = { State };

    ghost use Rattle.golf_state.specs.Inside.{plain_state, IsCached};

    ghost view = { plain_state };

    ghost invariant = { IsCached };
}

// Written out once here. So no other crate walks over the fields when it drops a state.
impl Drop for State {
    fn drop(self) {
        let State {
            globals: _,
            heap: _,
            finalisers: _,
            roster: _,
            next_goroutine: _,
            waiting: _,
            are_mutexes_enqueued: _,
            queue: _,
            output: _,
            next_ticket: _,
            recorded: _,
        } = self;
    }
}

impl State {
    /// Returns the state at the start: goroutine 1, started at this line, runs with these frames. Goroutine
    /// 0 has no frame, and there is no object.
    pub fn new(
        alloc: Global,
        globals: List<Value>,
        frames: List<Frame>,
        line: u32,
    ) -> Result<State, Memory>
        ensures { IfOk result (λ state. state ≡ opening globals (frame_views frames) line) }
    {
        let mut roster = Roster::new(alloc);
        roster.add(place_of(alloc, 0, List::new(alloc), 0)?)?;
        roster.add(place_of(alloc, 1, frames, line)?)?;
        Ok(State {
            globals,
            heap: Heap::new(alloc),
            finalisers: Finalisers::new(alloc),
            roster,
            next_goroutine: 2,
            waiting: Queues::new(alloc),
            are_mutexes_enqueued: true,
            queue: FinaliserQueue::new(alloc),
            output: List::new(alloc),
            next_ticket: 0,
            recorded: None,
        })
    }

    /// Returns a copy of the state, which is equal to it. It has room to spare for two operands a frame.
    pub fn copy(&self, alloc: Global) -> Result<State, Memory>
        ensures { IfOk result (λ copy. copy ≡ self.now) }
    {
        let globals = copied_list(alloc, self.globals.as_slice())?;
        let heap = self.heap.copy(alloc)?;
        let finalisers = self.finalisers.copy(alloc)?;
        let roster = copied_roster(alloc, self.roster.blocks())?;
        let waiting = self.waiting.copy(alloc)?;
        let queue = self.queue.copy(alloc)?;
        let output = copied_list(alloc, self.output.as_slice())?;
        Ok(State {
            globals,
            heap,
            finalisers,
            roster,
            next_goroutine: self.next_goroutine,
            waiting,
            are_mutexes_enqueued: self.are_mutexes_enqueued,
            queue,
            output,
            next_ticket: self.next_ticket,
            recorded: self.recorded,
        })
    }

    // ---- what it says, without memory

    /// Returns how many goroutines run. Goroutine 0 counts, also if it has nothing to call.
    #[inline(always)]
    pub fn running_count(&self) -> usize
        ensures { result ≡ length (running_of self.now.goroutines) }
    {
        self.roster.running_count()
    }

    /// Returns the goroutines that can run, in rising order of number.
    #[inline(always)]
    pub fn runnable(&self) -> Runnable<'_>
        ensures all { result ≡ runnable self.now }
        ensures rises { IsRising self.now.goroutines }
    {
        if has_no_call(self.queue.as_slice(), &self.roster) {
            Runnable::new(&self.roster, 1)
        } else {
            Runnable::new(&self.roster, 0)
        }
    }

    /// Returns how many goroutines can run.
    #[inline(always)]
    pub fn runnable_count(&self) -> usize
        ensures { result ≡ length (runnable self.now) }
    {
        self.runnable().count()
    }

    /// Returns the goroutine at this place among those that can run, in rising order of number.
    #[inline(always)]
    pub fn runnable_at(&self, place: usize) -> GoroutineId
        requires { place < length (runnable self.now) }
        ensures at { slice_get (runnable self.now) place ≡ Some result.0 }
        ensures rises { IsRising self.now.goroutines }
    {
        self.runnable().at(place)
    }

    // Whether no goroutine can run. If two run, at least one of them can, whatever goroutine 0 has to call.
    #[inline(always)]
    fn is_asleep(&self) -> bool
        ensures { result ≡ not (not_empty (runnable self.now)) }
    {
        self.roster.running_count() < 2 && self.runnable_count() == 0
    }

    /// Returns how the program has ended, or `None`. It is the recorded ending, or asleep if no goroutine
    /// can run.
    #[inline(always)]
    pub fn ending(&self) -> Option<Ending>
        ensures { result ≡ ending self.now }
    {
        if self.recorded.is_none() && self.is_asleep() {
            return Some(Ending::Asleep);
        }
        self.recorded
    }

    /// Returns the goroutines that have not ended, in rising order of number. Goroutine 0 is among them.
    pub fn goroutines(&self, alloc: Global) -> Result<List<GoroutineId>, Memory>
        ensures present { IfOk result (λ gs. map (λ g. g.0) gs ≡ keys self.now.goroutines) }
        ensures rises { IsRising self.now.goroutines }
        ensures zero { IsSome (find 0 self.now.goroutines) }
    {
        self.roster.numbers(alloc)
    }

    /// Returns the goroutine of this number, or `None` if it has ended or never was.
    #[inline(always)]
    pub fn goroutine(&self, g: GoroutineId) -> Option<&Goroutine>
        ensures { option_map (λ r. goroutine_view r.now) result ≡ find g.0 self.now.goroutines }
    {
        self.roster.get(g.0)
    }

    /// Returns the innermost frame of a goroutine, or `None`.
    #[inline(always)]
    pub fn frame(&self, g: GoroutineId) -> Option<&Frame>
        ensures { option_map (λ f. frame_view f.now) result ≡ slice_get (frames_of g.0 self.now) 0 }
    {
        let goroutine = self.goroutine(g)?;
        goroutine.frames.as_slice().last()
    }

    /// Returns how many frames a goroutine has, or 0 if it is not there.
    pub fn depth(&self, g: GoroutineId) -> usize
        ensures { result ≡ length (frames_of g.0 self.now) }
    {
        match self.goroutine(g) {
            Some(goroutine) => goroutine.frames.len(),
            None => 0,
        }
    }

    /// Returns the globals.
    pub fn globals(&self) -> &[Value]
        ensures { result.now ≡ self.now.globals }
    {
        self.globals.as_slice()
    }

    /// Returns the heap: the objects, and the last number that was given. If each reference of the state is
    /// to an object that is there, the numbers of the objects rise up to the last one.
    pub fn heap(&self) -> &Heap
        ensures objects { result.now ≡ record { objects = self.now.objects; last = self.now.last_object } }
        ensures numbered { IsWhole self.now → Numbered self.now }
    {
        // This call gives the clause on the numbers of objects.
        self.heap.count();
        &self.heap
    }

    /// Returns the function of an object's finaliser, or `None`.
    pub fn finaliser(&self, object: ObjectId) -> Option<u32>
        ensures { result ≡ find object.0 self.now.finalisers }
    {
        self.finalisers.function_of(object.0)
    }

    /// Returns the finaliser queue, the next entry first.
    pub fn queue(&self) -> &[Queued]
        ensures { result.now ≡ self.now.queue }
    {
        self.queue.as_slice()
    }

    /// Returns the first waiter of the object on this side, or `None`: the waiter with the smallest ticket.
    /// It looks only at the wait queue there. For a mutex it looks at all goroutines after memory has run
    /// out for a place in a queue.
    #[inline(always)]
    pub fn first_waiter(&self, object: ObjectId, side: Side) -> Option<Waiting>
        ensures first { result ≡ option_map waiting_of (first object.0 side self.now.goroutines) }
        ensures blocked { IfSome (first object.0 side self.now.goroutines) (λ w. find w.number self.now.goroutines ≡ Some w.goroutine × is_running w.goroutine.mode ≡ false) }
        ensures rises { IsRising self.now.goroutines }
    {
        if has_queue(self.are_mutexes_enqueued, side) {
            first_in_queue(
                self.waiting.holders(object, side),
                &self.roster,
                object,
                side,
            )
        } else {
            first_waiter(self.roster.blocks(), object, side)
        }
    }

    /// Returns the output that was not cleared.
    pub fn output(&self) -> &[u8]
        ensures { result.now ≡ self.now.output }
    {
        self.output.as_slice()
    }

    /// Returns the number that the next goroutine gets.
    pub fn next_goroutine(&self) -> u32
        ensures { result ≡ self.now.next_goroutine }
    {
        self.next_goroutine
    }

    /// Returns the ticket that the next goroutine to block gets.
    pub(crate) fn next_ticket(&self) -> u64
        ensures { result ≡ self.now.next_ticket }
    {
        self.next_ticket
    }

    /// Returns how the program has ended, or `None` if that is not recorded.
    pub(crate) fn recorded(&self) -> Option<Ending>
        ensures { result ≡ self.now.recorded }
    {
        self.recorded
    }

    // ---- objects

    /// Makes an object, and returns its number, which is the next one.
    pub fn make(&mut self, object: Object) -> Result<ObjectId, Memory>
        ensures number { IfOk result (λ id. id.0 ≡ self.old.last_object + 1) }
        ensures ok { OnOk result (self.new ≡ make object self.old) }
        ensures err { OnErr result (self.new ≡ self.old) }
    {
        self.heap.make(object)
    }

    /// Replaces the object of this number, if it is there.
    pub fn replace(&mut self, object: ObjectId, with: Object)
        ensures { self.new ≡ replace object.0 with self.old }
    {
        self.heap.put(object, with);
    }

    /// Lends an object, which the caller may change or replace.
    #[inline(always)]
    pub fn object_mut(&mut self, object: ObjectId) -> &mut Object
        requires { IsSome (find object.0 self.old.objects) }
        ensures* writes_back { sem 𝓛 (LendsStateObject self.entry object.0 result) }
        ensures value { find object.0 self.old.objects ≡ Some result.now }
        ensures rises { Rises 1 self.old.objects }
    {
        self.heap.get_mut(object)
    }

    // ---- goroutines

    /// Lends the frames of a running goroutine, the innermost one last.
    #[inline(always)]
    pub fn frames_mut(&mut self, g: GoroutineId) -> &mut List<Frame>
        requires { runs g.0 self.old ≡ true }
        ensures* writes_back { sem 𝓛 (LendsFrames self.entry g.0 result) }
        ensures value { frame_views result.now ≡ frames_of g.0 self.old }
        ensures same { reframed g.0 (frames_of g.0 self.old) self.old ≡ self.old }
        ensures rises { IsRising self.old.goroutines }
    {
        let goroutine = self.roster.get_mut(g.0);
        &mut goroutine.frames
    }

    /// Lends the frames of a running goroutine, the innermost one last, and with them the globals.
    #[inline(always)]
    pub fn frames_and_globals(&mut self, g: GoroutineId) -> (&mut List<Frame>, &[Value])
        requires { runs g.0 self.old ≡ true }
        ensures* writes_back { sem 𝓛 (LendsFrames self.entry g.0 result.0) }
        ensures value { frame_views result.0.now ≡ frames_of g.0 self.old }
        ensures globals { result.1.now ≡ self.old.globals }
        ensures same { reframed g.0 (frames_of g.0 self.old) self.old ≡ self.old }
        ensures rises { IsRising self.old.goroutines }
    {
        let globals = self.globals.as_slice();
        let goroutine = self.roster.get_mut(g.0);
        (&mut goroutine.frames, globals)
    }

    /// Clears the innermost frame of a goroutine, if the goroutine is there, runs and has a frame. The
    /// slots that no instruction from the frame's next one on can read become 0. If the frame is leaving,
    /// all slots do. It takes no memory.
    #[inline(always)]
    pub fn clear_slots(&mut self, code: &Code, g: GoroutineId)
        ensures { self.new ≡ apply_all (clears code.now g.0 (find g.0 self.old.goroutines)) self.old }
    {
        if self.roster.has(g.0) {
            clear_goroutine(code, self.roster.get_mut(g.0));
        }
    }

    /// Starts a goroutine with these frames, at this line, and returns its number.
    pub fn spawn(&mut self, frames: List<Frame>, line: u32) -> Result<GoroutineId, Memory>
        ensures number { IfOk result (λ g. g.0 ≡ self.old.next_goroutine) }
        ensures ok { OnOk result (self.new ≡ spawn (record { frames = frame_views frames; mode = Mode.Running; started = line }) self.old) }
        ensures err { OnErr result (self.new ≡ self.old) }
    {
        let number = self.next_goroutine;
        let next = number.checked_add(1).ok_or(Memory)?;
        let place = place_of(self.queue.allocator(), number, frames, line)?;
        self.roster.add(place)?;
        self.next_goroutine = next;
        Ok(GoroutineId(number))
    }

    /// Blocks the goroutine, with the next ticket. Its innermost frame goes on at `after`, without its last
    /// `taken` operands. The frame gets room for two more, so a later wake takes no memory.
    #[inline(always)]
    pub fn block(
        &mut self,
        g: GoroutineId,
        kind: WaitKind,
        line: u32,
        waits: Waits,
        after: u32,
        taken: usize,
    ) -> Result<(), Memory>
        ensures ok { OnOk result (self.new ≡ looked_up g.0 (λ r. block g.0 kind line waits (advanced after taken r)) self.old) }
        ensures err { OnErr result (self.new ≡ self.old) }
    {
        let ticket = self.next_ticket;
        let next_ticket = ticket.checked_add(1).ok_or(Memory)?;
        if !self.roster.has(g.0) {
            return Ok(());
        }
        self.waiting.enter_all(waits.as_slice(), ticket, g)?;
        let goroutine = self.roster.get_mut(g.0);
        settle(goroutine, after, taken)?;
        goroutine.mode = Mode::Blocked {
            kind,
            line,
            waits,
            ticket,
        };
        self.roster.stop_running(g.0);
        self.next_ticket = next_ticket;
        Ok(())
    }

    /// Wakes the blocked goroutine: it leaves its wait queues and runs. It takes no memory.
    #[inline(always)]
    pub fn wake(&mut self, g: GoroutineId, how: Wakening)
        requires { is_blocked g.0 self.old ≡ true }
        ensures { self.new ≡ looked_up g.0 (λ r. become g.0 (wakened how r)) self.old }
    {
        let goroutine = self.roster.get_mut(g.0);
        leave_queues(&mut self.waiting, g, &goroutine.mode);
        waken(goroutine, how);
        self.roster.start_running(g.0);
    }

    /// Wakes all goroutines that wait on the object, as far as `how` says. It takes no memory, and looks
    /// only at the wait queue there.
    pub fn wake_all(&mut self, object: ObjectId, how: Waking)
        ensures { self.new ≡ wake_all object.0 (waking_of how) self.old }
    {
        wake_all(self, object, how);
    }

    /// Returns a ticket above those of all waiters of the object on this side that are woken.
    pub(crate) fn ticket_bound(&self, object: ObjectId, side: Side, how: Waking) -> u64
        ensures { AreWokenBelow result object.0 side how self.now.goroutines }
    {
        match how {
            Waking::Closing(_) | Waking::AtZero | Waking::ToReaders(None) => self.next_ticket,
            Waking::ToReaders(Some(below)) => below,
        }
    }

    /// Returns the last entry of the wait queue whose ticket is below this one, or `None`.
    pub(crate) fn holder_before(
        &self,
        object: ObjectId,
        side: Side,
        ticket: u64,
    ) -> Option<TicketHolder>
        requires { has_queue false side ≡ true }
        ensures last { IsHolderBelow ticket object.0 side self.now.goroutines result }
        ensures rises { IsRising self.now.goroutines }
        ensures few { length self.now.goroutines ≤ 2 ^ 32 }
    {
        last_before(self.waiting.holders(object, side), ticket)
    }

    /// Returns whether the goroutine of this entry waits on the object with that side and that ticket.
    pub(crate) fn is_waiting(&self, holder: TicketHolder, object: ObjectId, side: Side) -> bool
        ensures { result ≡ is_some (waiter_by object.0 side self.now.goroutines (holder.ticket, holder.goroutine.0)) }
    {
        waiter_by(holder, &self.roster, object, side).is_some()
    }

    /// Returns how the goroutine goes on if it is woken with all waiters of the object, or `None` if it is
    /// not.
    pub(crate) fn wakening(&self, g: GoroutineId, object: ObjectId, how: Waking) -> Option<Wakening>
        ensures { result ≡ wakening_in (find g.0 self.now.goroutines) object.0 how }
    {
        let goroutine = self.goroutine(g)?;
        wakening_of(&goroutine.mode, object, how)
    }

    /// Returns how many readers of a reader and writer mutex are served: those with a ticket below `below`,
    /// or all.
    pub fn readers_next(&self, object: ObjectId, below: Option<u64>) -> usize
        ensures count { result ≡ readers_next below object.0 self.now.goroutines }
        ensures few { result ≤ 2 ^ 32 }
    {
        readers_next(self, object, below)
    }

    // Lets the one wait of a blocked goroutine become a wait for the mutex, with the next ticket. If memory
    // runs out for its place in the queue, no one looks at the queues of mutexes any more.
    fn move_wait(&mut self, g: GoroutineId, mutex: ObjectId)
        requires blocked { is_blocked g.0 self.old ≡ true }
        requires tickets { self.old.next_ticket + 1 < 2 ^ 64 }
        ensures { self.new ≡ looked_up g.0 (move_wait g.0 mutex.0) self.old }
    {
        let goroutine = self.roster.get_mut(g.0);
        leave_queues(&mut self.waiting, g, &goroutine.mode);
        move_mode(&mut goroutine.mode, mutex, self.next_ticket);
        let is_enqueued = self.are_mutexes_enqueued;
        self.are_mutexes_enqueued = enter_for_mutex(
            &mut self.waiting,
            is_enqueued,
            mutex,
            self.next_ticket,
            g,
        );
        self.next_ticket += 1;
    }

    /// Passes the blocked goroutine on from a condition to its mutex. An unlocked mutex becomes locked, and
    /// the goroutine runs. For a locked mutex the goroutine waits from now on, with the next ticket. It
    /// cannot run out of memory.
    pub fn requeue(&mut self, g: GoroutineId, mutex: ObjectId)
        requires blocked { is_blocked g.0 self.old ≡ true }
        requires tickets { self.old.next_ticket + 1 < 2 ^ 64 }
        ensures { self.new ≡ requeue g.0 mutex.0 (find g.0 self.old.goroutines) (find mutex.0 self.old.objects) self.old }
    {
        match self.heap.get(mutex) {
            Some(Object::Mutex(false)) => {
                self.heap.put(mutex, Object::Mutex(true));
                self.wake(g, Wakening::Released);
            }
            Some(Object::Mutex(true)) => self.move_wait(g, mutex),
            Some(Object::Struct(_)) => {}
            Some(Object::Slice(_)) => {}
            Some(Object::Chan(_)) => {}
            Some(Object::Group(_)) => {}
            Some(Object::Rw(_)) => {}
            Some(Object::Cond(_)) => {}
            None => {}
        }
    }

    /// Returns whether there are enough tickets for each goroutine to take one more.
    pub fn has_tickets(&self) -> bool
        ensures { IsTrue result ↔ (self.now.next_ticket + length self.now.goroutines < 2 ^ 64) }
    {
        let count = self.roster.count() as u64;
        self.next_ticket.checked_add(count).is_some()
    }

    /// Ends the goroutine, which is not goroutine 0.
    pub fn leave(&mut self, g: GoroutineId)
        requires { 0 < g.0 }
        ensures { self.new ≡ leave g.0 self.old }
    {
        forget(&mut self.waiting, &self.roster, g);
        self.roster.take(g.0);
    }

    // ---- the program

    /// Records how the program has ended.
    pub fn finish(&mut self, ending: Ending)
        ensures { self.new ≡ finish ending self.old }
    {
        self.recorded = Some(ending);
    }

    /// Sets a global, if it is there.
    pub fn set_global(&mut self, global: u32, value: Value)
        ensures { self.new ≡ set_global global value self.old }
    {
        if (global as usize) < self.globals.len() {
            self.globals.set(global as usize, value);
        }
    }

    /// Sets the finaliser of the object, which has none. On `Err` the state is unchanged.
    pub fn set_finaliser(&mut self, object: ObjectId, function: u32) -> Result<(), Memory>
        requires { find object.0 self.old.finalisers ≡ None }
        ensures ok { OnOk result (self.new ≡ set_finaliser object.0 function self.old) }
        ensures err { OnErr result (self.new ≡ self.old) }
    {
        self.finalisers.put(object.0, function)
    }

    /// Removes the object's finaliser, if it has one.
    pub fn clear_finaliser(&mut self, object: ObjectId)
        ensures { self.new ≡ clear_finaliser object.0 self.old }
    {
        self.finalisers.take(object.0);
    }

    // ---- collections

    /// Returns whether any object has a finaliser.
    pub fn has_finaliser(&self) -> bool
        ensures { result ≡ not_empty self.now.finalisers }
    {
        self.finalisers.count() > 0
    }

    /// Returns the finalisers in rising order of their objects' numbers, each with its function.
    pub fn finalisers(&self, alloc: Global) -> Result<List<(u32, u32)>, Memory>
        ensures { IfOk result (λ finalisers. finalisers ≡ self.now.finalisers) }
    {
        self.finalisers.list(alloc)
    }

    /// Moves the finalisers whose flag is false to the end of the finaliser queue, and returns how many it
    /// moved. On `Err` the state is unchanged.
    pub fn queue_finalisers(&mut self, stays: &[bool]) -> Result<usize, Memory>
        requires { length stays.now ≡ length self.old.finalisers }
        ensures ok { OnOk result (self.new ≡ queue_unflagged stays.now self.old) }
        ensures count { IfOk result (λ count. length self.new.queue ≡ length self.old.queue + count) }
        ensures err { OnErr result (self.new ≡ self.old) }
    {
        let entries = self.finalisers.unflagged(self.queue.allocator(), stays)?;
        self.queue.add(entries.as_slice())?;
        self.finalisers.retain(stays);
        Ok(entries.len())
    }

    /// Frees the objects whose flag is false. The flags are in rising order of number. It takes no memory.
    pub fn retain_objects(&mut self, keep: &[bool])
        requires { length keep.now ≡ length self.old.objects }
        ensures { self.new ≡ record self.old { objects = kept keep.now self.old.objects } }
    {
        self.heap.retain(keep);
    }

    /// Removes the goroutines whose flag is false, and then the empty wait queues. The flags are in rising
    /// order of number. Goroutine 0 stays. It takes no memory, and looks at the entries of wait queues only
    /// if it removes a goroutine.
    pub fn retain_goroutines(&mut self, stays: &[bool])
        requires count { length stays.now ≡ length self.old.goroutines }
        requires zero { IsSome (find 0 (kept stays.now self.old.goroutines)) }
        ensures { self.new ≡ record self.old { goroutines = kept stays.now self.old.goroutines } }
    {
        let were = self.roster.count();
        self.roster.retain(stays);
        narrow_queues(&mut self.waiting, &self.roster, were);
    }

    // ---- the queue and the output

    /// Takes the next entry of the finaliser queue, or returns `None`. It takes no memory, and costs the
    /// same however long the queue is.
    pub fn take_queued(&mut self) -> Option<Queued>
        ensures first { result ≡ slice_get self.old.queue 0 }
        ensures rest { self.new ≡ take_queued self.old }
    {
        self.queue.take()
    }

    /// Adds to the output. On `Err` the state is unchanged.
    pub fn add_output(&mut self, piece: &[u8]) -> Result<(), Memory>
        ensures ok { OnOk result (self.new ≡ output_of piece.now self.old) }
        ensures err { OnErr result (self.new ≡ self.old) }
    {
        self.output.extend_from_slice(piece)
    }

    /// Drops the output, after it was written.
    pub fn clear_output(&mut self)
        ensures { self.new ≡ record self.old { output = [] } }
    {
        self.output.clear();
    }
}
