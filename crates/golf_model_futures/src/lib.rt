//! Laws of the plain machine: what every change, instruction, turn, collection and run keeps.
//!
//! The main word is `Closed`: a set of objects and a set of goroutines that a run does not leave.
//!
//! Each function here has one law as its contract. The statements and the invariants are in
//! `specs/`, the proofs in `proofs/`.
#![tactic(auto)]

ghost use Rattle.golf_model_futures.specs.Laws.{
  BookTellsOfEach,
  ChangesKeep,
  CollectionsKeep,
  DeadAreStill,
  InstructionsMoveMembers,
  InstructionsSame,
  LeadsNumber,
  LiveIsClosed,
  PrintingApart,
  RealRunsAgree,
  RecoveryUnseen,
  ReferencesPresent,
  ReportedAreStill,
  TurnsCut,
  TurnsKeep,
};
ghost use Rattle.golf_model_futures.specs.OrderLaws.{
  ChangesKeepOrder,
  CollectionsKeepOrder,
  CollectionsKeepWhole,
  FinaliserGoroutineLives,
  FinaliserGoroutineUnreported,
  InstructionsKeepOrder,
  LeadsOrderly,
  LeadsWhole,
  TurnsKeepOrder,
};

/// States that a blocked goroutine outside the live set takes no step in any continuation.
///
/// This holds for every code, every state with its numbers in order, and every list of turns and
/// collections. The goroutine keeps its frames, its waits and its ticket.
pub fn dead_are_still()
    ensures { DeadAreStill }
{}

/// States that every state that moves reach has its numbers in order and no reference above the
/// last object's number. Moves start from the opening state of any code.
pub fn leads_number()
    ensures { LeadsNumber }
{}

/// States that the live set, with all numbers that are not given yet, is closed.
pub fn live_is_closed()
    ensures { LiveIsClosed }
{}

/// States that a change that concerns only members of closed sets keeps them closed and leaves the
/// rest.
pub fn changes_keep()
    ensures { ChangesKeep }
{}

/// States two laws of instructions. The changes of an instruction concern only members of each
/// closed set that its goroutine belongs to. The instruction has the same changes in a state
/// without the rest.
pub fn instruction_laws()
    ensures moves { InstructionsMoveMembers }
    ensures same { InstructionsSame }
{}

/// States that a collection keeps closed sets closed, once the objects that it queues have joined
/// them.
pub fn collections_keep()
    ensures { CollectionsKeep }
{}

/// States that a turn keeps closed sets closed, leaves the rest, and is the same turn if the rest
/// is cut.
pub fn turn_laws()
    ensures keep { TurnsKeep }
    ensures same { TurnsCut }
{}

/// States that recovery cannot be seen, in every state that moves reach.
///
/// A collection with recovery removes dead goroutines that are not kept, and frees the objects that
/// the others do not reach. Every continuation then shows what it shows after a plain collection:
/// its output, its ending, its finaliser calls, and at each later collection the live objects and
/// the dead goroutines, except for the removed ones.
pub fn recovery_unseen()
    ensures { RecoveryUnseen }
{}

/// States that a goroutine that is dead right before a collection takes no step in any
/// continuation.
pub fn reported_are_still()
    ensures { ReportedAreStill }
{}

/// States that a real run agrees with the plain run, which frees and removes nothing.
///
/// Both print the same and end alike, and call the same finalisers on the same objects in the same
/// order. The reports of the real run are those of the plain run's book. This holds with and
/// without recovery.
pub fn real_runs_agree()
    ensures { RealRunsAgree }
{}

/// States which goroutines the book of a run reports: each goroutine that a collection finds
/// blocked outside the live set, once, at the first such collection, in rising order of number. It
/// names no other.
pub fn book_tells_of_each()
    ensures { BookTellsOfEach }
{}

/// States that in every state of a run each reference is to an object that exists.
pub fn references_are_present()
    ensures { ReferencesPresent }
{}

/// States that output from before a run changes nothing in the run.
pub fn printing_is_apart()
    ensures { PrintingApart }
{}

/// States that every state that moves reach is whole: each reference is to an object that exists,
/// and so is each object with a finaliser. Moves start from the opening state of any code.
pub fn leads_whole()
    ensures { LeadsWhole }
{}

/// States that a collection keeps a state whole, with and without recovery.
pub fn collections_keep_whole()
    ensures { CollectionsKeepWhole }
{}

/// States that every state that moves reach is orderly.
///
/// A blocked goroutine has a frame. Tickets of blocked goroutines differ and lie below the next
/// ticket. A condition on which a goroutine waits has a mutex that exists. Goroutine 0 exists.
pub fn leads_orderly()
    ensures { LeadsOrderly }
{}

/// States that each change, instruction, turn and collection keeps a state orderly.
pub fn order_is_kept()
    ensures changes { ChangesKeepOrder }
    ensures instructions { InstructionsKeepOrder }
    ensures turns { TurnsKeepOrder }
    ensures collections { CollectionsKeepOrder }
{}

/// States that goroutine 0, which runs finalisers, is live in every state and never dead. No report
/// of a run names it.
pub fn finaliser_goroutine_lives()
    ensures lives { FinaliserGoroutineLives }
    ensures unreported { FinaliserGoroutineUnreported }
{}
