//! Laws of all schedules of a code: what a closed list of states shows of every run.
//!
//! A list is closed up to a relation by which one state stands for another (`StandsFor`). No turn leaves it: after the
//! turn some states that stand for each other, or none, lead back to a listed state.
//!
//! Frame-local turns give such a relation. They commute with the turns of all other goroutines, so the states between
//! need not be listed. Alike states give one too: they differ in the numbers of goroutines and in tickets alone, so one
//! of them is enough.
//!
//! A run is any list of turns and collections. No law asks that goroutines are treated fairly. The statements are in
//! `specs/`, the proofs in `proofs/`.
#![tactic(auto)]

ghost use Rattle.golf_explore_laws.specs.Local.{LocalChangesCommute, LocalInstructions, LocalTurns};
ghost use Rattle.golf_explore_laws.specs.Laws.{
  AlikeBack,
  AlikeListsNeverEnd,
  AlikeListsNeverLeak,
  AlikeListsNeverReport,
  AlikeListsReportNobody,
  AlikeRankedListsEnd,
  AlikeSelf,
  AlikeStatesStandFor,
  AlikeThen,
  ClosedListsNeverEnd,
  ClosedListsNeverLeak,
  ClosedListsNeverPanic,
  ClosedListsNeverReport,
  ClosedListsNeverSleep,
  ClosedListsReportNobody,
  ClosedUpToLocal,
  LocalTurnsStandFor,
  RankedListsAlwaysEnd,
  RankedListsEnd,
  RankedUpToLocal,
  TurnsByChoice,
};

/// States that the turn of any number is one of finitely many turns.
///
/// It is a turn of a goroutine that can run. Its choice is 0, unless the goroutine is at a `select`; then the choice is
/// below the number of cases, or 0 if there are no cases.
pub fn turns_by_choice()
    ensures { TurnsByChoice }
{}

/// States that a code never leaks if a closed list of its states has no dead goroutine.
///
/// Then no state of a run has a dead goroutine before the run's end. No collection of a run finds one, and no report of
/// a run names one, with and without recovery.
pub fn closed_lists_never_leak()
    ensures leaks { ClosedListsNeverLeak }
    ensures reports { ClosedListsNeverReport }
    ensures nobody { ClosedListsReportNobody }
{}

/// States that a run of a code has no ending that no state of a closed list has.
///
/// So no run ends by a panic or a fatal error if no listed state does. The same holds for an ending with all goroutines
/// asleep.
pub fn closed_lists_never_end()
    ensures any { ClosedListsNeverEnd }
    ensures panics { ClosedListsNeverPanic }
    ensures asleep { ClosedListsNeverSleep }
{}

/// States that each run of a code ends if listed states have ranks that fall.
///
/// The rank of a listed state is above the frame-local turns after one of its turns and the rank that they lead to.
/// A run ends within as many turns as the frame-local turns from the opening state and the rank that they lead to.
pub fn ranked_lists_end()
    ensures within { RankedListsEnd }
    ensures always { RankedListsAlwaysEnd }
{}

/// States that the state after a frame-local turn stands for the one before it.
///
/// So the laws of lists that are closed up to a relation are laws of closed lists, and of ranks that fall.
pub fn local_turns_stand_for()
    ensures stand { LocalTurnsStandFor }
    ensures closed { ClosedUpToLocal }
    ensures ranked { RankedUpToLocal }
{}

/// States that a frame-local instruction has the same changes in each state and with each choice.
/// They change only the frames of its own goroutine, and the output.
///
/// Constants, slots, operands, arithmetic, comparisons, jumps, `defer`, prints and panics are
/// frame-local. So is a call that does not overflow the stack, and a return that is not the
/// goroutine's last.
pub fn local_instructions()
    ensures { LocalInstructions }
{}

/// States that a frame-local turn of a goroutine depends only on the goroutine's own entry.
///
/// The turn changes nothing else, output apart. The goroutine runs after it, and the same goroutines can run. A frame
/// that is leaving takes such turns too: it begins a deferred call, or its caller goes on.
pub fn local_turns()
    ensures { LocalTurns }
{}

/// States that a frame-local turn of a goroutine can be exchanged with each change of another turn.
///
/// The change must not be a change of this goroutine, and must not give its number.
pub fn local_changes_commute()
    ensures { LocalChangesCommute }
{}

/// States that each of two alike states stands for the other.
///
/// Alike states differ in the numbers of their goroutines and in tickets alone. The order of those that wait on one
/// object is the same. To be alike is an equivalence of the states of runs.
pub fn alike_states_stand_for()
    ensures stand { AlikeStatesStandFor }
    ensures back { AlikeBack }
    ensures then { AlikeThen }
    ensures own { AlikeSelf }
{}

/// States that a code never leaks if no listed state has a dead goroutine, and the list is closed up to frame-local
/// turns and alike states. No collection of a run finds one, and no report of a run names one.
pub fn alike_lists_never_leak()
    ensures leaks { AlikeListsNeverLeak }
    ensures reports { AlikeListsNeverReport }
    ensures nobody { AlikeListsReportNobody }
{}

/// States that a run has no ending of a kind that no state of such a list has.
pub fn alike_lists_never_end()
    ensures { AlikeListsNeverEnd }
{}

/// States that a run ends within a bound if listed states have ranks that fall, up to frame-local turns and alike
/// states.
pub fn alike_ranked_lists_end()
    ensures { AlikeRankedListsEnd }
{}
