//! The code of a file that breaks no rule has shapes, so it never gets stuck.
//!
//! Each function here has one law as its contract. The statements and the definitions are in `specs/`, the proofs in
//! `proofs/`.
#![tactic(auto)]

ghost use Rattle.golf_code_never_stuck.specs.Laws.{
  FilesHaveShapes,
  PlainRunsGoOn,
  ReachedDeadAreStill,
  ReachedGoesOn,
  ReachedMovesOn,
  ReachedRecoveryUnseen,
  ReachedTyped,
};

/// States that the code of a well-formed file that breaks no rule has shapes.
pub fn files_have_shapes()
    ensures { FilesHaveShapes }
{}

/// States that every state that moves reach from the opening state of such code is well typed.
pub fn reached_states_are_typed()
    ensures { ReachedTyped }
{}

/// States that no such state is stuck before its ending: a rule fits the turn of any goroutine.
pub fn reached_states_move_on()
    ensures { ReachedMovesOn }
{}

/// States that moves from a reached state reach only reached states, so none is stuck before its ending.
pub fn reached_states_go_on()
    ensures { ReachedGoesOn }
{}

/// States that a dead goroutine of a reached state takes no step in any continuation. The reason is not a missing rule:
/// no continuation is stuck.
pub fn reached_dead_are_still()
    ensures { ReachedDeadAreStill }
{}

/// States that a collection with recovery in a reached state cannot be seen, and that no state after it is stuck.
pub fn reached_recovery_unseen()
    ensures { ReachedRecoveryUnseen }
{}

/// States that the plain machine, which frees and reclaims nothing, is never stuck on such code.
/// This holds in its run, and in each continuation of the state right before one of its collections.
pub fn plain_runs_go_on()
    ensures { PlainRunsGoOn }
{}
