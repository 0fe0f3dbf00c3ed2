//! Well-typed code and well-typed states. A shape gives for a position of the code the types of the
//! operands and the assigned slots. There is one rule for each instruction.
//!
//! Each function here has one law as its contract. The statements and the definitions are in
//! `specs/`, the proofs in `proofs/`.
#![tactic(auto)]

ghost use Rattle.golf_model_typing.specs.ProgressLaws.{
  CollectionsKeepTypes,
  LeadsTyped,
  NeverStuck,
  StartIsTyped,
  TurnsKeepTypes,
  TypedStatesMoveOn,
};
ghost use Rattle.golf_model_typing.specs.Laws.{ChangesKeepTypes};
ghost use Rattle.golf_model_typing.specs.NeededSlots.{MaskedFit, NeededSlotsSuffice};

/// States that changes that fit types leave a well-typed state.
pub fn changes_keep_types()
    ensures { ChangesKeepTypes }
{}

/// States that a body that fits shapes still fits them if they ask only for needed slots. A slot is
/// needed if a path reaches a load of it without a store before.
pub fn needed_slots_suffice()
    ensures { NeededSlotsSuffice }
{}

/// States that a function that has its masks and fits shapes also fits shapes that ask for no
/// cleared slot.
pub fn masked_functions_fit()
    ensures { MaskedFit }
{}

/// States that the opening state of code that has shapes is well typed.
pub fn start_is_typed()
    ensures { StartIsTyped }
{}

/// States that a turn keeps a state well typed.
pub fn turns_keep_types()
    ensures { TurnsKeepTypes }
{}

/// States that a collection keeps a state well typed, with and without recovery.
pub fn collections_keep_types()
    ensures { CollectionsKeepTypes }
{}

/// States that a well-typed state without an ending moves on: a rule fits the turn of any
/// goroutine.
pub fn typed_states_move_on()
    ensures { TypedStatesMoveOn }
{}

/// States that every state that moves reach is well typed, if the code has shapes. Moves are turns,
/// collections and the emptying of the output, from the opening state.
pub fn leads_are_typed()
    ensures { LeadsTyped }
{}

/// States that no such state is stuck before its ending.
pub fn never_stuck()
    ensures { NeverStuck }
{}
