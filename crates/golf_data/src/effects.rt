//! The table of effects: how many operands each instruction takes and leaves, and whether the next
//! instruction follows it.

ghost use Rattle.std.specs.Prelude.{◌≡◌};
ghost use Rattle.golf_data.specs.Effects.{taken, left, goes_on, case_left as case_left_of, case_taken as case_taken_of};

use crate::code::{CaseKind, Instr};

/// What an instruction does to the operands of its frame.
#[derive(Clone, Copy, Debug, PartialEq, Eq)]
pub struct Effect {
    /// How many operands it takes.
    pub taken: u32,
    /// How many it leaves.
    pub left: u32,
    /// Whether the next instruction can follow it. It is true for a `select`, too, which goes on only at targets.
    pub goes_on: bool,
}

/// Returns what an instruction does to the operands of its frame. `gives` says for each function
/// whether it gives a value.
pub fn effect_of(gives: &[bool], instr: &Instr) -> Effect
    ensures taken { result.taken ≡ taken instr.now }
    ensures left { result.left ≡ left gives.now instr.now }
    ensures goes_on { result.goes_on ≡ goes_on instr.now }
{
    let goes_on = !matches!(
        instr,
        Instr::Jump(_) | Instr::Return | Instr::ReturnValue | Instr::Panic
    );
    let (taken, left) = match instr {
        Instr::Int(_) | Instr::Bool(_) | Instr::Text(_) | Instr::Unit | Instr::Nil => (0, 1),
        Instr::Load(_) | Instr::LoadGlobal(_) => (0, 1),
        Instr::Store(_) | Instr::StoreGlobal(_) | Instr::Drop | Instr::JumpIfNot(_) => (1, 0),
        Instr::Dup | Instr::ReceiveOk => (1, 2),
        Instr::Dup2 => (2, 4),
        Instr::Neg | Instr::Not | Instr::Receive => (1, 1),
        Instr::Add | Instr::Sub | Instr::Mul | Instr::Div | Instr::Rem => (2, 1),
        Instr::Eq | Instr::Less | Instr::AtMost | Instr::Index => (2, 1),
        Instr::NewStruct(_) | Instr::NewMutex | Instr::NewGroup | Instr::NewRw => (0, 1),
        Instr::NewCond | Instr::NewSlice(_) | Instr::NewChan(_) => (1, 1),
        Instr::Field(_) | Instr::Len | Instr::CondMutex => (1, 1),
        Instr::SetField(_) | Instr::Send | Instr::GroupAdd => (2, 0),
        Instr::SetIndex => (3, 0),
        Instr::Close | Instr::Select(_, _) => (1, 0),
        Instr::Lock | Instr::Unlock | Instr::GroupWait => (1, 0),
        Instr::RwLock | Instr::RwUnlock | Instr::ReadLock | Instr::ReadUnlock => (1, 0),
        Instr::CondWait | Instr::CondSignal | Instr::CondBroadcast => (1, 0),
        Instr::Call(function, count) => {
            let value = gives.get(*function as usize).copied().unwrap_or(false);
            (*count, u32::from(value))
        }
        Instr::Go(_, count) | Instr::Defer(_, count) | Instr::Print(count) => (*count, 0),
        Instr::Jump(_) | Instr::Return | Instr::Collect => (0, 0),
        Instr::ReturnValue | Instr::Panic => (1, 0),
        Instr::SetFinalizer(_) | Instr::ClearFinalizer => (1, 0),
    };
    Effect {
        taken,
        left,
        goes_on,
    }
}

/// Returns how many operands a case of a `select` leaves at its target.
pub fn case_left(kind: CaseKind) -> u32
    ensures { result ≡ case_left_of kind }
{
    match kind {
        CaseKind::Send => 0,
        CaseKind::Take => 1,
        CaseKind::TakeOk => 2,
    }
}

/// Returns how many operands a case of a `select` takes.
pub fn case_taken(kind: CaseKind) -> u32
    ensures { result ≡ case_taken_of kind }
{
    match kind {
        CaseKind::Send => 2,
        CaseKind::Take | CaseKind::TakeOk => 1,
    }
}
