//! Frames that are entered and left. On `Err` the frames are unchanged.
//!
//! A call pushes a frame. A return removes one and gives its value to the caller, and an unwinding passes
//! the fault on.

ghost use Rattle.std.specs.Prelude.{◌≡◌, ◌∷◌, [], OnOk, OnErr};
ghost use Rattle.golf_model.specs.Views.{frame_view, frame_views};
ghost use Rattle.golf_model.specs.Changes.{behind_first};
ghost use Rattle.golf_model.specs.Wakes.{unwinding, on_top};
ghost use Rattle.golf_state.specs.FrameChanges.{went, undeferred, returned, given_back, handed};

use crate::frames::{advance_frame, unwind};
use golf_base::{List, Memory};
use golf_data::{Fault, Frame, Value};

/// Enters a frame by a call: the caller goes on at `after`, without its last `taken` operands.
pub fn enter(frames: &mut List<Frame>, frame: Frame, after: u32, taken: usize) -> Result<(), Memory>
    ensures ok { OnOk result (frame_views frames.new ≡ frame_view frame ∷ on_top (went after taken []) (frame_views frames.old)) }
    ensures err { OnErr result (frame_views frames.new ≡ frame_views frames.old) }
{
    let count = frames.len();
    frames.push(frame)?;
    if count > 0 {
        advance_frame(frames.item_mut(count - 1), after, taken);
    }
    Ok(())
}

// Removes the latest deferred call.
fn take_deferred(frame: &mut Frame)
    ensures { frame_view frame.new ≡ undeferred (frame_view frame.old) }
{
    frame.deferred.pop();
}

/// Enters a frame by the latest deferred call of the innermost frame, and removes that call from its list.
pub fn enter_deferred(frames: &mut List<Frame>, frame: Frame) -> Result<(), Memory>
    ensures ok { OnOk result (frame_views frames.new ≡ frame_view frame ∷ on_top undeferred (frame_views frames.old)) }
    ensures err { OnErr result (frame_views frames.new ≡ frame_views frames.old) }
{
    let count = frames.len();
    frames.push(frame)?;
    if count > 0 {
        take_deferred(frames.item_mut(count - 1));
    }
    Ok(())
}

// Adds an operand.
fn add_operand(frame: &mut Frame, value: Value) -> Result<(), Memory>
    ensures ok { OnOk result (frame_view frame.new ≡ given_back value (frame_view frame.old)) }
    ensures err { OnErr result (frame_view frame.new ≡ frame_view frame.old) }
{
    frame.values.push(value)
}

// Gives the value of the innermost frame to its caller, unless the frame discards it.
fn hand_back(frames: &mut List<Frame>, value: Value) -> Result<(), Memory>
    ensures ok { OnOk result (frame_views frames.new ≡ handed value (frame_views frames.old)) }
    ensures err { OnErr result (frame_views frames.new ≡ frame_views frames.old) }
{
    let count = frames.len();
    if count < 2 || frames.as_slice()[count - 1].discards {
        return Ok(());
    }
    add_operand(frames.item_mut(count - 2), value)
}

/// Leaves the innermost frame by a return, and gives its value to the caller, unless the frame discards it.
pub fn return_frame(frames: &mut List<Frame>, value: Option<Value>) -> Result<(), Memory>
    ensures ok { OnOk result (frame_views frames.new ≡ returned value (frame_views frames.old)) }
    ensures err { OnErr result (frame_views frames.new ≡ frame_views frames.old) }
{
    if let Some(value) = value {
        hand_back(frames, value)?;
    }
    frames.pop();
    Ok(())
}

/// Leaves the innermost frame by unwinding, so its caller unwinds.
pub fn unwind_caller(frames: &mut List<Frame>, fault: Fault)
    ensures { frame_views frames.new ≡ on_top (unwinding fault) (behind_first (frame_views frames.old)) }
{
    frames.pop();
    unwind(frames, fault);
}
