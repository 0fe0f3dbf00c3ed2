//! Clears the slots that no instruction can read any more, after a turn.
//!
//! The code has a mask for each position of a function: the slots that an instruction from there on can
//! read.

ghost use Rattle.std.specs.Prelude.{◌≡◌, Some};
ghost use Rattle.golf_model.specs.Views.{frame_view, frame_views, goroutine_view};
ghost use Rattle.golf_model.specs.ClearedSlots.{mask_at, cleared};
ghost use Rattle.golf_model.specs.Wakes.{on_top};
ghost use Rattle.golf_state.specs.ClearedFrames.{tidied};
ghost use Rattle.golf_state_goroutines.specs.Roominess.{IsReadyIn};

use crate::frames::top_mut;
use golf_base::List;
use golf_data::{Code, Frame, Goroutine, Leaving};
use golf_state_goroutines::is_running;

// The mask of a position in a function.
#[inline(always)]
fn mask_at(code: &Code, function: u32, at: u32) -> Option<u64>
    ensures { result ≡ mask_at code.now function at }
{
    let function = code.functions.as_slice().get(function as usize)?;
    function.live.as_slice().get(at as usize).copied()
}

// Sets to 0 the slots that no instruction from the frame's next one on can read. If the frame is leaving,
// sets all of them to 0.
#[inline(always)]
fn clear_frame(code: &Code, frame: &mut Frame)
    ensures { frame_view frame.new ≡ cleared code.now (frame_view frame.old) }
{
    match frame.leaving {
        Leaving::No => {
            if let Some(mask) = mask_at(code, frame.function, frame.at) {
                frame.values.clear_under(mask);
            }
        }
        Leaving::Returning(_) => frame.values.clear_slots(),
        Leaving::Unwinding(_) => frame.values.clear_slots(),
    }
}

// Clears the innermost frame, if there is one.
#[inline(always)]
fn clear_top(code: &Code, frames: &mut List<Frame>)
    ensures { frame_views frames.new ≡ on_top (cleared code.now) (frame_views frames.old) }
{
    if !frames.is_empty() {
        clear_frame(code, top_mut(frames));
    }
}

/// Clears the innermost frame of a goroutine, if the goroutine runs.
#[inline(always)]
pub fn clear_goroutine(code: &Code, goroutine: &mut Goroutine)
    ensures cleared { goroutine_view goroutine.new ≡ tidied code.now (goroutine_view goroutine.old) }
    ensures ready { IsReadyIn goroutine.old.mode goroutine.old.frames → IsReadyIn goroutine.new.mode goroutine.new.frames }
    ensures mode { goroutine.new.mode ≡ goroutine.old.mode }
{
    if is_running(&goroutine.mode) {
        clear_top(code, &mut goroutine.frames);
    }
}
