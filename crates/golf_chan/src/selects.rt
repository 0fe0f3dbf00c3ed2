//! A `select`. On `Err` the state is unchanged.
//!
//! The number of the turn chooses among the ready cases (Go specification, "Select statements"; this
//! runtime's rule).

ghost use Rattle.std.specs.Prelude.{◌≡◌, Some, reverse, drop, IfOk, OnErr, option_map};
ghost use Rattle.golf_model.specs.Selects.{selects, selects_from, selects_none, proceeds, chosen};
ghost use Rattle.golf_state.specs.ActorChanges.{Stands};
ghost use Rattle.golf_state.specs.Operands.{operands_of};
ghost use Rattle.golf_state.specs.Outcomes.{Comes};
ghost use Rattle.golf_chan.specs.Offers.{plain_offer, plain_offers};

use crate::offers::{Offer, Offered, all_on_channels, offers_of, ready_of, select_kind, waits_of};
use crate::receives::{Receiving, receive_on};
use crate::sends::send_on;
use golf_base::{GoroutineId, Memory};
use golf_data::{CaseKind, SelectCase, Value};
use golf_state::{Acting, Outcome, State, block_at, proceed};
use std::alloc::Global;

// All operands of a goroutine's innermost frame, the top one last.
fn operands(state: &State, g: GoroutineId) -> &[Value]
    ensures { reverse result.now ≡ operands_of g.0 state.now }
{
    match state.frame(g) {
        Some(frame) => frame.values.operands(),
        None => &[],
    }
}

// The ready case at this place, counted round, or `None` if no case is ready.
fn chosen(ready: &[Offer], choice: u64) -> Option<Offer>
    ensures { option_map plain_offer result ≡ chosen choice (plain_offers ready.now) }
{
    if ready.is_empty() {
        return None;
    }
    let at = choice % ready.len() as u64;
    Some(ready[at as usize])
}

// Takes a case as the operation alone would be done. The goroutine goes on at the target of the case.
fn take_case(
    alloc: Global,
    state: &mut State,
    acting: Acting,
    taken: usize,
    offer: Offer,
) -> Result<Outcome, Memory>
    requires { Stands acting.goroutine.0 acting.after state.old }
    ensures ok { IfOk result (λ outcome. Comes outcome (λ a. proceeds a (drop taken a.frame.operands) state.old (plain_offer offer)) acting.goroutine.0 acting.line state.old state.new) }
    ensures err { OnErr result (state.new ≡ state.old) }
{
    let Value::Ref(object) = offer.channel else {
        return Ok(Outcome::Stuck);
    };
    let (target, value) = (offer.target, offer.value);
    match offer.kind {
        CaseKind::Send => send_on(alloc, state, acting, target, taken, object, value),
        CaseKind::Take => {
            let receiving = Receiving {
                target,
                taken,
                with_ok: false,
            };
            receive_on(alloc, state, acting, receiving, object)
        }
        CaseKind::TakeOk => {
            let receiving = Receiving {
                target,
                taken,
                with_ok: true,
            };
            receive_on(alloc, state, acting, receiving, object)
        }
    }
}

// With no case ready: goes on at `default`, or else blocks on all cases.
fn take_none(
    alloc: Global,
    state: &mut State,
    acting: Acting,
    taken: usize,
    offers: &[Offer],
    otherwise: Option<u32>,
) -> Result<Outcome, Memory>
    requires { Stands acting.goroutine.0 acting.after state.old }
    ensures ok { IfOk result (λ outcome. Comes outcome (λ a. selects_none a (drop taken a.frame.operands) (plain_offers offers.now) otherwise) acting.goroutine.0 acting.line state.old state.new) }
    ensures err { OnErr result (state.new ≡ state.old) }
{
    if let Some(target) = otherwise {
        proceed(state, acting, target, taken);
        return Ok(Outcome::Done);
    }
    let waits = waits_of(alloc, offers)?;
    let kind = select_kind(offers);
    block_at(state, acting, acting.after, taken, kind, waits)?;
    Ok(Outcome::Blocked)
}

// Does a `select` whose cases have their operands.
fn select_from(
    alloc: Global,
    state: &mut State,
    acting: Acting,
    offered: &Offered,
    otherwise: Option<u32>,
    choice: u64,
) -> Result<Outcome, Memory>
    requires { Stands acting.goroutine.0 acting.after state.old }
    ensures ok { IfOk result (λ outcome. Comes outcome (λ a. selects_from a state.old choice otherwise (Some (plain_offers offered.now.offers, drop offered.now.taken a.frame.operands))) acting.goroutine.0 acting.line state.old state.new) }
    ensures err { OnErr result (state.new ≡ state.old) }
{
    let offers = offered.offers.as_slice();
    if !all_on_channels(state, offers) {
        return Ok(Outcome::Stuck);
    }
    let ready = ready_of(alloc, state, offers)?;
    match chosen(ready.as_slice(), choice) {
        Some(offer) => take_case(alloc, state, acting, offered.taken, offer),
        None => take_none(alloc, state, acting, offered.taken, offers, otherwise),
    }
}

/// Does one ready case of a `select`, for the goroutine whose turn it is. The case is the one at the place
/// `choice`, counted round, of those that would not block, in source order. If none is ready, the goroutine
/// goes on at `default`. Without a `default` it blocks on the channels of all cases.
pub fn select(
    alloc: Global,
    state: &mut State,
    acting: Acting,
    cases: &[SelectCase],
    otherwise: Option<u32>,
    choice: u64,
) -> Result<Outcome, Memory>
    requires { Stands acting.goroutine.0 acting.after state.old }
    ensures ok { IfOk result (λ outcome. Comes outcome (λ a. selects a state.old choice cases.now otherwise) acting.goroutine.0 acting.line state.old state.new) }
    ensures err { OnErr result (state.new ≡ state.old) }
{
    match offers_of(alloc, cases, operands(state, acting.goroutine))? {
        Some(offered) => select_from(alloc, state, acting, &offered, otherwise, choice),
        None => Ok(Outcome::Stuck),
    }
}
