//! The cases of a `select`, each with its operands.
//!
//! A case on a nil channel is never ready (Go specification, "Select statements").

ghost use Rattle.std.specs.Prelude.{◌≡◌, ◌∷◌, [], reverse, IfOk};
ghost use Rattle.golf_chan.specs.Offers.{width_of, plain_offer, plain_offers, IsOfferOf, AreOffersOf, object_of};
ghost use Rattle.golf_data.specs.declared.value.Value.{Value};
ghost use Rattle.golf_data.specs.declared.code.CaseKind.{CaseKind};
ghost use Rattle.golf_model.specs.Selects.{all_on_channels, is_nil_or_channel, is_ready, ready, offered_waits};
ghost use Rattle.golf_model.specs.Selects.{case_waits, select_kind, can_proceed};

use crate::channel::channel_at;
use golf_base::{List, Memory, ObjectId};
use golf_data::{CaseKind, Channel, SelectCase, Side, Value, Wait, WaitKind, Waits};
use golf_state::{Reference, State, reference_in};
use std::alloc::Global;

/// A case of a `select` with its operands.
#[derive(Clone, Copy, Debug, PartialEq, Eq)]
pub struct Offer {
    pub kind: CaseKind,
    pub channel: Value,
    /// The value to send, or nil for a receive.
    pub value: Value,
    pub target: u32,
}

/// The cases of a `select` with their operands, in source order, and the count of these operands.
#[derive(Debug, Drop)]
pub struct Offered {
    pub offers: List<Offer>,
    pub taken: usize,
}

// How many operands a case has.
fn width_of(kind: CaseKind) -> usize
    ensures { result ≡ width_of kind }
{
    match kind {
        CaseKind::Send => 2,
        CaseKind::Take => 1,
        CaseKind::TakeOk => 1,
    }
}

// A case that sends, with the last two operands.
fn sending_offer(case: SelectCase, operands: &[Value]) -> Option<Offer>
    requires { case.kind ≡ CaseKind.Send }
    ensures { IsOfferOf case (reverse operands.now) result }
{
    let count = operands.len();
    if count < 2 {
        return None;
    }
    Some(Offer {
        kind: case.kind,
        channel: operands[count - 2],
        value: operands[count - 1],
        target: case.target,
    })
}

// A case that receives, with the last operand.
fn receiving_offer(case: SelectCase, operands: &[Value]) -> Option<Offer>
    requires { width_of case.kind ≡ 1 }
    ensures { IsOfferOf case (reverse operands.now) result }
{
    let channel = operands.last().copied()?;
    Some(Offer {
        kind: case.kind,
        channel,
        value: Value::Nil,
        target: case.target,
    })
}

// A case with the last operands, or `None` if there are too few.
fn offer_of(case: SelectCase, operands: &[Value]) -> Option<Offer>
    ensures { IsOfferOf case (reverse operands.now) result }
{
    match case.kind {
        CaseKind::Send => sending_offer(case, operands),
        CaseKind::Take => receiving_offer(case, operands),
        CaseKind::TakeOk => receiving_offer(case, operands),
    }
}

/// Returns the cases with their operands, or `None` if there are too few operands.
pub fn offers_of(
    alloc: Global,
    cases: &[SelectCase],
    operands: &[Value],
) -> Result<Option<Offered>, Memory>
    ensures { IfOk result (AreOffersOf cases.now (reverse operands.now)) }
{
    let mut offers = List::new(alloc);
    let mut end = operands.len();
    let mut at = cases.len();
    while at > 0 {
        at -= 1;
        let case = cases[at];
        let (left, _) = operands.split_at(end);
        let Some(offer) = offer_of(case, left) else {
            return Ok(None);
        };
        end = end.saturating_sub(width_of(case.kind));
        offers.push(offer)?;
    }
    offers.as_mut_slice().reverse();
    let taken = operands.len().saturating_sub(end);
    Ok(Some(Offered { offers, taken }))
}

// Whether a value is nil or a channel.
fn is_nil_or_channel(state: &State, value: Value) -> bool
    ensures { result ≡ is_nil_or_channel state.now value }
{
    match reference_in(value) {
        Reference::To(object) => channel_at(state, object).is_some(),
        Reference::Nil => true,
        Reference::Misfit => false,
    }
}

/// Returns whether the channel of each case is nil or a channel.
pub fn all_on_channels(state: &State, offers: &[Offer]) -> bool
    ensures { result ≡ all_on_channels state.now (plain_offers offers.now) }
{
    for offer in offers {
        if !is_nil_or_channel(state, offer.channel) {
            return false;
        }
    }
    true
}

// Whether a case on this channel would not block.
fn can_proceed(state: &State, kind: CaseKind, object: ObjectId, channel: &Channel) -> bool
    ensures { result ≡ can_proceed kind object.0 state.now.goroutines channel.now }
{
    match kind {
        CaseKind::Send => {
            channel.closed
                || state.first_waiter(object, Side::Receive).is_some()
                || channel.buffer.len() < channel.capacity as usize
        }
        CaseKind::Take | CaseKind::TakeOk => {
            !channel.buffer.is_empty()
                || state.first_waiter(object, Side::Send).is_some()
                || channel.closed
        }
    }
}

// Whether a case would not block. A case on nil would.
fn is_ready(state: &State, offer: &Offer) -> bool
    ensures { result ≡ is_ready state.now (plain_offer offer.now) }
{
    let Some(object) = object_of(offer.channel) else {
        return false;
    };
    match channel_at(state, object) {
        Some(channel) => can_proceed(state, offer.kind, object, channel),
        None => false,
    }
}

/// Returns the ready cases, in source order.
pub fn ready_of(alloc: Global, state: &State, offers: &[Offer]) -> Result<List<Offer>, Memory>
    ensures { IfOk result (λ list. plain_offers list ≡ ready state.now (plain_offers offers.now)) }
{
    let mut list = List::new(alloc);
    for offer in offers {
        if is_ready(state, offer) {
            list.push(*offer)?;
        }
    }
    Ok(list)
}

// The wait of a goroutine for a case on this channel.
fn wait_of(offer: &Offer, object: ObjectId) -> Wait
    ensures { case_waits (plain_offer offer.now) (Value.Ref object) ≡ result ∷ [] }
{
    let side = match offer.kind {
        CaseKind::Send => Side::Send,
        CaseKind::Take | CaseKind::TakeOk => Side::Receive,
    };
    let value = match offer.kind {
        CaseKind::Send => offer.value,
        CaseKind::Take | CaseKind::TakeOk => Value::Nil,
    };
    Wait {
        object,
        side,
        value,
        target: Some(offer.target),
        with_ok: matches!(offer.kind, CaseKind::TakeOk),
    }
}

// The channel of a case, or `None` for nil.
fn object_of(value: Value) -> Option<ObjectId>
    ensures { result ≡ object_of value }
{
    match reference_in(value) {
        Reference::To(object) => Some(object),
        Reference::Nil => None,
        Reference::Misfit => None,
    }
}

/// Returns the waits of a goroutine for these cases, in source order. A case on nil has none.
pub fn waits_of(alloc: Global, offers: &[Offer]) -> Result<Waits, Memory>
    ensures { IfOk result (λ waits. waits ≡ offered_waits (plain_offers offers.now)) }
{
    let mut waits = Waits::new(alloc);
    for offer in offers {
        if let Some(object) = object_of(offer.channel) {
            waits.push(wait_of(offer, object))?;
        }
    }
    Ok(waits)
}

/// Returns the kind of wait that a report names for a goroutine that blocks on these cases.
pub fn select_kind(offers: &[Offer]) -> WaitKind
    ensures { result ≡ select_kind (plain_offers offers.now) }
{
    match offers {
        [] => WaitKind::SelectNone,
        [..] => WaitKind::Select,
    }
}
