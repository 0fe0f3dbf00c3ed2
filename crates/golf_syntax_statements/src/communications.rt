//! The reader of communications of `select` (Go specification, "Select statements").
//!
//! `name = <-channel` is read by its first tokens. Any other communication is read as a simple
//! statement and converted.

ghost use Rattle.std.specs.Prelude.{◌≡◌, ◌<◌, ◌≤◌, length, IfOk, IfSome, Some};
ghost use Rattle.golf_syntax_expressions.specs.Front.{seen};
ghost use Rattle.golf_syntax_statements.specs.CommunicationReader as comm_spec;
ghost use Rattle.golf_syntax_statements.specs.CommunicationReader.{assigned_seen, comm_by};

use golf_base::Memory;
use golf_lex_tokens::{Punctuation, Token};
use golf_syntax_expressions::{Context, after, copied, name_at, operand_at, simple_at};
use golf_syntax_trees::{
    Communication, Name, OwnedCommunication, OwnedExpr, OwnedSimpleKind, SimpleKind,
};
use std::alloc::Global;

// Returns the channel of a receive, or `None` if it is no receive.
fn channel_of(e: OwnedExpr) -> Option<OwnedExpr>
    ensures { result ≡ comm_spec.channel_of e }
{
    match e.into_inner().into_channel() {
        None => None,
        Some(channel) => Some(OwnedExpr::new(channel.into_inner())),
    }
}

// Returns the communication that receives.
fn receive(e: OwnedExpr) -> Option<OwnedCommunication>
    ensures { result ≡ comm_spec.comm_of (SimpleKind.Expression e) }
{
    match channel_of(e) {
        None => None,
        Some(channel) => Some(OwnedCommunication::new(Communication::Receive(channel))),
    }
}

// Returns the communication that receives into a new name.
fn define(name: Name, e: OwnedExpr) -> Option<OwnedCommunication>
    ensures { result ≡ comm_spec.comm_of (SimpleKind.Define name e) }
{
    match channel_of(e) {
        None => None,
        Some(channel) => Some(OwnedCommunication::new(Communication::Define(name, channel))),
    }
}

// Returns the communication that sends.
fn send(channel: OwnedExpr, value: OwnedExpr) -> Option<OwnedCommunication>
    ensures { result ≡ comm_spec.comm_of (SimpleKind.Send channel value) }
{
    Some(OwnedCommunication::new(Communication::Send(channel, value)))
}

// Returns the communication that receives into two new names.
fn define_received(name: Name, ok: Name, channel: OwnedExpr) -> Option<OwnedCommunication>
    ensures { result ≡ comm_spec.comm_of (SimpleKind.DefineReceived name ok channel) }
{
    Some(OwnedCommunication::new(Communication::DefineReceived(name, ok, channel)))
}

// Returns the communication of a simple statement that begins with names, or `None` if it is none.
#[tactic(auto, using(crate::proofs::Channels::kind_steps))]
fn named(kind: SimpleKind) -> Option<OwnedCommunication>
    requires no_expression { (e : _) → kind ≡ SimpleKind.Expression e → ⊥ }
    requires no_send { (c v : _) → kind ≡ SimpleKind.Send c v → ⊥ }
    ensures { result ≡ comm_spec.comm_of kind }
{
    match kind {
        SimpleKind::Define(name, e) => define(name, e),
        SimpleKind::DefineReceived(name, ok, channel) => define_received(name, ok, channel),
        _ => None,
    }
}

// Returns the communication of a simple statement, or `None` if it is none.
fn comm_of(kind: OwnedSimpleKind) -> Option<OwnedCommunication>
    ensures { result ≡ comm_spec.comm_of kind }
{
    match kind.into_inner() {
        SimpleKind::Expression(e) => receive(e),
        SimpleKind::Send(channel, value) => send(channel, value),
        other => named(other),
    }
}

// Reads a name and the `=` after it.
fn assigned_at(tokens: &[Token]) -> Option<(&Name, &[Token])>
    ensures value { assigned_seen result ≡ comm_spec.assigned_at tokens.now }
    ensures shorter { IfSome result (λ x. length x.1.now < length tokens.now) }
{
    let (name, behind) = name_at(tokens)?;
    let rest = after(behind, Punctuation::Assign)?;
    Some((name, rest))
}

// Reads `<-channel` after a name and `=`.
fn received(
    alloc: Global,
    name: Name,
    tokens: &[Token],
) -> Result<Option<(OwnedCommunication, &[Token])>, Memory>
    ensures value { IfOk result (λ o. seen o ≡ comm_by tokens.now (Some (name, tokens.now))) }
    ensures shorter { IfOk result (λ o. IfSome o (λ x. length x.1.now ≤ length tokens.now)) }
{
    let Some(arrow) = after(tokens, Punctuation::Arrow) else {
        return Ok(None)
    };
    match operand_at(alloc, arrow)? {
        None => Ok(None),
        Some((channel, rest)) => Ok(Some((
            OwnedCommunication::new(Communication::Assign(name, channel)),
            rest,
        ))),
    }
}

/// Reads the communication at the front. Returns it and the tokens after it.
#[tactic(auto, unfolding(crate::specs::CommunicationReader::comm_at))]
pub fn comm_at(
    alloc: Global,
    tokens: &[Token],
) -> Result<Option<(OwnedCommunication, &[Token])>, Memory>
    ensures value { IfOk result (λ o. seen o ≡ comm_spec.comm_at tokens.now) }
    ensures shorter { IfOk result (λ o. IfSome o (λ x. length x.1.now < length tokens.now)) }
{
    if let Some((name, behind)) = assigned_at(tokens) {
        return received(alloc, copied(alloc, name)?, behind);
    }
    match simple_at(alloc, Context::Elsewhere, tokens)? {
        None => Ok(None),
        Some((simple, rest)) => match comm_of(simple.into_inner().kind) {
            None => Ok(None),
            Some(communication) => Ok(Some((communication, rest))),
        },
    }
}
