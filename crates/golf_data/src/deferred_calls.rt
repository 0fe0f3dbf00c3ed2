//! The deferred calls of a frame.
//!
//! Most frames defer nothing. So the calls lie in a box, which is made for the first of them.

ghost use Rattle.std.specs.Prelude.{◌≡◌, [], ◌∷◌, ◌++◌, IfOk, MatchOption, OnErr, OnOk};
ghost use Rattle.golf_data.specs.DeferredCalls.{calls_in};

use crate::goroutine::Deferred;
use golf_base::{Boxed, List, Memory};
use std::alloc::Global;
use std::marker::Model;

/// The deferred calls of a frame, the last one on top. Contracts see them as a list.
///
/// Only `push` takes memory.
#[derive(Debug, Drop)]
pub struct DeferredCalls {
    calls: Option<Boxed<List<Deferred>>>,
    alloc: Global,
}

impl Model for DeferredCalls {
    ghost use Rattle.std.specs.Prelude.{List};
    ghost use Rattle.golf_data.specs.DeferredCalls.{calls_in};
    ghost use Rattle.golf_data.specs.declared.goroutine.Deferred.{Deferred as Call};

    ghost Value = { List Call };

    ghost view = { λ d. calls_in d.calls };
}

impl DeferredCalls {
    /// Returns no calls. It takes no memory.
    pub fn new(alloc: Global) -> DeferredCalls
        ensures { result ≡ [] }
    {
        DeferredCalls { calls: None, alloc }
    }

    /// Returns these calls.
    pub fn of(alloc: Global, calls: List<Deferred>) -> Result<DeferredCalls, Memory>
        ensures { IfOk result (λ deferred. deferred ≡ calls) }
    {
        if calls.is_empty() {
            return Ok(DeferredCalls::new(alloc));
        }
        Ok(DeferredCalls {
            calls: Some(Boxed::new(alloc, calls)?),
            alloc,
        })
    }

    /// Returns the calls, the last one on top.
    pub fn as_slice(&self) -> &[Deferred]
        ensures { result.now ≡ self.now }
    {
        match &self.calls {
            Some(calls) => calls.get().as_slice(),
            None => &[],
        }
    }

    /// Adds a call on top. On `Err` the calls are unchanged.
    pub fn push(&mut self, call: Deferred) -> Result<(), Memory>
        ensures ok { OnOk result (self.new ≡ self.old ++ call ∷ []) }
        ensures err { OnErr result (self.new ≡ self.old) }
    {
        match &mut self.calls {
            Some(calls) => calls.get_mut().push(call),
            None => {
                let mut calls = List::new(self.alloc);
                calls.push(call)?;
                self.calls = Some(Boxed::new(self.alloc, calls)?);
                Ok(())
            }
        }
    }

    /// Takes the call on top and returns it, or `None` if there is none.
    pub fn pop(&mut self) -> Option<Deferred>
        ensures { MatchOption result ((self.old ≡ []) × (self.new ≡ [])) (λ last. self.old ≡ self.new ++ last ∷ []) }
    {
        match &mut self.calls {
            Some(calls) => calls.get_mut().pop(),
            None => None,
        }
    }
}
