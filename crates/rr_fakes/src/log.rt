//! Logs of calls in memory.

ghost use Rattle.std.specs.Prelude.{◌≡◌, ◌++◌, [], Some, None, List, IfOk, IfSome, option_map, option_to_list};
ghost use Rattle.rr_fakes.specs.Log.{HasNoted};

use std::alloc::{AllocError, Global};
use std::marker::Model;

/// A log of calls, with room made beforehand. Past that it is known as long as there is memory to
/// note each call.
#[derive(Drop)]
pub struct CallLog<C> {
    calls: Vec<C>,
    /// Whether a call could not be noted.
    is_full: bool,
}

impl<C> Model for CallLog<C> {
    ghost use Rattle.std.specs.Prelude.{◌-◌, None, Some, if◌then◌else◌};
    ghost use Rattle.std.specs.Vec.{vec_capacity, vec_len};
    ghost use Rattle.rr_fakes.specs.Log.{Log};

    ghost Value = { Log C };

    ghost view = { λ l. record {
      calls = if l.is_full then None else Some l.calls.items;
      room = vec_capacity l.calls - vec_len l.calls;
    } };
}

impl<C: Drop> CallLog<C> {
    /// A log of no calls, with room for this many.
    pub fn new(alloc: Global, room: usize) -> Result<CallLog<C>, AllocError>
        ensures { IfOk result (λ log. log ≡ record { calls = Some []; room = room }) }
    {
        Ok(CallLog {
            calls: Vec::with_capacity(alloc, room)?,
            is_full: false,
        })
    }

    /// Notes a call.
    pub fn note(&mut self, call: C)
        ensures { HasNoted call self.old self.new }
    {
        if self.calls.push(call).is_err() {
            self.is_full = true;
        }
    }

    /// Forgets all calls, since one of them can't be noted.
    pub fn forget(&mut self)
        ensures forgotten { self.new.calls ≡ None }
        ensures room { self.new.room ≡ self.old.room }
    {
        self.is_full = true;
    }

    /// The calls in order, if all are known.
    pub fn calls(&self) -> Option<&[C]>
        ensures { option_map (λ calls. calls.now) result ≡ self.now.calls }
    {
        if self.is_full {
            return None;
        }
        Some(&self.calls)
    }

    /// The last call, if all are known.
    pub fn into_last(self) -> Option<C>
        ensures last { IfSome self.calls (λ calls. (before : List C)
            × (calls ≡ before ++ option_to_list result)) }
        ensures none { result ≡ None → IfSome self.calls (λ calls. calls ≡ []) }
    {
        let mut calls = self.calls;
        if self.is_full {
            return None;
        }
        calls.pop()
    }
}
