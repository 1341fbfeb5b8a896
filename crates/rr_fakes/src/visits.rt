//! Connections in memory.

ghost use Rattle.std.specs.Prelude.{◌≡◌, IfOk, map, option_map};
ghost use Rattle.rr_fakes.specs.Visits.{Notes, at_start, noted_call};

use crate::log::CallLog;
use rr_host::{Visit, Visits};
use rr_io::Counted;
use std::alloc::{AllocError, Global};
use std::marker::Model;

/// A call of prepared connections.
#[derive(Drop)]
pub(crate) enum Entry<'a> {
    /// A connection with this input was given.
    Gave(&'a [u8]),
    /// It failed.
    Failed,
    /// None was left.
    Over,
    /// It was told that the peer of a connection has another schema.
    Differs,
    /// A connection was handed back.
    TookBack(Counted<&'a [u8]>, Counted<Vec<u8>>),
}

/// Prepared connections: the bytes that each brings, or none for one that fails. What each was
/// answered is kept.
///
/// Its calls are known as long as there is memory to note them; [`Prepared::new`] makes room for
/// three for each connection and one more.
#[derive(Drop)]
pub struct Prepared<'a> {
    alloc: Global,
    inputs: &'a [Option<&'a [u8]>],
    /// Which of them comes next.
    place: usize,
    log: CallLog<Entry<'a>>,
}

impl<'a> Model for Prepared<'a> {
    ghost use Rattle.std.specs.Prelude.{map, option_map};
    ghost use Rattle.rr_fakes.specs.Log.{map_log};
    ghost use Rattle.rr_fakes.specs.Visits.{PreparedState, noted_call};

    ghost Value = { PreparedState };

    ghost view = { λ p. record {
      inputs = map (option_map (λ bytes. bytes.now)) p.inputs.now;
      place = p.place;
      log = map_log noted_call p.log;
    } };
}

impl<'a> Prepared<'a> {
    /// Connections with these inputs, in order.
    pub fn new(alloc: Global, inputs: &'a [Option<&'a [u8]>]) -> Result<Prepared<'a>, AllocError>
        ensures { IfOk result (λ p. p ≡ at_start
            (map (option_map (λ bytes. bytes.now)) inputs.now)) }
    {
        let room = inputs.len().saturating_mul(3).saturating_add(1);
        Ok(Prepared {
            alloc,
            inputs,
            place: 0,
            log: CallLog::new(alloc, room)?,
        })
    }

    /// What was written to the connection that was handed back last, if that was the last call.
    pub fn into_last(self) -> Option<Vec<u8>> {
        match self.log.into_last()? {
            Entry::TookBack(_, output) => Some(output.into_inner()),
            _ => None,
        }
    }

    /// Notes a call.
    fn note(&mut self, call: Entry<'a>)
        ensures { Notes (noted_call call.entry) self.old.place self.old self.new }
    {
        self.log.note(call);
    }
}

impl<'a> Visits for Prepared<'a> {
    ghost use Rattle.std.specs.Prelude.{◌≡◌, [], ◌∷◌, Some};
    ghost use Rattle.rr_fakes.specs.Visits.{Notes, next_call, next_place};
    ghost use Rattle.rr_host.specs.Streams.{stream_of};
    ghost use Rattle.rr_host.specs.Visits.{Differs, HasCalled, TookBack, call_of};

    type Input = &'a [u8];

    type Output = Vec<u8>;

    ghost calls = { λ p. p.log.calls };

    fn next(&mut self) -> Visit<&'a [u8], Vec<u8>>
        ensures called { HasCalled self.old.log.calls self.new.log.calls
            (call_of (λ r. Some r.now) (λ w. Some w.items) result ∷ []) }
        ensures given { call_of (λ r. Some r.now) (λ w. Some w.items) result ≡ next_call self.old }
        ensures noted { Notes (next_call self.old) (next_place self.old) self.old self.new }
    {
        let Some(input) = self.inputs.get(self.place).copied() else {
            self.note(Entry::Over);
            return Visit::Over;
        };
        self.place += 1;
        let Some(bytes) = input else {
            self.note(Entry::Failed);
            return Visit::Failed;
        };
        self.note(Entry::Gave(bytes));
        Visit::Stream(Counted::new(bytes), Counted::new(Vec::new(self.alloc)))
    }

    fn schema_differs(&mut self)
        ensures called { HasCalled self.old.log.calls self.new.log.calls (Differs ∷ []) }
        ensures noted { Notes Differs self.old.place self.old self.new }
    {
        self.note(Entry::Differs);
    }

    fn take_back(&mut self, input: Counted<&'a [u8]>, output: Counted<Vec<u8>>)
        ensures called { HasCalled self.old.log.calls self.new.log.calls
            (TookBack (stream_of (λ r. Some r.now) (λ w. Some w.items) input.entry output) ∷ []) }
        ensures noted { Notes (TookBack (stream_of (λ r. Some r.now) (λ w. Some w.items)
            input.entry output))
            self.old.place self.old self.new }
    {
        self.note(Entry::TookBack(input, output));
    }
}
