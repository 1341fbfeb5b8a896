//! Peers in memory.

ghost use Rattle.std.specs.Prelude.{◌≡◌, Some, [], IfOk, IfSome, map, option_map};
ghost use Rattle.rr_fakes.specs.Dial.{NotesOnly, noted_call, peer_of, peer_view};

use crate::log::CallLog;
use rr_host::Dial;
use rr_io::Counted;
use std::alloc::{AllocError, Global};
use std::marker::Model;

/// A call of a prepared dial.
#[derive(Drop)]
pub(crate) enum Entry<'a> {
    /// The peer at this address is due.
    Due(&'a str),
    /// The peer at this address was reached, and sends these bytes.
    Reached(&'a str, &'a [u8]),
    /// The peer at this address can't be reached.
    Unreached(&'a str),
    /// A stream was handed back.
    HandedBack(Counted<&'a [u8]>, Counted<Vec<u8>>),
}

/// A prepared peer.
#[derive(Clone, Copy)]
pub struct PreparedPeer<'a> {
    /// Its address.
    pub address: &'a str,
    /// What it sends to each that reaches it; if absent, it can't be reached.
    pub sends: Option<&'a [u8]>,
}

/// Reaches prepared peers, and no others; each is due whenever it is asked. What was sent to each
/// is kept.
///
/// Its calls are known as long as there is memory to note them; [`PreparedDial::new`] makes room
/// for some. They aren't known after a call to an address that no peer has.
#[derive(Drop)]
pub struct PreparedDial<'a> {
    alloc: Global,
    peers: &'a [PreparedPeer<'a>],
    log: CallLog<Entry<'a>>,
}

impl<'a> Model for PreparedDial<'a> {
    ghost use Rattle.std.specs.Prelude.{map};
    ghost use Rattle.rr_fakes.specs.Log.{map_log};
    ghost use Rattle.rr_fakes.specs.Dial.{DialState, noted_call, peer_view};

    ghost Value = { DialState };

    ghost view = { λ d. record { peers = map peer_view d.peers.now; log = map_log noted_call d.log } };
}

impl<'a> PreparedDial<'a> {
    /// Reaches these peers, with room for this many calls.
    pub fn new(
        alloc: Global,
        peers: &'a [PreparedPeer<'a>],
        room: usize,
    ) -> Result<PreparedDial<'a>, AllocError>
        ensures { IfOk result (λ d. d ≡ record {
          peers = map peer_view peers.now;
          log = record { calls = Some []; room = room };
        }) }
    {
        Ok(PreparedDial {
            alloc,
            peers,
            log: CallLog::new(alloc, room)?,
        })
    }

    /// What was sent over the stream that was handed back last, if that was the last call.
    pub fn into_last(self) -> Option<Vec<u8>> {
        match self.log.into_last()? {
            Entry::HandedBack(_, output) => Some(output.into_inner()),
            _ => None,
        }
    }

    /// Notes a call.
    fn note(&mut self, call: Entry<'a>)
        ensures { NotesOnly (noted_call call.entry) self.old self.new }
    {
        self.log.note(call);
    }
}

/// The first peer at an address.
fn peer_of<'a>(peers: &'a [PreparedPeer<'a>], address: &str) -> Option<PreparedPeer<'a>>
    ensures first { option_map peer_view result ≡ peer_of (map peer_view peers.now) address.now }
    ensures named { IfSome result (λ peer. peer.address.now ≡ address.now) }
{
    for peer in peers {
        if peer.address == address {
            return Some(*peer);
        }
    }
    None
}

impl<'a> Dial for PreparedDial<'a> {
    ghost use Rattle.std.specs.Prelude.{◌≡◌, [], ◌∷◌, None, Some, IfSome, option_map, true, false};
    ghost use Rattle.rr_host.specs.Calls.{Grows, due, handed_back, passed_over, reached, unreached};
    ghost use Rattle.rr_fakes.specs.Dial.{NotesCall, NotesOnly, call_to, due_call, peer_of, sent_by};
    ghost use Rattle.rr_host.specs.Streams.{new_stream, stream_of};

    type Input = &'a [u8];

    type Output = Vec<u8>;

    ghost calls = { λ d. d.log.calls };

    fn is_due(&mut self, address: &str) -> bool
        ensures due { result ≡ true → Grows self.old.log.calls self.new.log.calls
            (due address.now ∷ []) }
        ensures passed { result ≡ false → Grows self.old.log.calls self.new.log.calls
            (passed_over address.now ∷ []) }
        ensures always { result ≡ true }
        ensures noted { NotesCall due_call (peer_of self.old.peers address.now) self.old.log
            self.new.log }
        ensures peers { self.new.peers ≡ self.old.peers }
    {
        match peer_of(self.peers, address) {
            Some(peer) => self.note(Entry::Due(peer.address)),
            None => self.log.forget(),
        }
        true
    }

    fn open(&mut self, address: &str) -> Option<(Counted<&'a [u8]>, Counted<Vec<u8>>)>
        ensures reached { IfSome result (λ s. Grows self.old.log.calls self.new.log.calls
            (reached address.now (stream_of (λ r. Some r.now) (λ w. Some w.items) s.0 s.1) ∷ [])) }
        ensures unreached { result ≡ None
            → Grows self.old.log.calls self.new.log.calls (unreached address.now ∷ []) }
        ensures stream { option_map (λ s. stream_of (λ r. Some r.now) (λ w. Some w.items) s.0 s.1)
            result
            ≡ option_map new_stream (sent_by (peer_of self.old.peers address.now)) }
        ensures noted { NotesCall call_to (peer_of self.old.peers address.now) self.old.log
            self.new.log }
        ensures peers { self.new.peers ≡ self.old.peers }
    {
        let Some(peer) = peer_of(self.peers, address) else {
            self.log.forget();
            return None;
        };
        let Some(bytes) = peer.sends else {
            self.note(Entry::Unreached(peer.address));
            return None;
        };
        self.note(Entry::Reached(peer.address, bytes));
        Some((Counted::new(bytes), Counted::new(Vec::new(self.alloc))))
    }

    fn take_back(&mut self, input: Counted<&'a [u8]>, output: Counted<Vec<u8>>)
        ensures { NotesOnly (handed_back
            (stream_of (λ r. Some r.now) (λ w. Some w.items) input.entry output))
            self.old self.new }
    {
        self.note(Entry::HandedBack(input, output));
    }
}
