//! Peers that are called at intervals.

use rr_host::{Dial, Pace, is_without_fault};
use rr_io::Counted;
use std::alloc::{AllocError, Global};
use std::time::{Clock, Instant};

/// A peer, and the pace of its calls.
#[derive(Drop)]
struct PacedPeer<'a> {
    address: &'a str,
    pace: Pace,
}

/// A dial that calls each peer at most once an interval, and after a failure passes it over for
/// some intervals: see [`Pace`]. A peer has failed if it can't be reached, if a call of its stream
/// fails, or if it ends the stream before it is handed back. Nothing is known of the calls.
#[derive(Drop)]
pub struct PacedDial<'a, R, D> {
    rt: &'a R,
    dial: D,
    peers: Vec<PacedPeer<'a>>,
    /// The place of the peer that was reached last.
    reached: Option<usize>,
}

impl<'a, R: Clock, D> PacedDial<'a, R, D> {
    /// Calls these peers by a dial, once every `every` seconds, or whenever asked if that is
    /// absent. Other addresses are always due.
    pub fn new(
        rt: &'a R,
        alloc: Global,
        dial: D,
        every: Option<u64>,
        addresses: &'a [String],
    ) -> Result<PacedDial<'a, R, D>, AllocError>
    where
        D: Drop,
    {
        let mut peers = Vec::with_capacity(alloc, addresses.len())?;
        for address in addresses {
            peers.push(PacedPeer {
                address: address.as_str(),
                pace: Pace::new(every),
            })?;
        }
        Ok(PacedDial {
            rt,
            dial,
            peers,
            reached: None,
        })
    }

    /// The place of the peer at an address.
    fn place_of(&self, address: &str) -> Option<usize> {
        for (place, peer) in self.peers.iter().enumerate() {
            if peer.address == address {
                return Some(place);
            }
        }
        None
    }

    /// Notes whether the call of a peer failed.
    fn note(&mut self, place: Option<usize>, has_failed: bool) {
        let Some(place) = place else {
            return;
        };
        let Some(peer) = self.peers.get_mut(place) else {
            return;
        };
        let now = Instant::now(self.rt).ok();
        if has_failed {
            peer.pace.failed(now);
        } else {
            peer.pace.done(now);
        }
    }
}

impl<R: Clock, D: Dial> Dial for PacedDial<'_, R, D> {
    ghost use Rattle.std.specs.Prelude.{[], ◌∷◌, None};
    ghost use Rattle.rr_host.specs.Calls.{Grows, handed_back};
    ghost use Rattle.rr_host.specs.Streams.{stream_of};

    type Input = D::Input;

    type Output = D::Output;

    ghost calls = { λ d. None };

    fn is_due(&mut self, address: &str) -> bool {
        let Some(place) = self.place_of(address) else {
            return true;
        };
        match self.peers.get(place) {
            Some(peer) => peer.pace.is_due(Instant::now(self.rt).ok()),
            None => true,
        }
    }

    fn open(&mut self, address: &str) -> Option<(Counted<D::Input>, Counted<D::Output>)> {
        let place = self.place_of(address);
        let Some(stream) = self.dial.open(address) else {
            self.note(place, true);
            return None;
        };
        self.reached = place;
        Some(stream)
    }

    fn take_back(&mut self, input: Counted<D::Input>, output: Counted<D::Output>)
        ensures { Grows None None (handed_back
            (stream_of D.Input.remaining D.Output.contents input output) ∷ []) }
    {
        let has_failed = !is_without_fault(&input, &output);
        self.dial.take_back(input, output);
        self.note(self.reached, has_failed);
        self.reached = None;
    }
}
