//! Connections that fail midway, in a round and at a seat.

use super::rounds::CONFIG;
use rr_base::{Counted, Failing};
use rr_desk::{Keeper, Reader, open};
use rr_fakes::clock::Moments;
use rr_fakes::dial::PreparedDial;
use rr_fakes::replicas::minutes;
use rr_fakes::room::{Room, with_room};
use rr_fakes::shelf::PreparedShelf;
use rr_node::{Config, OpenGate, Seat, Visit, Visits, keep_round, serve_seat};
use rr_packed::PackedArchive;
use std::alloc::Global;
use std::io;
use std::io::Read;
use std::sync::Wait;
use std::test::Fail;

/// What each connection brings: lines that are refused, as points and as fetches.
const TEXT: &[u8] = b"m\nm\n";

/// The text, a byte at a time. It holds no reference, since the prover has no rules for a seat
/// whose connections do.
#[derive(Drop)]
struct Trickle {
    given: usize,
}

impl Read for Trickle {
    ghost use Rattle.std.specs.Prelude.{None};

    ghost remaining = { λ _. None };

    fn read(&mut self, buf: &mut [u8]) -> io::Result<usize> {
        let Some(mut rest) = TEXT.get(self.given..) else {
            return Ok(0);
        };
        let piece = buf.len().min(1);
        let given = rest.read(&mut buf[..piece])?;
        self.given = self.given.saturating_add(given);
        Ok(given)
    }
}

/// Connections that each bring the text a byte at a time until the read after `reads` of them
/// fails, and have room for `room` bytes of their answer.
#[derive(Drop)]
struct Cut {
    alloc: Global,
    reads: u64,
    room: usize,
    /// How many were handed back.
    done: u32,
}

impl Cut {
    fn new(alloc: Global, reads: u64, room: usize) -> Cut {
        Cut {
            alloc,
            reads,
            room,
            done: 0,
        }
    }
}

impl Visits for Cut {
    ghost use Rattle.std.specs.Prelude.{[], ◌∷◌, None};
    ghost use Rattle.rr_host.specs.Streams.{stream_of};
    ghost use Rattle.rr_host.specs.Visits.{HasCalled, TookBack};

    type Input = Failing<Trickle>;

    type Output = Room;

    ghost calls = { λ c. None };

    fn next(&mut self) -> Visit<Failing<Trickle>, Room> {
        Visit::Stream(
            Counted::new(Failing::new(Trickle { given: 0 }, self.reads)),
            with_room(self.alloc, self.room),
        )
    }

    fn schema_differs(&mut self) {}

    fn take_back(&mut self, input: Counted<Failing<Trickle>>, output: Counted<Room>)
        ensures { HasCalled None None (TookBack (stream_of (λ _. None) (λ _. None) input output) ∷
            []) }
    {
        drop(input);
        drop(output);
        self.done = self.done.saturating_add(1);
    }
}

/// Whether a round goes on after such a connection, and hands it back.
fn goes_on<R: Wait>(
    rt: &R,
    alloc: Global,
    keeper: &mut Keeper<PackedArchive>,
    lines: &mut Cut,
) -> Option<bool> {
    let config = Config::from_toml(alloc, CONFIG).ok()?;
    let mut dial = PreparedDial::new(alloc, &[], 0).ok()?;
    let mut shelf = PreparedShelf::new(alloc, &[], 0).ok()?;
    let mut clock = Moments::new(Vec::new(alloc));
    let came = keep_round(
        alloc, keeper, lines, &mut dial, &mut shelf, &mut clock, &config, rt,
    );
    Some(came.ok()? && lines.done == 1)
}

/// Whether a seat goes on from such a connection to another one.
fn serves_both(alloc: Global, reader: Reader<PackedArchive>, visits: Cut) -> bool {
    let mut seat = Seat {
        reader,
        visits,
        gate: OpenGate::new(),
    };
    let served = serve_seat(alloc, &mut seat, 2);
    let Seat {
        reader: _,
        visits,
        gate: _,
    } = seat;
    served.is_ok() && visits.done == 2
}

/// Whether both go on after connections that fail after this many reads, or have only this much
/// room.
fn go_on<R: Wait>(rt: &R, alloc: Global, reads: u64, room: usize) -> Option<bool> {
    let replica = minutes::<PackedArchive>(alloc, 2, 3).ok()?;
    let (mut keeper, mut readers) = open(alloc, rt, replica, 1).ok()?;
    let round = goes_on(rt, alloc, &mut keeper, &mut Cut::new(alloc, reads, room));
    let seat = readers.pop().map(|reader| serves_both(alloc, reader, Cut::new(alloc, reads, room)));
    keeper.close(rt);
    Some(round? && seat?)
}

#[test]
fn a_connection_that_fails_ends_nothing_else(rt: HostRuntime) -> Result<(), Fail> {
    for (reads, room) in [(0, 99), (3, 99), (9, 0), (9, 5)] {
        assert!(rt; go_on(&rt, rt.alloc(), reads, room) == Some(true));
    }
    Ok(())
}
