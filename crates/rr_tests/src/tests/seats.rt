//! A node in memory with two seats, each served on a thread of its own.

use super::asked::Asked;
use super::gates::{Meets, Signal};
use rr_desk::{Keeper, Reader, open};
use rr_fakes::clock::Moments;
use rr_fakes::dial::PreparedDial;
use rr_fakes::halt::NoHalt;
use rr_fakes::replicas::minutes;
use rr_fakes::shelf::PreparedShelf;
use rr_fakes::visits::Prepared;
use rr_node::{Config, Seat, Seats, serve_node, serve_seat};
use rr_packed::PackedArchive;
use std::alloc::Global;
use std::sync::Wait;
use std::sync::atomic::{AtomicU64, Ordering};
use std::test::Fail;
use std::thread::{Threads, for_each_mut};

/// The configuration of a node of three one-minute rows, which gets no line connection and takes
/// one connection at each of two seats.
const CONFIG: &[u8] = b"step = 60\nlines = \"l\"\nfetch = [\"f\", \"g\"]\nvisits = 1\n\
    [[archive]]\nsteps = 1\nrows = 3\nxff_num = 0\nxff_den = 1\n";

/// What each answers: nothing is known.
const ROWS: &[u8] = b"m v,0,U\nm v,60,U\n\n";

/// A seat in memory whose reader waits, in its copy, until the other is in its own.
type InMemory = Seat<PackedArchive, Asked, Meets>;

/// Two seats.
#[derive(Drop)]
struct Two {
    seats: Vec<InMemory>,
}

/// Serves a seat, and returns whether memory sufficed.
fn is_served(alloc: Global, seat: &mut InMemory, visits: u64) -> bool {
    serve_seat(alloc, seat, visits).is_ok()
}

impl Seats for Two {
    ghost use Rattle.std.specs.Prelude.{None};

    ghost calls = { λ _. None };

    fn serve<T: Threads + Sync>(&mut self, rt: &T, alloc: Global, visits: u64) -> bool {
        let served = AtomicU64::new(0);
        let count = &served;
        for_each_mut(
            rt,
            self.seats.as_mut_slice(),
            2,
            &|_, seat: &mut InMemory| {
                if is_served(alloc, seat, visits) {
                    count.fetch_add(1, Ordering::SeqCst);
                }
            },
        );
        served.load(Ordering::SeqCst) == 2
    }
}

/// A seat that is asked once.
fn seat(
    alloc: Global,
    reader: Reader<PackedArchive>,
    own: &Signal,
    other: &Signal,
) -> Option<InMemory> {
    let gate = Meets {
        own: own.share().ok()?,
        other: other.share().ok()?,
    };
    Some(Seat {
        reader,
        visits: Asked::new(alloc),
        gate,
    })
}

/// Whether a seat answered that nothing is known.
fn has_answered(seat: InMemory) -> bool {
    let Seat {
        reader: _,
        visits,
        gate: _,
    } = seat;
    visits
        .into_answer()
        .is_some_and(|answer| answer.as_slice() == ROWS)
}

/// Two seats, each of which waits for the other.
fn two_seats(
    clock: &HostRuntime,
    alloc: Global,
    readers: (Reader<PackedArchive>, Reader<PackedArchive>),
) -> Option<Two> {
    let first = Signal::new(clock, alloc).ok()?;
    let second = Signal::new(clock, alloc).ok()?;
    let one = seat(alloc, readers.0, &first, &second)?;
    let two = seat(alloc, readers.1, &second, &first)?;
    Some(Two {
        seats: Vec::from_array(alloc, [one, two]).ok()?,
    })
}

/// Serves a node with these seats, which gets no line connection.
fn serve_both<R: Threads + Wait + Sync>(
    rt: &R,
    alloc: Global,
    keeper: &mut Keeper<PackedArchive>,
    both: &mut Two,
) -> Option<()> {
    let config = Config::from_toml(alloc, CONFIG).ok()?;
    let mut lines = Prepared::new(alloc, &[]).ok()?;
    let mut dial = PreparedDial::new(alloc, &[], 0).ok()?;
    let mut shelf = PreparedShelf::new(alloc, &[], 0).ok()?;
    let mut halt = NoHalt;
    let mut clock = Moments::new(Vec::new(alloc));
    serve_node(
        alloc, keeper, &mut lines, &mut dial, &mut shelf, both, &mut halt, &mut clock, &config, rt,
    )
    .ok()
}

/// Whether each of two seats of a node answers.
fn answer_both<R: Threads + Wait + Sync>(
    rt: &R,
    clock: &HostRuntime,
    alloc: Global,
    keeper: &mut Keeper<PackedArchive>,
    readers: (Reader<PackedArchive>, Reader<PackedArchive>),
) -> Option<(bool, bool)> {
    let mut both = two_seats(clock, alloc, readers)?;
    serve_both(rt, alloc, keeper, &mut both)?;
    let Two { mut seats } = both;
    Some((has_answered(seats.pop()?), has_answered(seats.pop()?)))
}

/// Whether each seat of a node answers, with a desk opened for them.
fn answers_of_a_desk<R: Threads + Wait + Sync>(
    rt: &R,
    clock: &HostRuntime,
    alloc: Global,
) -> Option<(bool, bool)> {
    let replica = minutes::<PackedArchive>(alloc, 1, 3).ok()?;
    let (mut keeper, mut readers) = open(alloc, rt, replica, 2).ok()?;
    let both = match (readers.pop(), readers.pop()) {
        (Some(one), Some(two)) => answer_both(rt, clock, alloc, &mut keeper, (one, two)),
        _ => None,
    };
    keeper.close(rt);
    both
}

#[test]
fn seats_answer_beside_each_other(rt: HostRuntime) -> Result<(), Fail> {
    let both = answers_of_a_desk(&rt, &rt, rt.alloc());
    assert_eq!(rt; both, Some((true, true)));
    Ok(())
}
