//! A node in memory: its rounds.

use rr_base::{Counted, Origin};
use rr_desk::{Keeper, open};
use rr_fakes::clock::Moments;
use rr_fakes::dial::{PreparedDial, PreparedPeer};
use rr_fakes::halt::NoHalt;
use rr_fakes::replicas::minutes;
use rr_fakes::sessions::{REPLY, SENT};
use rr_fakes::shelf::{PreparedOpening, PreparedShelf, ShelfNote};
use rr_fakes::visits::Prepared;
use rr_node::{Config, NodeFault, Seats, serve_node};
use rr_packed::PackedArchive;
use rr_replica::Replica;
use rr_snapshot::load;
use std::alloc::Global;
use std::sync::Wait;
use std::test::Fail;
use std::thread::Threads;

/// The configuration of a node of three one-minute rows, which keeps one round and has two peers.
pub(crate) const CONFIG: &[u8] =
    b"step = 60\nlines = \"l\"\nfetch = [\"f\"]\npeers = [\"no\", \"yes\"]\nrounds = 1\n\
    [[archive]]\nsteps = 1\nrows = 3\nxff_num = 0\nxff_den = 1\n";

/// No seats, for which memory suffices or not.
#[derive(Drop)]
struct NoSeats {
    suffices: bool,
}

impl Seats for NoSeats {
    ghost use Rattle.std.specs.Prelude.{None};

    ghost calls = { λ _. None };

    fn serve<T: Threads + Sync>(&mut self, _rt: &T, _alloc: Global, _visits: u64) -> bool {
        self.suffices
    }
}

/// Whether a snapshot loads as the peer's sample alone.
fn is_loaded(alloc: Global, config: &Config, bytes: &[u8]) -> Option<bool> {
    let origin = Origin::new(9).ok()?;
    let mut input = Counted::new(bytes);
    let replica: Replica<PackedArchive> = load(alloc, &mut input, &config.schema, origin).ok()?;
    let Some(cell) = replica.cell_at(0) else {
        return None;
    };
    let held = (
        replica.cell_count(),
        cell.origin.get(),
        cell.contribution.last_value,
    );
    Some(held == (1, 1, 7))
}

/// The peer that failed and its fault, if a round's shelf was told of only one, and otherwise of a
/// report, of no lost sample, of one cell after the pulls and of a whole snapshot.
fn told(calls: &[ShelfNote]) -> Option<(usize, NodeFault)> {
    let mut failed = None;
    for call in calls {
        match call {
            ShelfNote::PeerFailed(number, fault) => failed = Some((*number, *fault)),
            ShelfNote::LinesTaken(Some(_)) | ShelfNote::PastHorizon(0) => {}
            ShelfNote::CountsCells(true) | ShelfNote::PullsEnded(Some(1)) => {}
            ShelfNote::Opened(PreparedOpening::Writer) | ShelfNote::TookBack(_, true) => {}
            _ => return None,
        }
    }
    if calls.len() == 7 { failed } else { None }
}

/// What a node did: how it ended, which peer failed, whether the right frames were sent to the
/// other one, and whether that one's sample was saved.
type Done = (
    Result<(), NodeFault>,
    Option<(usize, NodeFault)>,
    bool,
    Option<bool>,
);

/// What a node did that ended like this, by what it dialed and what its shelf was told.
fn done_by(
    alloc: Global,
    config: &Config,
    served: Result<(), NodeFault>,
    dial: PreparedDial,
    shelf: PreparedShelf,
) -> Option<Done> {
    let failed = told(shelf.calls()?);
    let is_sent = dial.into_last()?.as_slice() == SENT.as_slice();
    let is_saved = is_loaded(alloc, config, &shelf.into_last()?);
    Some((served, failed, is_sent, is_saved))
}

/// Serves as a node that keeps one round, gets an empty connection, and has memory for its seats or
/// not.
fn kept<R: Wait + Threads + Sync>(
    rt: &R,
    alloc: Global,
    keeper: &mut Keeper<PackedArchive>,
    config: &Config,
    suffices: bool,
) -> Option<Done> {
    let inputs = [Some(b"".as_slice())];
    let mut lines = Prepared::new(alloc, &inputs).ok()?;
    let mut halt = NoHalt;
    let peers = [
        PreparedPeer {
            address: "no",
            sends: None,
        },
        PreparedPeer {
            address: "yes",
            sends: Some(REPLY.as_slice()),
        },
    ];
    let mut dial = PreparedDial::new(alloc, &peers, 5).ok()?;
    let mut shelf = PreparedShelf::new(alloc, &[PreparedOpening::Writer], 7).ok()?;
    let mut seats = NoSeats { suffices };
    let mut clock = Moments::new(Vec::new(alloc));
    let served = serve_node(
        alloc, keeper, &mut lines, &mut dial, &mut shelf, &mut seats, &mut halt, &mut clock,
        config, rt,
    );
    done_by(alloc, config, served, dial, shelf)
}

/// What the keeper of a new desk of origin 2 does, by [`kept`].
fn done<R: Wait + Threads + Sync>(rt: &R, alloc: Global, suffices: bool) -> Option<Done> {
    let config = Config::from_toml(alloc, CONFIG).ok()?;
    let replica = minutes(alloc, 2, 3).ok()?;
    let (mut keeper, _readers) = open(alloc, rt, replica, 1).ok()?;
    let done = kept(rt, alloc, &mut keeper, &config, suffices);
    keeper.close(rt);
    done
}

// The first peer can't be reached, and the second has one sample. If memory runs out at a seat, the
// node says so once its rounds are kept.
#[test]
fn a_node_pulls_from_each_peer_and_saves(rt: HostRuntime) -> Result<(), Fail> {
    let failed = Some((1, NodeFault::BadAddress));
    for (suffices, ending) in [(true, Ok(())), (false, Err(NodeFault::Memory))] {
        let want = Some((ending, failed, true, Some(true)));
        assert!(rt; done(&rt, rt.alloc(), suffices) == want);
    }
    Ok(())
}
