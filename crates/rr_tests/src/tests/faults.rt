//! Rounds of a keeper in which something fails.

use super::rounds::CONFIG;
use rr_desk::open;
use rr_fakes::clock::Moments;
use rr_fakes::dial::{PreparedDial, PreparedPeer};
use rr_fakes::replicas::minutes;
use rr_fakes::shelf::{PreparedOpening, PreparedShelf, ShelfNote};
use rr_fakes::visits::Prepared;
use rr_gossip::GossipFault;
use rr_node::{Config, NodeFault, keep_round};
use rr_packed::PackedArchive;
use rr_snapshot::SaveFault;
use std::alloc::Global;
use std::sync::Wait;
use std::test::Fail;

/// What failed: the last peer that did, and the save.
type Told = (Option<(usize, NodeFault)>, Option<SaveFault>);

/// What failed, by the calls of a shelf; none if it was told of served lines, of cells, or of a
/// writer that came back.
fn told(calls: &[ShelfNote]) -> Option<Told> {
    let mut peer = None;
    let mut save = None;
    for call in calls {
        match call {
            ShelfNote::PeerFailed(number, fault) => peer = Some((*number, *fault)),
            ShelfNote::SaveFailed(fault) => save = Some(*fault),
            ShelfNote::LinesTaken(None) | ShelfNote::PastHorizon(0) => {}
            ShelfNote::CountsCells(true) | ShelfNote::PullsEnded(Some(0)) => {}
            ShelfNote::Opened(_) => {}
            _ => return None,
        }
    }
    Some((peer, save))
}

/// Keeps a round of a new desk with these connections and this shelf. What its second peer sends is
/// no frame. Returns whether a connection came.
fn kept<R: Wait>(
    rt: &R,
    alloc: Global,
    inputs: &[Option<&[u8]>],
    shelf: &mut PreparedShelf,
) -> Option<bool> {
    let config = Config::from_toml(alloc, CONFIG).ok()?;
    let mut lines = Prepared::new(alloc, inputs).ok()?;
    let peers = [PreparedPeer {
        address: "yes",
        sends: Some(b"\xff\xff\xff\xff".as_slice()),
    }];
    let mut dial = PreparedDial::new(alloc, &peers, 2).ok()?;
    let replica = minutes::<PackedArchive>(alloc, 2, 3).ok()?;
    let (mut keeper, _readers) = open(alloc, rt, replica, 1).ok()?;
    let mut clock = Moments::new(Vec::new(alloc));
    let came = keep_round(
        alloc,
        &mut keeper,
        &mut lines,
        &mut dial,
        shelf,
        &mut clock,
        &config,
        rt,
    );
    keeper.close(rt);
    came.ok()
}

/// The fault of the second peer; the first one can't be reached.
const PEER: Option<(usize, NodeFault)> = Some((2, NodeFault::Session(GossipFault::FrameTooLong)));

/// Whether a round goes on after a failed connection, with a shelf that opens these, what failed in
/// it, and how often the shelf was called.
fn gone_on<R: Wait>(
    rt: &R,
    alloc: Global,
    openings: &[PreparedOpening],
) -> Option<(bool, Told, usize)> {
    let mut shelf = PreparedShelf::new(alloc, openings, 8).ok()?;
    let came = kept(rt, alloc, &[None], &mut shelf)?;
    let calls = shelf.calls()?;
    Some((came, told(calls)?, calls.len()))
}

/// Whether nothing is done if no connection will come.
fn is_over<R: Wait>(rt: &R, alloc: Global) -> Option<bool> {
    let mut shelf = PreparedShelf::new(alloc, &[], 0).ok()?;
    let came = kept(rt, alloc, &[], &mut shelf)?;
    Some(!came && shelf.calls()?.is_empty())
}

#[test]
fn a_round_goes_on_after_faults(rt: HostRuntime) -> Result<(), Fail> {
    let unopened = gone_on(&rt, rt.alloc(), &[PreparedOpening::Failed]);
    let unwanted = gone_on(&rt, rt.alloc(), &[]);
    let fault = Some(SaveFault::WriteFailed);
    assert!(rt; unopened == Some((true, (PEER, fault), 8)));
    assert!(rt; unwanted == Some((true, (PEER, None), 7)));
    assert!(rt; is_over(&rt, rt.alloc()) == Some(true));
    Ok(())
}
