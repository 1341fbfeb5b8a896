//! The numbers of a node's peers.

ghost use Rattle.std.specs.Prelude.{◌≡◌, ◌++◌, IfOk, OnOk, map};
ghost use Rattle.rr_web.specs.Family.{sample_view};
ghost use Rattle.rr_web.specs.Numbers.{numbers_in};
ghost use Rattle.rr_web.specs.PeerMetrics.{amount_of, peer_families, peer_sample, peer_samples};

use crate::family::{Amount, Family, FamilyKind, Label, Sample};
use crate::node_metrics::push;
use std::alloc::{AllocError, Global};

/// How a node follows one of its peers.
#[derive(Debug, Drop)]
pub struct PeerNumbers {
    /// The address of the peer.
    pub address: Vec<u8>,
    /// 1 if the peer's last answer was taken, and 0 if it can't be followed.
    pub up: u64,
    /// How many bytes of the peer's journal aren't read yet, as far as known.
    pub lag_bytes: u64,
    /// The milliseconds since all of it was read; 0 while all is.
    pub lag: u64,
    /// 1 if the peer has samples of this node's own origin that this node never wrote, else 0.
    pub own_origin: u64,
}

/// One of the numbers of a peer.
#[derive(Clone, Copy, Debug, PartialEq, Eq)]
pub(crate) enum PeerNumber {
    /// Whether it is followed.
    Up,
    /// The bytes that aren't read yet.
    LagBytes,
    /// The time since all was read.
    Lag,
    /// Whether it has samples of this node's own origin.
    OwnOrigin,
}

/// The amount of one of a peer's numbers.
fn amount_of(number: PeerNumber, peer: &PeerNumbers) -> Amount
    ensures { result ≡ amount_of number peer.now }
{
    match number {
        PeerNumber::Up => Amount::Whole(peer.up),
        PeerNumber::LagBytes => Amount::Whole(peer.lag_bytes),
        PeerNumber::Lag => Amount::Thousandths(peer.lag),
        PeerNumber::OwnOrigin => Amount::Whole(peer.own_origin),
    }
}

/// The sample of one of a peer's numbers.
fn peer_sample(alloc: Global, number: PeerNumber, peer: &PeerNumbers) -> Result<Sample, AllocError>
    ensures { IfOk result (λ sample. sample_view sample ≡ peer_sample number peer.now) }
{
    let mut labels = Vec::new(alloc);
    labels.push(Label {
        name: b"peer",
        value: Vec::from_slice(alloc, &peer.address)?,
    })?;
    Ok(Sample {
        labels,
        amount: amount_of(number, peer),
    })
}

/// A sample of one number for each peer.
fn peer_samples(
    alloc: Global,
    number: PeerNumber,
    peers: &[PeerNumbers],
) -> Result<Vec<Sample>, AllocError>
    ensures { IfOk result (λ samples. map sample_view samples.items
        ≡ peer_samples number peers.now) }
{
    let mut samples = Vec::new(alloc);
    for peer in peers {
        samples.push(peer_sample(alloc, number, peer)?)?;
    }
    Ok(samples)
}

/// Adds how the peers are followed.
pub(crate) fn push_peers(
    alloc: Global,
    families: &mut Vec<Family>,
    peers: &[PeerNumbers],
) -> Result<(), AllocError>
    ensures { OnOk result (map numbers_in families.new.items
        ≡ map numbers_in families.old.items ++ peer_families peers.now) }
{
    let up = peer_samples(alloc, PeerNumber::Up, peers)?;
    let help = b"Whether the last answer of a peer was taken.";
    push(families, FamilyKind::Gauge, b"rr_peer_up", help, up)?;
    let bytes = peer_samples(alloc, PeerNumber::LagBytes, peers)?;
    let help = b"The bytes of a peer's journal that are not read yet.";
    push(
        families,
        FamilyKind::Gauge,
        b"rr_peer_lag_bytes",
        help,
        bytes,
    )?;
    let lag = peer_samples(alloc, PeerNumber::Lag, peers)?;
    let help = b"The time since all of a peer's journal was read; 0 while all is.";
    push(
        families,
        FamilyKind::Gauge,
        b"rr_peer_lag_seconds",
        help,
        lag,
    )?;
    let own = peer_samples(alloc, PeerNumber::OwnOrigin, peers)?;
    let help = b"Whether a peer has samples of this node's origin that this node never wrote.";
    push(
        families,
        FamilyKind::Gauge,
        b"rr_peer_own_origin",
        help,
        own,
    )
}
