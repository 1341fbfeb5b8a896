//! Seats, each a reader with the connections that it serves.

ghost use Rattle.std.specs.Prelude.{◌≢◌, ◌≡◌, Err, List, MatchResult};
ghost use Rattle.rr_node.specs.Fetches.{sight};
ghost use Rattle.rr_node.specs.Seats.{reported_of_schema, visits_of, HasServedSeat, HasVisited};
ghost use Rattle.rr_host.specs.Visits.{Call, HasCalled};

use crate::fault::NodeFault;
use crate::reader::serve_reader;
use rr_archive::Cells;
use rr_desk::{Gate, Reader};
use rr_gossip::GossipFault;
use rr_host::{Visit, Visits};
use std::alloc::{AllocError, Global};

/// A reader of a desk, where its connections come from, and its gate.
#[derive(Drop)]
pub struct Seat<A: Cells, V: Visits, G: Gate> {
    /// The reader that answers.
    pub reader: Reader<A>,
    /// The connections.
    pub visits: V,
    /// The gate that the reader asks before each answer.
    pub gate: G,
}

/// Tells visits, before a connection is handed back, if the peer that pulled on it has another
/// schema.
fn tell<V: Visits>(visits: &mut V, served: &Result<(), NodeFault>)
    ensures { HasCalled (V.calls visits.old) (V.calls visits.new) (reported_of_schema served.now) }
{
    if let Err(NodeFault::Session(GossipFault::SchemaDiffers)) = served {
        visits.schema_differs();
    }
}

/// Goes on after a connection, whatever its fault, unless memory ran out.
fn end_without_memory(served: Result<(), NodeFault>) -> Result<(), AllocError>
    ensures { MatchResult result (λ _. served ≢ Err NodeFault.Memory)
        (λ _. served ≡ Err NodeFault.Memory) }
{
    match served {
        Err(NodeFault::Memory) => Err(AllocError),
        _ => Ok(()),
    }
}

/// Serves the next connection, and returns whether another may come.
fn serve_visit<A: Cells, V: Visits, G: Gate>(
    alloc: Global,
    seat: &mut Seat<A, V, G>,
) -> Result<bool, NodeFault>
    ensures { (calls : List Call) × HasCalled (V.calls seat.old.visits) (V.calls seat.new.visits)
        calls
        × HasVisited result calls
        (sight seat.old.reader (G.calls seat.old.gate))
        (sight seat.new.reader (G.calls seat.new.gate)) }
{
    match seat.visits.next() {
        Visit::Stream(input, output) => {
            let mut input = input;
            let mut output = output;
            let served = serve_reader(
                alloc,
                &mut input,
                &mut output,
                &mut seat.reader,
                &mut seat.gate,
            );
            tell(&mut seat.visits, &served);
            seat.visits.take_back(input, output);
            end_without_memory(served)?;
            Ok(true)
        }
        Visit::Failed => Ok(true),
        Visit::Over => Ok(false),
    }
}

/// How many connections a seat serves.
fn most_visits(visits: u64) -> u64
    ensures { result ≡ visits_of visits }
{
    if visits == 0 { u64::MAX } else { visits }
}

/// Serves the connections of a seat, one after the other, as [`serve_reader`] does: `visits` of
/// them, or without limit for 0, which is 2^64 - 1 of them. One that fails counts, whatever its
/// fault.
///
/// It ends earlier if no more connections will come, and as `Memory` if memory ran out; there is no
/// other fault. Each connection that was given is handed back.
pub fn serve_seat<A: Cells, V: Visits, G: Gate>(
    alloc: Global,
    seat: &mut Seat<A, V, G>,
    visits: u64,
) -> Result<(), NodeFault>
    ensures { (calls : List Call) × HasCalled (V.calls seat.old.visits) (V.calls seat.new.visits)
        calls
        × HasServedSeat (visits_of visits) result calls
        (sight seat.old.reader (G.calls seat.old.gate))
        (sight seat.new.reader (G.calls seat.new.gate)) }
{
    for _ in 0..most_visits(visits) {
        if !serve_visit(alloc, seat)? {
            return Ok(());
        }
    }
    Ok(())
}
