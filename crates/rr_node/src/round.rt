//! A round of the keeper: the lines of a connection, the pulls from all peers, and a save.

ghost use Rattle.std.specs.Prelude.{◌≡◌, Bool, IfErr, List};
ghost use Rattle.rr_host.specs.Calls.{DialCall, Grows};
ghost use Rattle.rr_node.specs.Shelf.{ShelfCall};
ghost use Rattle.rr_node.specs.Round.{EndsLines, EndsRound, came_in, end_of_pulls, going_on};
ghost use Rattle.rr_host.specs.Visits.{Call, HasCalled};

use crate::fault::NodeFault;
use crate::lines::serve_lines;
use crate::peers::pull_peers;
use crate::report::Report;
use crate::saving::save_to;
use crate::shelf::Shelf;
use rr_archive::Cells;
use rr_config::Config;
use rr_desk::Keeper;
use rr_host::{Clock, Dial, Visit, Visits};
use std::alloc::{AllocError, Global};
use std::sync::Wait;

/// What came of waiting for a line connection.
#[derive(Drop)]
pub(crate) enum Lines {
    /// No more will come.
    Over,
    /// One came or failed, with the report of its lines if they were served to the end.
    Taken(Option<Report>),
}

/// Goes on after the lines of a connection, whatever its fault, unless memory ran out.
fn going_on(served: Result<Report, NodeFault>) -> Result<Lines, AllocError>
    ensures { came_in result ≡ going_on served }
{
    match served {
        Ok(report) => Ok(Lines::Taken(Some(report))),
        Err(NodeFault::Memory) => Err(AllocError),
        Err(_) => Ok(Lines::Taken(None)),
    }
}

/// Serves the lines of the next connection.
fn take_lines<A: Cells, V: Visits, C: Clock, T: Wait>(
    alloc: Global,
    keeper: &mut Keeper<A>,
    lines: &mut V,
    clock: &mut C,
    config: &Config,
    rt: &T,
) -> Result<Lines, AllocError>
    ensures { (calls : List Call) × HasCalled (V.calls lines.old) (V.calls lines.new) calls
        × EndsLines config.now (came_in result) keeper.old keeper.new (C.given clock.old)
        (C.given clock.new) calls }
{
    let (mut input, mut output) = match lines.next() {
        Visit::Stream(input, output) => (input, output),
        Visit::Failed => return Ok(Lines::Taken(None)),
        Visit::Over => return Ok(Lines::Over),
    };
    let (precision, lead) = (config.precision, config.lead);
    let served = serve_lines(
        alloc,
        &mut input,
        &mut output,
        keeper,
        clock,
        precision,
        lead,
        rt,
    );
    lines.take_back(input, output);
    going_on(served)
}

/// Tells a shelf that a round's pulls are over: how many samples no archive kept, and how many
/// cells there are, if it wants that.
fn end_pulls<A: Cells, S: Shelf>(shelf: &mut S, keeper: &Keeper<A>)
    ensures { (wanted : Bool) × Grows (S.calls shelf.old) (S.calls shelf.new)
        (end_of_pulls keeper.now wanted) }
{
    shelf.past_horizon(keeper.past_horizon());
    if shelf.counts_cells() {
        shelf.pulls_ended(Some(keeper.cell_count()));
    } else {
        shelf.pulls_ended(None);
    }
}

/// One round of a node's keeper: it serves the lines of the next connection, tells the shelf their
/// report, pulls from each peer of the configuration that is due, in order, tells the shelf that it
/// has, and saves a snapshot if the shelf wants one. Returns whether more connections may come; if
/// none will, nothing is done.
///
/// A fault of the connection ends only the connection. A peer that can't be reached or whose pull
/// fails is passed over, as is a save that fails; the shelf is told of both, and of a peer with
/// cells of the node's own origin that the node never wrote. `Memory` ends the round there; there
/// is no other fault. Each stream that was given is handed back.
pub fn keep_round<A: Cells, V: Visits, D: Dial, S: Shelf, C: Clock, T: Wait>(
    alloc: Global,
    keeper: &mut Keeper<A>,
    lines: &mut V,
    dial: &mut D,
    shelf: &mut S,
    clock: &mut C,
    config: &Config,
    rt: &T,
) -> Result<bool, NodeFault>
    ensures round { (calls : List Call) × (dialed : List DialCall) × (shelved : List ShelfCall)
        × HasCalled (V.calls lines.old) (V.calls lines.new) calls
        × Grows (D.calls dial.old) (D.calls dial.new) dialed
        × Grows (S.calls shelf.old) (S.calls shelf.new) shelved
        × EndsRound config.now (came_in result) keeper.old keeper.new
        (C.given clock.old) (C.given clock.new) calls dialed shelved }
    ensures memory { IfErr result (λ fault. fault ≡ NodeFault.Memory) }
{
    let Lines::Taken(report) = take_lines(alloc, keeper, lines, clock, config, rt)? else {
        return Ok(false);
    };
    shelf.lines_taken(report);
    pull_peers(alloc, &config.peers, dial, shelf, keeper, rt)?;
    end_pulls(shelf, keeper);
    save_to(alloc, shelf, keeper)?;
    Ok(true)
}
