//! The rounds of a keeper, one after the other, and what follows if memory runs out in them.

ghost use Rattle.std.specs.Prelude.{◌≡◌, is_ok};
ghost use Rattle.rr_node.specs.Rounds.{HasKept, KeepsOrHalts, post, rounds_of};

use crate::fault::NodeFault;
use crate::round::keep_round;
use crate::shelf::Shelf;
use rr_archive::Cells;
use rr_config::Config;
use rr_desk::Keeper;
use rr_host::{Clock, Dial, Halt, Visits};
use std::alloc::Global;
use std::sync::Wait;

/// How many rounds a configuration has.
fn most_rounds(config: &Config) -> u64
    ensures { result ≡ rounds_of config.now }
{
    if config.rounds == 0 {
        u64::MAX
    } else {
        config.rounds
    }
}

/// Keeps rounds, one after the other, until no more connections will come, until memory runs out,
/// or until there were as many as the configuration has.
fn keep_rounds<A: Cells, V: Visits, D: Dial, S: Shelf, C: Clock, T: Wait>(
    alloc: Global,
    keeper: &mut Keeper<A>,
    lines: &mut V,
    dial: &mut D,
    shelf: &mut S,
    clock: &mut C,
    config: &Config,
    rt: &T,
) -> Result<(), NodeFault>
    ensures { HasKept config.now (is_ok result) (V.calls lines.old) (V.calls lines.new)
        (D.calls dial.old) (D.calls dial.new) (S.calls shelf.old) (S.calls shelf.new)
        (post keeper.old (C.given clock.old)) (post keeper.new (C.given clock.new)) }
{
    for _ in 0..most_rounds(config) {
        if !keep_round(alloc, keeper, lines, dial, shelf, clock, config, rt)? {
            return Ok(());
        }
    }
    Ok(())
}

/// Keeps rounds, one after the other, until no more connections will come, or until there were as
/// many as the configuration says, and halts the node if memory runs out.
pub fn keep_or_halt<A: Cells, V: Visits, D: Dial, S: Shelf, H: Halt, C: Clock, T: Wait>(
    alloc: Global,
    keeper: &mut Keeper<A>,
    lines: &mut V,
    dial: &mut D,
    shelf: &mut S,
    halt: &mut H,
    clock: &mut C,
    config: &Config,
    rt: &T,
) -> Result<(), NodeFault>
    ensures { KeepsOrHalts config.now (is_ok result) (V.calls lines.old) (V.calls lines.new)
        (D.calls dial.old) (D.calls dial.new) (S.calls shelf.old) (S.calls shelf.new)
        (H.calls halt.old) (H.calls halt.new)
        (post keeper.old (C.given clock.old)) (post keeper.new (C.given clock.new)) }
{
    match keep_rounds(alloc, keeper, lines, dial, shelf, clock, config, rt) {
        Ok(()) => Ok(()),
        Err(fault) => {
            halt.halt();
            Err(fault)
        }
    }
}
