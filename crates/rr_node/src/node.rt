//! A node: one keeper, and readers on threads of their own.

ghost use Rattle.std.specs.Prelude.{◌≡◌, ◌&&◌, [], ◌∷◌, Bool, true, false, is_ok, IfErr, OnErr, OnOk};
ghost use Rattle.std.specs.Thread.{IsSync};
ghost use Rattle.rr_host.specs.Calls.{Grows};
ghost use Rattle.rr_node.specs.Rounds.{HasKept, halts, post};
ghost use Rattle.rr_node.specs.Seats.{served};

use crate::fault::NodeFault;
use crate::rounds::keep_or_halt;
use crate::shelf::Shelf;
use rr_archive::Cells;
use rr_config::Config;
use rr_desk::Keeper;
use rr_host::{Clock, Dial, Halt, Visits};
use std::alloc::Global;
use std::sync::Wait;
use std::thread::{Threads, join_mut};

/// The seats of a node, each of which is served on a thread of its own.
///
/// They are seen as the list of their calls, if that is known.
pub trait Seats {
    ghost use Rattle.std.specs.Prelude.{List, [], ◌∷◌, Option};
    ghost use Rattle.std.specs.Thread.{IsSync};
    ghost use Rattle.rr_host.specs.Calls.{Grows};
    ghost use Rattle.rr_node.specs.Seats.{SeatsCall, served};

    ghost calls: { Self → Option (List SeatsCall) };

    /// Serves each seat as [`crate::serve_seat`] does, for this many connections, and returns
    /// whether memory sufficed in all of them. It ends when all seats have.
    ///
    /// If memory runs out at one of them, or the node is halted, the others must end too, whatever
    /// they wait for.
    fn serve<T: Threads + Sync>(&mut self, rt: &T, alloc: Global, visits: u64) -> bool
        requires { IsSync T.row }
        ensures { Grows (calls self.old) (calls self.new) (served visits result ∷ []) };
}

/// Serves as a node. The calling thread keeps rounds ([`crate::keep_round`]) until no more line
/// connections will come, or until there were as many as the configuration says; each seat is
/// served on a thread of its own ([`crate::serve_seat`]), for as many connections as it says. It
/// ends when all threads have.
///
/// Refused only as `Memory`, if it ran out on one of the threads, which then ended early. `halt` is
/// called exactly when it ran out in the rounds, so that the seats end early too.
pub fn serve_node<
    A: Cells,
    V: Visits,
    D: Dial,
    S: Shelf,
    Q: Seats + Send,
    H: Halt,
    C: Clock,
    T: Threads + Wait + Sync,
>(
    alloc: Global,
    keeper: &mut Keeper<A>,
    lines: &mut V,
    dial: &mut D,
    shelf: &mut S,
    seats: &mut Q,
    halt: &mut H,
    clock: &mut C,
    config: &Config,
    rt: &T,
) -> Result<(), NodeFault>
    ensures rounds { OnOk result (HasKept config.now true (V.calls lines.old) (V.calls lines.new)
        (D.calls dial.old) (D.calls dial.new) (S.calls shelf.old) (S.calls shelf.new)
        (post keeper.old (C.given clock.old)) (post keeper.new (C.given clock.new))) }
    ensures seats { OnOk result (Grows (Q.calls seats.old) (Q.calls seats.new)
        (served config.now.visits true ∷ [])) }
    ensures on { OnOk result (Grows (H.calls halt.old) (H.calls halt.new) []) }
    ensures so_far { OnErr result ((kept sufficed : Bool) × ((kept && sufficed) ≡ false)
        × HasKept config.now kept (V.calls lines.old) (V.calls lines.new)
        (D.calls dial.old) (D.calls dial.new) (S.calls shelf.old) (S.calls shelf.new)
        (post keeper.old (C.given clock.old)) (post keeper.new (C.given clock.new))
        × Grows (Q.calls seats.old) (Q.calls seats.new) (served config.now.visits sufficed ∷ [])
        × Grows (H.calls halt.old) (H.calls halt.new) (halts kept)) }
    ensures memory { IfErr result (λ fault. fault ≡ NodeFault.Memory) }
{
    let visits = config.visits;
    let mut seating = || -> bool
        requires { IsSync T.row }
        ensures { Grows (Q.calls seats.entry.now) (Q.calls seats.exit.now)
            (served visits result ∷ []) }
    { seats.serve(rt, alloc, visits) };
    let mut keeping = || -> Result<(), NodeFault>
        ensures { HasKept config.entry.now (is_ok result) (V.calls lines.entry.now)
            (V.calls lines.exit.now)
            (D.calls dial.entry.now) (D.calls dial.exit.now) (S.calls shelf.entry.now)
            (S.calls shelf.exit.now)
            (post keeper.entry.now (C.given clock.entry.now))
            (post keeper.exit.now (C.given clock.exit.now))
            × Grows (H.calls halt.entry.now) (H.calls halt.exit.now) (halts (is_ok result)) }
    { keep_or_halt(alloc, keeper, lines, dial, shelf, halt, clock, config, rt) };
    let (served, kept) = join_mut(rt, &mut seating, &mut keeping);
    match kept {
        Ok(()) if served => Ok(()),
        _ => Err(NodeFault::Memory),
    }
}
