//! Cells of a peer that lies: other contents under an origin and a number already used.
ghost use Rattle.std.specs.Prelude.{◌≡◌, OnOk};
ghost use Rattle.rr_cells.specs.CellBounds.{IsCellOf};
ghost use Rattle.rr_cells.specs.Listing.{owned_cell};
ghost use Rattle.rr_replica.specs.ReplicaWithRoom.{replica_state};

use rr_archive::Cells;
use rr_base::Origin;
use rr_cells::Cell;
use rr_contrib::Contribution;
use rr_fakes::replicas::{MINUTE, minutes};
use rr_key::SeriesKey;
use rr_packed::PackedArchive;
use rr_replica::Replica;
use rr_replica::laws::join_keeps_the_live;
use std::alloc::{AllocError, Global};

/// Joins two cells into a replica in one order, and into one that holds the same in the other. By
/// the law of joins both then hold the same cells, whoever sent them.
fn join_either_way<A: Cells>(
    one: &mut Replica<A>,
    other: &mut Replica<A>,
    first: &Cell,
    second: &Cell,
) -> Result<(), AllocError>
    requires alike { replica_state one.old ≡ replica_state other.old }
    requires first { IsCellOf one.old.schema (owned_cell first.now) }
    requires second { IsCellOf one.old.schema (owned_cell second.now) }
    ensures { OnOk result (one.new.cells ≡ other.new.cells) }
{
    join_keeps_the_live();
    // The proof needs the schema to be within its limits, which this ensures.
    let _schema = one.schema();
    one.join_cell(first)?;
    one.join_cell(second)?;
    other.join_cell(second)?;
    other.join_cell(first)
}

/// Whether two replicas that hold the same take both cells, as cells of their schema, each in its
/// own order.
fn are_joined(
    one: &mut Replica<PackedArchive>,
    other: &mut Replica<PackedArchive>,
    first: &Cell,
    second: &Cell,
) -> bool
    requires { replica_state one.old ≡ replica_state other.old }
{
    if !first.is_of(one.schema()) {
        return false;
    }
    if !second.is_of(one.schema()) {
        return false;
    }
    join_either_way(one, other, first, second).is_ok()
}

/// The last value of the first cell.
fn first_value(replica: &Replica<PackedArchive>) -> i64 {
    let Some(cell) = replica.cell_at(0) else {
        return 0;
    };
    cell.contribution.last_value
}

/// What two replicas hold of two cells after each joined them in its own order.
fn left_of(alloc: Global, first: &Cell, second: &Cell) -> Option<(i64, i64)> {
    let mut one: Replica<PackedArchive> = minutes(alloc, 1, 3).ok()?;
    let mut other = one.copy(alloc).ok()?;
    let are_joined = are_joined(&mut one, &mut other, first, second);
    let left = (first_value(&one), first_value(&other));
    are_joined.then_some(left)
}

/// The cell that claims that origin 2 wrote a value one minute after the epoch, under number 1.
fn told(alloc: Global, value: i64) -> Option<Cell> {
    let contribution = Contribution::first(1, 0, MINUTE, value);
    Some(Cell {
        key: SeriesKey::parse_text(alloc, b"m v").ok()?,
        archive: 0,
        slot: 1,
        origin: Origin::new(2).ok()?,
        contribution,
    })
}

#[test]
fn of_what_a_liar_tells_the_greater_stays(rt: HostRuntime) {
    let left = match (told(rt.alloc(), 5), told(rt.alloc(), 9)) {
        (Some(less), Some(more)) => left_of(rt.alloc(), &less, &more),
        _ => None,
    };
    assert_eq!(rt; left, Some((9, 9)));
}
