//! Archives with finished blocks answer like those that keep their rows as they came.
use rr_archive::{Cells, PlainArchive};
use rr_base::Origin;
use rr_contrib::Contribution;
use rr_packed::PackedArchive;
use std::alloc::Global;

/// How many slots have a sample.
const SLOTS: u32 = 200;

/// An archive with a sample of one origin in each slot, which twice made its finished rows ready to
/// be shared, and then took two of a second origin in slots among them: one in a block that is only
/// packed, and one in the block that was finished last.
fn filled<A: Cells>(alloc: Global) -> Option<A> {
    let (first, second) = (Origin::new(1).ok()?, Origin::new(2).ok()?);
    let mut archive = A::new(alloc, 300);
    let others: &[A] = &[];
    for n in 0..SLOTS {
        let slot = i64::from(n);
        let sample = Contribution::first(u64::from(n) + 1, 0, slot * 60_000_000_000, slot * slot);
        archive.join_cell(slot, first, &sample).ok()?;
        if n == 140 {
            archive.share_rows(others.first());
        }
    }
    archive.share_rows(others.first());
    let late = Contribution::first(7, 0, 70 * 60_000_000_000, -5);
    archive.join_cell(70, second, &late).ok()?;
    let later = Contribution::first(8, 0, 150 * 60_000_000_000, -6);
    archive.join_cell(150, second, &later).ok()?;
    Some(archive)
}

/// A number that tells values in their order from other values and other orders.
fn mixed(so_far: i64, value: i64) -> i64 {
    so_far.wrapping_mul(31).wrapping_add(value)
}

/// The last values of all cells, as a walk finds them one after another.
fn walked<A: Cells>(archive: &A) -> i64 {
    let mut all = 0;
    let mut next = archive.cell_at(0);
    for _ in 0..2 * SLOTS {
        let Some((slot, entry)) = next else {
            return all;
        };
        all = mixed(all, entry.contribution.last_value);
        next = archive.next_cell(slot, entry.origin);
    }
    all
}

/// The last values of all cells, from rows read one by one.
fn read_by_rows<A: Cells>(alloc: Global, archive: &A) -> Option<i64> {
    let mut all = 0;
    let mut row = Vec::new(alloc);
    for n in 0..SLOTS {
        archive.entries_into(i64::from(n), &mut row).ok()?;
        for entry in &row {
            all = mixed(all, entry.contribution.last_value);
        }
    }
    Some(all)
}

/// The last values of all cells, from runs of slots.
fn read_by_runs<A: Cells>(alloc: Global, archive: &A) -> Option<i64> {
    let mut all = 0;
    let mut slot = 0;
    let mut run = Vec::new(alloc);
    for _ in 0..SLOTS {
        if slot >= i64::from(SLOTS) {
            return Some(all);
        }
        slot += i64::from(archive.cells_into(slot, &mut run).ok()?);
        for (_, entry) in &run {
            all = mixed(all, entry.contribution.last_value);
        }
    }
    Some(all)
}

/// How many cells there are, the last value of one found by its number, and all that is read.
fn answers<A: Cells>(alloc: Global) -> Option<(usize, Option<i64>, [i64; 3])> {
    let archive: A = filled(alloc)?;
    let last = archive
        .cell_at(71)
        .map(|(_, entry)| entry.contribution.last_value);
    let rows = read_by_rows(alloc, &archive)?;
    let runs = read_by_runs(alloc, &archive)?;
    Some((archive.cell_count(), last, [walked(&archive), rows, runs]))
}

#[test]
fn finished_blocks_answer_as_rows_do(rt: HostRuntime) {
    let plain = answers::<PlainArchive>(rt.alloc());
    let packed = answers::<PackedArchive>(rt.alloc());
    assert_eq!(rt; packed, plain);
    assert_eq!(rt;
        packed.map(|found| (found.0, found.1)),
        Some((202, Some(-5)))
    );
}
