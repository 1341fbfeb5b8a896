//! Cells in groups, each of one key and archive.
ghost use Rattle.std.specs.Prelude.{◌≡◌, ◌<◌, ◌≤◌, ◌+◌, ◌*◌, ◌^◌, ◌++◌, [], All, IfOk, IfSome, IsTrue, None, length, map, take};
ghost use Rattle.rr_text.specs.declared.limits.TheConstants.{MAX_KEY_TEXT};
ghost use Rattle.rr_cells.specs.Listing.{owned_cell};
ghost use Rattle.rr_journal.specs.Body.{packed_cells};
ghost use Rattle.rr_recovery.specs.Joining.{group_cells};
ghost use Rattle.rr_commit.specs.Grouping.{HaveCells, IsLike, slot_entry};

use rr_archive::Entry;
use rr_cells::Cell;
use rr_codec::encode;
use rr_journal::Group;
use std::alloc::{AllocError, Global};

/// Whether a cell is of the same key and archive as another.
fn is_like(first: &Cell, other: &Cell) -> bool
    ensures { IsTrue result → IsLike first.now other.now }
{
    other.key == first.key && other.archive == first.archive
}

/// How many of these cells, from the first on, have the same key and archive as another.
fn count_like(first: &Cell, others: &[Cell]) -> usize
    ensures bound { result ≤ length others.now }
    ensures like { All (IsLike first.now) (take result others.now) }
{
    let mut count = 0;
    for other in others {
        if !is_like(first, other) {
            return count;
        }
        count += 1;
    }
    count
}

/// The slots and entries of cells.
fn entries_of(alloc: Global, cells: &[Cell]) -> Result<Vec<(i64, Entry)>, AllocError>
    ensures { IfOk result (λ entries. entries.items ≡ map slot_entry cells.now) }
{
    let mut entries = Vec::new(alloc);
    for cell in cells {
        let entry = Entry {
            origin: cell.origin,
            contribution: cell.contribution,
        };
        entries.push((cell.slot, entry))?;
    }
    Ok(entries)
}

/// A group of cells that all have the key and archive of one.
fn group_of(alloc: Global, first: &Cell, cells: &[Cell]) -> Result<Group, AllocError>
    requires like { All (IsLike first.now) cells.now }
    requires few { length cells.now < 2 ^ 32 }
    ensures cells { IfOk result (λ group.
        group_cells (packed_cells group) ≡ map owned_cell cells.now) }
    ensures key { IfOk result (λ group. length group.key ≤ MAX_KEY_TEXT) }
    ensures size { IfOk result (λ group.
        length group.packed.items ≤ 24 + 123 * length cells.now) }
{
    // The proof needs the limits of the key, which `text` ensures.
    let _text = first.key.text();
    let entries = entries_of(alloc, cells)?;
    Ok(Group {
        key: first.key.copy()?,
        archive: first.archive,
        packed: encode(alloc, &entries)?,
    })
}

/// The first of some cells, those at their beginning with its key and archive, and the others.
#[derive(Clone, Copy)]
struct Run<'a> {
    first: &'a Cell,
    run: &'a [Cell],
    left: &'a [Cell],
}

/// The first run of some cells, if there is a cell.
fn next_run(cells: &[Cell]) -> Option<Run<'_>>
    ensures whole { IfSome result (λ r. r.run.now ++ r.left.now ≡ cells.now) }
    ensures like { IfSome result (λ r. All (IsLike r.first.now) r.run.now) }
    ensures fewer { IfSome result (λ r. length r.left.now < length cells.now) }
    ensures none { result ≡ None → cells.now ≡ [] }
{
    let (first, others) = cells.split_first()?;
    let (run, left) = cells.split_at(1 + count_like(first, others));
    Some(Run { first, run, left })
}

/// Cells in groups, in the same order: a group for consecutive cells of one key and archive. The
/// cost is that of [`rr_codec::encode`] for each.
pub(crate) fn groups_of(alloc: Global, cells: &[Cell]) -> Result<Vec<Group>, AllocError>
    requires { length cells.now < 2 ^ 32 }
    ensures { IfOk result (λ groups. HaveCells groups.items cells.now) }
{
    let mut groups = Vec::new(alloc);
    let mut left = cells;
    while let Some(next) = next_run(left) {
        groups.push(group_of(alloc, next.first, next.run)?)?;
        left = next.left;
    }
    Ok(groups)
}
