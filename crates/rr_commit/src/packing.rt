//! Cells packed into records, series by series.
ghost use Rattle.std.specs.Prelude.{◌≡◌, ◌++◌, ◌+◌, ◌*◌, ◌∷◌, ◌<◌, ◌≤◌, [], ℕ, List, IfOk, OnOk, length, map};
ghost use Rattle.rr_cells.specs.CellBounds.{NamedCell};
ghost use Rattle.rr_changes.specs.Listing.{changes_of, named_cell};
ghost use Rattle.rr_desk.specs.KeeperState.{cells_of};
ghost use Rattle.rr_journal.specs.Body.{group_text};
ghost use Rattle.rr_commit.specs.Packing.{AddsGroup, ArePacked, Packs};
ghost use Rattle.rr_commit.specs.declared.record.TheConstants.{MAX_RECORD_CELLS};

use rr_archive::{Cells, Entry};
use rr_changes::{ArchiveChanges, ChangedSeries};
use rr_codec::encode;
use rr_desk::Keeper;
use rr_journal::{MAX_BODY_LEN, RawRecord};
use rr_key::SeriesKey;
use std::alloc::{AllocError, Global};
use std::mem::replace;

/// The kind of a record of cells.
const CELLS: u8 = 1;

/// The most cells of a group: whatever they are, it fits into a record.
const GROUP_CELLS: usize = 512;

const _: () = prove!(CELLS == 1);

const _: () = prove!(GROUP_CELLS == 512);

/// Records of cells, series by series.
///
/// The groups of a series are kept back until they are all there. So they come into one record, if
/// one holds them.
#[derive(Drop)]
pub(crate) struct Packing {
    alloc: Global,
    /// The records that are closed.
    records: Vec<RawRecord>,
    /// The groups of the next record, of the series before.
    body: Vec<u8>,
    /// Those of the series that is being packed.
    own: Vec<u8>,
}

/// Adds the bytes of a group.
#[tactic(auto, unfolding(rr_journal::specs::Body::group_text))]
fn push_group(
    bytes: &mut Vec<u8>,
    key: &SeriesKey,
    archive: u8,
    packed: &[u8],
) -> Result<(), AllocError>
    requires { length packed.now ≤ MAX_BODY_LEN }
    ensures { OnOk result (bytes.new.items ≡ bytes.old.items
        ++ group_text (record { key = key.now; archive = archive; bytes = packed.now })) }
{
    let text = key.text();
    bytes.extend_from_slice(&(text.len() as u16).to_be_bytes())?;
    bytes.extend_from_slice(text)?;
    bytes.push(archive)?;
    bytes.extend_from_slice(&(packed.len() as u32).to_be_bytes())?;
    bytes.extend_from_slice(packed)?;
    Ok(())
}

/// The bytes of a group of some cells, at most [`GROUP_CELLS`].
fn group_of(
    alloc: Global,
    key: &SeriesKey,
    archive: u8,
    cells: &[(i64, Entry)],
) -> Result<Vec<u8>, AllocError>
    requires some { 1 ≤ length cells.now }
    requires few { length cells.now ≤ GROUP_CELLS }
    ensures { IfOk result (AddsGroup key.now archive cells.now) }
{
    // The proof needs the limits of the key, which `text` ensures.
    let _text = key.text();
    let packed = encode(alloc, cells)?;
    let mut bytes = Vec::new(alloc);
    push_group(&mut bytes, key, archive, &packed)?;
    Ok(bytes)
}

impl Packing {
    /// No record yet. Takes no memory.
    pub(crate) fn new(alloc: Global) -> Packing
        ensures { Packs result [] [] 0 }
    {
        Packing {
            alloc,
            records: Vec::new(alloc),
            body: Vec::new(alloc),
            own: Vec::new(alloc),
        }
    }

    /// Closes the next record, if it has a group.
    fn close(&mut self) -> Result<(), AllocError>
        ensures packs { (done : List (List NamedCell)) (since : List NamedCell) (more : ℕ)
            → Packs self.old done since more → OnOk result (Packs self.new done since more) }
        ensures closed { OnOk result (self.new.body.items ≡ []) }
        ensures own { OnOk result (self.new.own.items ≡ self.old.own.items) }
    {
        if self.body.is_empty() {
            return Ok(());
        }
        let body = replace(&mut self.body, Vec::new(self.alloc));
        self.records.push(RawRecord { kind: CELLS, body })?;
        Ok(())
    }

    /// Closes the next record, if it has no room for the groups that are kept back.
    fn make_room(&mut self) -> Result<(), AllocError>
        ensures packs { (done : List (List NamedCell)) (since : List NamedCell) (more : ℕ)
            → Packs self.old done since more → OnOk result (Packs self.new done since more) }
        ensures room { (done : List (List NamedCell)) (since : List NamedCell) (more : ℕ)
            → Packs self.old done since more → OnOk result
            (length self.new.body.items + length self.new.own.items ≤ MAX_BODY_LEN) }
    {
        if self.body.len() + self.own.len() > MAX_BODY_LEN {
            return self.close();
        }
        Ok(())
    }

    /// Adds the groups that are kept back to the next record, or if it has no room for them, to the
    /// one after it.
    fn settle(&mut self) -> Result<(), AllocError>
        ensures series { (done : List (List NamedCell)) (since : List NamedCell)
            → Packs self.old done since 0 → OnOk result (Packs self.new (done ++ since ∷ []) [] 0) }
        ensures part { (done : List (List NamedCell)) (since : List NamedCell) (more : ℕ)
            → Packs self.old done since 0 → MAX_RECORD_CELLS < length since + more
            → OnOk result (Packs self.new done since more) }
        ensures settled { OnOk result (self.new.own.items ≡ []) }
    {
        self.make_room()?;
        self.body.extend_from_slice(&self.own)?;
        self.own.clear();
        Ok(())
    }

    /// Settles the groups that are kept back, if a record doesn't hold them with another group.
    fn make_way(&mut self, group: &[u8]) -> Result<(), AllocError>
        ensures { (done : List (List NamedCell)) (since : List NamedCell) (more : ℕ)
            → Packs self.old done since 0 → length group.now ≤ 1178 * more → more ≤ GROUP_CELLS
            → OnOk result (Packs self.new done since more
            × (length self.new.own.items + length group.now ≤ MAX_BODY_LEN)) }
    {
        if self.own.len() + group.len() > MAX_BODY_LEN {
            return self.settle();
        }
        Ok(())
    }

    /// Adds a group of some cells, at most [`GROUP_CELLS`].
    fn add_group(
        &mut self,
        key: &SeriesKey,
        archive: u8,
        cells: &[(i64, Entry)],
    ) -> Result<(), AllocError>
        requires some { 1 ≤ length cells.now }
        requires few { length cells.now ≤ GROUP_CELLS }
        ensures { (done : List (List NamedCell)) (since : List NamedCell)
            → Packs self.old done since 0 → OnOk result
            (Packs self.new done (since ++ map (named_cell key.now archive) cells.now) 0) }
    {
        let group = group_of(self.alloc, key, archive, cells)?;
        self.make_way(&group)?;
        self.own.extend_from_slice(&group)
    }

    /// Adds cells of one key and archive.
    fn add_cells(
        &mut self,
        key: &SeriesKey,
        archive: u8,
        cells: &[(i64, Entry)],
    ) -> Result<(), AllocError>
        ensures { (done : List (List NamedCell)) (since : List NamedCell)
            → Packs self.old done since 0 → OnOk result
            (Packs self.new done (since ++ map (named_cell key.now archive) cells.now) 0) }
    {
        let mut left = cells;
        while !left.is_empty() {
            let (group, others) = left.split_at(left.len().min(GROUP_CELLS));
            self.add_group(key, archive, group)?;
            left = others;
        }
        Ok(())
    }

    /// Adds the changes of a series.
    pub(crate) fn add_series<A: Cells>(
        &mut self,
        keeper: &Keeper<A>,
        series: &ChangedSeries,
        changes: &mut ArchiveChanges,
    ) -> Result<(), AllocError>
        ensures { (done : List (List NamedCell)) → Packs self.old done [] 0
            → OnOk result (Packs self.new
            (done ++ changes_of keeper.now.schema (cells_of keeper.now) series.now ∷ []) [] 0) }
    {
        for archive in 0..keeper.schema().archives().len() {
            keeper.list_changes(changes, series, archive as u8)?;
            self.add_cells(&series.key, archive as u8, changes.cells())?;
        }
        self.settle()
    }

    /// All records.
    pub(crate) fn into_records(mut self) -> Result<Vec<RawRecord>, AllocError>
        ensures { (done : List (List NamedCell)) → Packs self done [] 0
            → IfOk result (λ records. ArePacked done records.items) }
    {
        self.close()?;
        Ok(self.records)
    }
}
