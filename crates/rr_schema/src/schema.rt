//! The schema of a store.

ghost use Rattle.std.specs.Prelude.{◌≡◌, ◌<◌, ◌≤◌, ◌*◌, nat_eq, pos, length, unsigned_abs, unwrap_or, IfOk, IfErr, OnOk, IfSome, IfNone, ℕ};
ghost use Rattle.std.specs.Cmp.Lexicographic.{pointwise};
ghost use Rattle.std.specs.Int.{int_div_euclid, int_rem_euclid};
ghost use Rattle.std.specs.Result.{result_err};
ghost use Rattle.rr_schema.specs.Schema.{IsLayout, IsPlaceIn, IsSpan, archive_at, span, slot_of, is_known_enough, last_within, choice};
ghost use Rattle.rr_schema.specs.Check.{archive_fault, archives_fault, schema_fault};
ghost use Rattle.rr_schema.specs.Choice.{IsChoice};
ghost use Rattle.rr_schema.specs.SchemaBytes.{schema_bytes};
ghost use Rattle.rr_schema.specs.Added.{HasAdded, IsAddition, had_archives};

use crate::added::{Addition, archives_without, number_of_added};
use crate::archive::ArchiveSpec;
use crate::fault::SchemaFault;
use crate::schema_bytes::{
    ARCHIVE_LEN, Archives, are_archives, are_archives_without, are_of_schema, push_archives,
};
use rr_text::limits::{MAX_ARCHIVES, MAX_ROWS, MAX_STEP, MAX_STEPS, MAX_XFF_DEN, NANOSECONDS};
use std::alloc::{AllocError, Global};
use std::marker::Model;

/// How many bytes the step and the number of archives take.
const HEAD_LEN: usize = 5;

/// A step, and the archives from the finest on, within the limits of the store.
#[derive(Debug, Drop)]
pub struct Schema {
    step: u32,
    archives: Vec<ArchiveSpec>,
}

impl Model for Schema {
    ghost use Rattle.rr_schema.specs.Schema.{Layout, IsLayout};

    ghost Value = { Layout };

    ghost view = { λ s. record { step = s.step; archives = s.archives.items } };

    ghost invariant = { λ s. IsLayout (record { step = s.step; archives = s.archives.items }) };
}

/// The first fault of an archive, if it has one; the archive before it has `before` steps.
fn check_archive(before: u32, archive: &ArchiveSpec) -> Result<(), SchemaFault>
    ensures { result_err result ≡ archive_fault before archive.now }
{
    if archive.steps == 0 || archive.steps > MAX_STEPS {
        return Err(SchemaFault::BadSteps);
    }
    if archive.rows == 0 || archive.rows > MAX_ROWS {
        return Err(SchemaFault::BadRows);
    }
    if archive.den <= archive.num || archive.den > MAX_XFF_DEN {
        return Err(SchemaFault::BadXff);
    }
    if archive.steps <= before {
        return Err(SchemaFault::StepsNotRising);
    }
    Ok(())
}

fn check_archives(archives: &[ArchiveSpec]) -> Result<(), SchemaFault>
    ensures { result_err result ≡ archives_fault 0 archives.now }
{
    let mut before = 0;
    for archive in archives {
        check_archive(before, archive)?;
        before = archive.steps;
    }
    Ok(())
}

fn check(step: u32, archives: &[ArchiveSpec]) -> Result<(), SchemaFault>
    ensures { result_err result ≡ schema_fault step archives.now }
{
    if step == 0 || step > MAX_STEP {
        return Err(SchemaFault::BadStep);
    }
    if archives.is_empty() {
        return Err(SchemaFault::NoArchive);
    }
    if archives.len() > MAX_ARCHIVES {
        return Err(SchemaFault::TooManyArchives);
    }
    check_archives(archives)
}

/// `floor(time / seconds)`, for a time in nanoseconds.
fn whole_spans(time: i64, seconds: u32) -> i64
    requires { 0 < seconds }
    ensures { result ≡ int_div_euclid time (pos (seconds * 1_000_000_000)) }
{
    time.div_euclid(i64::from(seconds) * NANOSECONDS)
}

/// The whole steps since the epoch, modulo the steps of a row.
fn left_over(time: i64, step: u32, steps: u32) -> u32
    requires some_step { 0 < step }
    requires some_steps { 0 < steps }
    ensures value { result
        ≡ unsigned_abs (int_rem_euclid (int_div_euclid time (pos (step * 1_000_000_000)))
        (pos steps)) }
    ensures within { result < steps }
{
    let whole_steps = whole_spans(time, step);
    whole_steps.rem_euclid(i64::from(steps)) as u32
}

/// The number of the last archive whose span is not above the resolution, else 0.
fn last_within(step: u32, resolution: u64, archives: &[ArchiveSpec]) -> u8
    requires { length archives.now ≤ MAX_ARCHIVES }
    ensures { result ≡ last_within step resolution 0 0 archives.now }
{
    let mut found = 0;
    let mut next = 0;
    for archive in archives {
        if u64::from(step) * u64::from(archive.steps) <= resolution {
            found = next;
        }
        next += 1;
    }
    found
}

impl Schema {
    /// The schema of a step in seconds and these archives.
    ///
    /// Refusals, in this order: `BadStep`, `NoArchive`, `TooManyArchives`, then for each archive
    /// `BadSteps`, `BadRows`, `BadXff`, `StepsNotRising`; `Memory` last. The cost is linear in the
    /// archives.
    pub fn new(alloc: Global, step: u32, archives: &[ArchiveSpec]) -> Result<Schema, SchemaFault>
        ensures made { IfOk result (λ s. s ≡ record { step = step; archives = archives.now }) }
        ensures accepted { OnOk result (schema_fault step archives.now ≡ None) }
        ensures refused { IfErr result (λ fault.
            fault ≡ unwrap_or (schema_fault step archives.now) SchemaFault.Memory) }
        ensures within { IfOk result IsLayout }
    {
        check(step, archives)?;
        let archives = Vec::from_slice(alloc, archives)?;
        Ok(Schema { step, archives })
    }

    /// The step, in seconds.
    pub fn step(&self) -> u32
        ensures { result ≡ self.now.step }
    {
        self.step
    }

    /// The archives, from the finest on. The contract also says that the schema is within its
    /// limits.
    pub fn archives(&self) -> &[ArchiveSpec]
        ensures value { result.now ≡ self.now.archives }
        ensures within { IsLayout self.now }
    {
        self.archives.as_slice()
    }

    /// The same schema. The cost is linear in the archives.
    pub fn copy(&self, alloc: Global) -> Result<Schema, AllocError>
        ensures same { IfOk result (λ s. s ≡ self.now) }
        ensures within { IfOk result IsLayout }
    {
        let archives = Vec::from_slice(alloc, &self.archives)?;
        Ok(Schema {
            step: self.step,
            archives,
        })
    }

    /// The number of the archive that this schema adds to an older one, if it has the step and the
    /// archives of the older one, in their order, and one more. No memory is taken; the cost is
    /// quadratic in the archives, of which there are few.
    pub fn added(&self, old: &Schema) -> Option<u8>
        ensures added { IfSome result (λ i. HasAdded i self.now old.now) }
        ensures none { IfNone result ((i : ℕ) → HasAdded i self.now old.now → ⊥) }
    {
        if self.step != old.step {
            return None;
        }
        number_of_added(&self.archives, &old.archives).map(|number: usize| number as u8)
    }

    /// The schema without the archive with this number, which must not be its only one. The cost is
    /// linear in the archives.
    pub fn without(&self, alloc: Global, number: u8) -> Result<Schema, AllocError>
        requires is_there { number < length self.now.archives }
        requires others { 2 ≤ length self.now.archives }
        ensures made { IfOk result (λ s. HasAdded number self.now s) }
        ensures within { IfOk result IsLayout }
    {
        let archives = archives_without(alloc, number as usize, &self.archives)?;
        Ok(Schema {
            step: self.step,
            archives,
        })
    }

    /// The schema as bytes, big-endian: the step in four, the number of archives in one, and for
    /// each archive its steps in one, its rows in four and its xff in two and two. The cost is
    /// linear in the archives.
    #[tactic(auto, unfolding(crate::specs::SchemaBytes::schema_bytes))]
    pub fn bytes(&self, alloc: Global) -> Result<Vec<u8>, AllocError>
        ensures { IfOk result (λ bytes. bytes.items ≡ schema_bytes self.now) }
    {
        let mut bytes = Vec::with_capacity(alloc, self.byte_len())?;
        bytes.extend_from_slice(&self.step.to_be_bytes())?;
        bytes.push(self.archives.len() as u8)?;
        let archives = Archives {
            items: &self.archives,
        };
        push_archives(&mut bytes, archives)?;
        Ok(bytes)
    }

    /// Whether these are its bytes. No memory is taken; the cost is linear in the archives.
    #[tactic(auto, unfolding(crate::specs::SchemaBytes::schema_bytes))]
    pub fn has_bytes(&self, bytes: &[u8]) -> bool
        ensures { result ≡ pointwise nat_eq bytes.now (schema_bytes self.now) }
    {
        let archives = Archives {
            items: &self.archives,
        };
        are_of_schema(self.step, archives, bytes)
    }

    /// Whether these are the bytes of the archives that the schema had before an addition. No
    /// memory is taken; the cost is linear in the archives.
    pub fn had_archives(&self, addition: Addition, bytes: &[u8]) -> bool
        requires { IsAddition self.now addition }
        ensures { result ≡ had_archives self.now bytes.now addition }
    {
        let archives = Archives {
            items: &self.archives,
        };
        match addition {
            Addition::Nothing => are_archives(archives, bytes),
            Addition::Archive(number) => are_archives_without(number as usize, archives, bytes),
        }
    }

    /// How many bytes it takes.
    pub fn byte_len(&self) -> usize
        ensures { result ≡ length (schema_bytes self.now) }
    {
        HEAD_LEN + ARCHIVE_LEN * self.archives.len()
    }

    /// The archive with this number, from 0.
    pub fn archive(&self, number: u8) -> ArchiveSpec
        requires { number < length self.now.archives }
        ensures value { result ≡ archive_at self.now number }
        ensures some_steps { 0 < result.steps }
    {
        self.archives[number as usize]
    }

    /// The seconds of one row of an archive.
    pub fn span(&self, archive: u8) -> u32
        requires { archive < length self.now.archives }
        ensures value { result ≡ span self.now archive }
        ensures within { IsSpan result }
    {
        self.step * self.archive(archive).steps
    }

    /// The slot of an archive in which a time falls: `floor(time / span)`.
    pub fn slot(&self, archive: u8, time: i64) -> i64
        requires { archive < length self.now.archives }
        ensures { result ≡ slot_of self.now archive time }
    {
        whole_spans(time, self.span(archive))
    }

    /// The place of a time in its slot of an archive: which step of the row, from 0.
    pub fn place(&self, archive: u8, time: i64) -> u32
        requires { archive < length self.now.archives }
        ensures { IsPlaceIn self.now archive time result }
    {
        left_over(time, self.step, self.archive(archive).steps)
    }

    /// Whether a row of an archive is known when `known` of its places are: at most the fraction
    /// xff of its steps is then unknown.
    pub fn known_enough(&self, archive: u8, known: u32) -> bool
        requires { archive < length self.now.archives }
        ensures { result ≡ is_known_enough self.now archive known }
    {
        let archive = self.archive(archive);
        let unknown = archive.steps.saturating_sub(known);
        let most = u64::from(archive.num) * u64::from(archive.steps);
        u64::from(unknown) * u64::from(archive.den) <= most
    }

    /// The archive that answers a fetch at a resolution in seconds: the one with the greatest span
    /// not above it, else the one with the least span. The cost is linear in the archives.
    pub fn choose(&self, resolution: u64) -> u8
        ensures value { result ≡ choice self.now resolution }
        ensures rule { IsChoice self.now resolution result }
    {
        last_within(self.step, resolution, &self.archives)
    }
}
