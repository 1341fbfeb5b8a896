//! The numbers of a node as families.

ghost use Rattle.std.specs.Prelude.{◌≡◌, ◌∷◌, ◌++◌, [], IfOk, OnOk, map};
ghost use Rattle.rr_web.specs.Family.{sample_view};
ghost use Rattle.rr_web.specs.NodeMetrics.{IsTextOf, about_families, archive_rows, checkpoint_families};
ghost use Rattle.rr_web.specs.NodeMetrics.{connection_families, counter, families_text, gauge};
ghost use Rattle.rr_web.specs.NodeMetrics.{journal_families, line_families, metrics_of, optional};
ghost use Rattle.rr_web.specs.NodeMetrics.{rows_of, store_families};
ghost use Rattle.rr_web.specs.Numbers.{family_of, numbers_in};

use crate::bodies::{RefusedBodies, body_samples};
use crate::family::{Amount, Family, FamilyKind, Sample, push_family};
use crate::peer_metrics::{PeerNumbers, push_peers};
use crate::process::{ProcessNumbers, push_process};
use crate::samples::{
    answer_samples, archive_samples, info_samples, refused_samples, samples_of, seconds, single,
    whole,
};
use rr_schema::{ArchiveSpec, Schema};
use std::alloc::{AllocError, Global};

/// The rows of an archive.
#[derive(Clone, Copy, Debug)]
pub struct ArchiveRows {
    /// The seconds of one row.
    pub seconds: u64,
    /// How many rows are kept.
    pub rows: u64,
}

/// Lines that were refused for one reason.
#[derive(Debug, Drop)]
pub struct RefusedLines {
    /// The name of their fault: any text.
    pub fault: Vec<u8>,
    /// How many there have been since the start.
    pub lines: u64,
}

/// What was answered over HTTP since the start, by the class of the status.
#[derive(Clone, Copy, Debug)]
pub struct AnswerCounts {
    /// 200 and 204.
    pub done: u64,
    /// From 400 to 499.
    pub refused: u64,
    /// 500 and above.
    pub failed: u64,
}

/// The numbers of a node. Counts are since its start.
#[derive(Debug, Drop)]
pub struct NodeMetrics {
    /// The version of the program.
    pub version: &'static str,
    /// The origin of the node's samples, once it is taken.
    pub origin: Option<u64>,
    /// What the system says of its process.
    pub process: ProcessNumbers,
    /// The rows of each archive.
    pub archives: Vec<ArchiveRows>,
    /// The series that are held.
    pub series: u64,
    /// The cells that are held.
    pub cells: u64,
    /// The connections that are open.
    pub connections: u64,
    /// The bytes of memory that are held for these.
    pub connection_bytes: u64,
    /// The writes that wait for the keeper.
    pub queued_writes: u64,
    /// What was answered over HTTP.
    pub answers: AnswerCounts,
    /// The points that were taken.
    pub points: u64,
    /// The samples that were taken.
    pub samples: u64,
    /// The lines that were refused, by fault.
    pub refused: Vec<RefusedLines>,
    /// The bodies that were refused whole, by fault.
    pub refused_bodies: RefusedBodies,
    /// The samples that no archive kept.
    pub past_horizon: u64,
    /// The offset in bytes up to which the journal is synced. Nothing written is kept unsynced.
    pub journal_synced: u64,
    /// The milliseconds since the last sync, if there was one.
    pub journal_sync_age: Option<u64>,
    /// The appends to the journal that failed.
    pub failed_appends: u64,
    /// The bytes of the last checkpoint, if there is one.
    pub checkpoint_bytes: Option<u64>,
    /// The milliseconds since then.
    pub checkpoint_age: Option<u64>,
    /// How its peers are followed.
    pub peers: Vec<PeerNumbers>,
}

/// The rows of an archive with steps of this many seconds.
fn rows_of(step: u32, archive: &ArchiveSpec) -> ArchiveRows
    ensures { result ≡ rows_of step archive.now }
{
    ArchiveRows {
        seconds: u64::from(step) * u64::from(archive.steps),
        rows: u64::from(archive.rows),
    }
}

/// The rows of each archive of a schema, finest first.
pub fn archive_rows(alloc: Global, schema: &Schema) -> Result<Vec<ArchiveRows>, AllocError>
    ensures { IfOk result (λ rows. rows.items ≡ archive_rows schema.now) }
{
    let mut rows = Vec::new(alloc);
    let archives = schema.archives();
    for archive in archives {
        rows.push(rows_of(schema.step(), archive))?;
    }
    Ok(rows)
}

/// Adds a family.
pub(crate) fn push(
    families: &mut Vec<Family>,
    kind: FamilyKind,
    name: &'static [u8],
    help: &'static [u8],
    samples: Vec<Sample>,
) -> Result<(), AllocError>
    ensures { OnOk result (map numbers_in families.new.items ≡ map numbers_in families.old.items
        ++ family_of kind name.now (map sample_view samples.items) ∷ []) }
{
    families.push(Family {
        name,
        help,
        kind,
        samples,
    })?;
    Ok(())
}

/// Adds a family of a number that rises and falls.
fn push_gauge(
    alloc: Global,
    families: &mut Vec<Family>,
    name: &'static [u8],
    help: &'static [u8],
    number: u64,
) -> Result<(), AllocError>
    ensures { OnOk result (map numbers_in families.new.items
        ≡ map numbers_in families.old.items ++ gauge name.now (Amount.Whole number) ∷ []) }
{
    let samples = single(alloc, Amount::Whole(number))?;
    push(families, FamilyKind::Gauge, name, help, samples)
}

/// Adds a family of a count.
fn push_counter(
    alloc: Global,
    families: &mut Vec<Family>,
    name: &'static [u8],
    help: &'static [u8],
    number: u64,
) -> Result<(), AllocError>
    ensures { OnOk result (map numbers_in families.new.items
        ≡ map numbers_in families.old.items ++ counter name.now (Amount.Whole number) ∷ []) }
{
    let samples = single(alloc, Amount::Whole(number))?;
    push(families, FamilyKind::Counter, name, help, samples)
}

/// Adds a family of a number that may not exist yet.
pub(crate) fn push_optional(
    alloc: Global,
    families: &mut Vec<Family>,
    name: &'static [u8],
    help: &'static [u8],
    amount: Option<Amount>,
) -> Result<(), AllocError>
    ensures { OnOk result (map numbers_in families.new.items ≡ map numbers_in families.old.items
        ++ optional name.now amount ∷ []) }
{
    let samples = samples_of(alloc, amount)?;
    push(families, FamilyKind::Gauge, name, help, samples)
}

/// Adds what the node is.
fn push_about(
    alloc: Global,
    families: &mut Vec<Family>,
    metrics: &NodeMetrics,
) -> Result<(), AllocError>
    ensures { OnOk result (map numbers_in families.new.items
        ≡ map numbers_in families.old.items ++ about_families metrics.now) }
{
    let info = info_samples(alloc, metrics.version, metrics.origin)?;
    let help = b"The version of the program and the origin of the node, as labels.";
    push(families, FamilyKind::Gauge, b"rr_info", help, info)?;
    let rows = archive_samples(alloc, &metrics.archives)?;
    let help = b"The rows that an archive keeps, by the seconds of one row.";
    push(families, FamilyKind::Gauge, b"rr_archive_rows", help, rows)
}

/// Adds what it holds.
fn push_store(
    alloc: Global,
    families: &mut Vec<Family>,
    metrics: &NodeMetrics,
) -> Result<(), AllocError>
    ensures { OnOk result (map numbers_in families.new.items
        ≡ map numbers_in families.old.items ++ store_families metrics.now) }
{
    let help = b"The series that are held.";
    push_gauge(alloc, families, b"rr_series", help, metrics.series)?;
    let help = b"The cells that are held: what one origin knows of one row.";
    push_gauge(alloc, families, b"rr_cells", help, metrics.cells)
}

/// Adds the numbers of its connections.
fn push_connections(
    alloc: Global,
    families: &mut Vec<Family>,
    metrics: &NodeMetrics,
) -> Result<(), AllocError>
    ensures { OnOk result (map numbers_in families.new.items
        ≡ map numbers_in families.old.items ++ connection_families metrics.now) }
{
    let help = b"The connections that are open.";
    push_gauge(
        alloc,
        families,
        b"rr_connections",
        help,
        metrics.connections,
    )?;
    let help = b"The bytes of memory that are held for connections.";
    let bytes = metrics.connection_bytes;
    push_gauge(alloc, families, b"rr_connection_bytes", help, bytes)?;
    let help = b"The writes that wait for the keeper.";
    push_gauge(
        alloc,
        families,
        b"rr_queued_writes",
        help,
        metrics.queued_writes,
    )?;
    let answers = answer_samples(alloc, metrics.answers)?;
    let help = b"Requests that were answered over HTTP, by the class of the status.";
    push(
        families,
        FamilyKind::Counter,
        b"rr_http_answers_total",
        help,
        answers,
    )
}

/// Adds what became of lines.
fn push_lines(
    alloc: Global,
    families: &mut Vec<Family>,
    metrics: &NodeMetrics,
) -> Result<(), AllocError>
    ensures { OnOk result (map numbers_in families.new.items
        ≡ map numbers_in families.old.items ++ line_families metrics.now) }
{
    let help = b"The points that were taken.";
    push_counter(alloc, families, b"rr_points_total", help, metrics.points)?;
    let help = b"The samples that were taken.";
    push_counter(alloc, families, b"rr_samples_total", help, metrics.samples)?;
    let refused = refused_samples(alloc, &metrics.refused)?;
    let help = b"The lines that were refused, by the name of their fault.";
    push(
        families,
        FamilyKind::Counter,
        b"rr_refused_total",
        help,
        refused,
    )?;
    let bodies = body_samples(alloc, metrics.refused_bodies)?;
    let help = b"The bodies that were refused whole, by the name of their fault.";
    push(
        families,
        FamilyKind::Counter,
        b"rr_refused_bodies_total",
        help,
        bodies,
    )?;
    let help = b"The samples that no archive kept, being older than its rows.";
    push_counter(
        alloc,
        families,
        b"rr_past_horizon_total",
        help,
        metrics.past_horizon,
    )
}

/// Adds the state of its journal.
fn push_journal(
    alloc: Global,
    families: &mut Vec<Family>,
    metrics: &NodeMetrics,
) -> Result<(), AllocError>
    ensures { OnOk result (map numbers_in families.new.items
        ≡ map numbers_in families.old.items ++ journal_families metrics.now) }
{
    let help = b"The offset up to which the journal is synced.";
    let synced = metrics.journal_synced;
    push_gauge(alloc, families, b"rr_journal_synced_bytes", help, synced)?;
    let help = b"The time since the journal was synced last.";
    let age = seconds(metrics.journal_sync_age);
    push_optional(alloc, families, b"rr_journal_sync_age_seconds", help, age)?;
    let help = b"The appends to the journal that failed.";
    let failed = metrics.failed_appends;
    push_counter(
        alloc,
        families,
        b"rr_journal_failed_appends_total",
        help,
        failed,
    )
}

/// Adds the state of its checkpoints.
fn push_checkpoint(
    alloc: Global,
    families: &mut Vec<Family>,
    metrics: &NodeMetrics,
) -> Result<(), AllocError>
    ensures { OnOk result (map numbers_in families.new.items
        ≡ map numbers_in families.old.items ++ checkpoint_families metrics.now) }
{
    let help = b"The size of the last checkpoint.";
    let bytes = whole(metrics.checkpoint_bytes);
    push_optional(alloc, families, b"rr_checkpoint_bytes", help, bytes)?;
    let help = b"The time since the last checkpoint.";
    let age = seconds(metrics.checkpoint_age);
    push_optional(alloc, families, b"rr_checkpoint_age_seconds", help, age)
}

/// The families of the numbers of a node.
fn families_of(alloc: Global, metrics: &NodeMetrics) -> Result<Vec<Family>, AllocError>
    ensures { IfOk result (λ families. map numbers_in families.items ≡ metrics_of metrics.now) }
{
    let mut families = Vec::new(alloc);
    push_about(alloc, &mut families, metrics)?;
    push_process(alloc, &mut families, metrics.process)?;
    push_store(alloc, &mut families, metrics)?;
    push_connections(alloc, &mut families, metrics)?;
    push_lines(alloc, &mut families, metrics)?;
    push_journal(alloc, &mut families, metrics)?;
    push_checkpoint(alloc, &mut families, metrics)?;
    push_peers(alloc, &mut families, &metrics.peers)?;
    Ok(families)
}

/// The text of families.
fn text_of(alloc: Global, families: &[Family]) -> Result<Vec<u8>, AllocError>
    ensures { IfOk result (λ text. text.items ≡ families_text families.now) }
{
    let mut text = Vec::new(alloc);
    for family in families {
        push_family(&mut text, family)?;
    }
    Ok(text)
}

/// The numbers of a node in the text form of Prometheus: a family for each, with a help. The cost
/// is linear in the text.
pub fn metrics_text(alloc: Global, metrics: &NodeMetrics) -> Result<Vec<u8>, AllocError>
    ensures { IfOk result (λ text. IsTextOf metrics.now text.items) }
{
    let families = families_of(alloc, metrics)?;
    text_of(alloc, &families)
}
