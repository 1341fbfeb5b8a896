//! The answers of a replica to requests.

ghost use Rattle.std.specs.Prelude.{◌≡◌, ◌*◌, ◌<◌, ◌≤◌, ◌+◌, ◌-◌, ◌^◌, min, ◌+ℤ◌, ◌*ℤ◌, pos, unsigned_abs, [], ◌∷◌, length, map, Err, IfOk, IfSome, OnOk};
ghost use Rattle.std.specs.Vec.{vec_capacity};
ghost use Rattle.rr_io.specs.Stream.{HasFailed, KeepsFailures, WritesPrefix, WritesWhole};
ghost use Rattle.rr_archive.specs.Cells.{row_of};
ghost use Rattle.rr_fetch.specs.Answers.{cells_text};
ghost use Rattle.rr_fetch.specs.Consolidation.{consolidation_of, IsRow};
ghost use Rattle.rr_fetch.specs.LentRows.{lent_cells};
ghost use Rattle.rr_fetch.specs.Requests.{request_view, IsFetchable};
ghost use Rattle.rr_fetch.specs.declared.record.TheConstants.{MAX_REST};

use crate::consolidation::{consolidate, consolidate_one};
use crate::fault::AnswerFault;
use crate::prefix::prefix_of;
use crate::record::{MAX_REST, push_row};
use crate::request::Request;
use crate::rows::Rows;
use rr_archive::{Cells, Entry};
use rr_io::Counted;
use rr_io::stream::write_all;
use rr_replica::Replica;
use rr_schema::Schema;
use rr_text::limits::{MAX_FETCH_ROWS, MAX_SECOND, MAX_STEP, MAX_STEPS};
use std::alloc::{AllocError, Global};
use std::io::Write;

/// The slot of a row.
fn slot_of(first: i64, row: u32) -> i64
    requires first_near { unsigned_abs first ≤ MAX_SECOND }
    requires row_within { row ≤ MAX_FETCH_ROWS }
    ensures value { result ≡ first +ℤ pos row }
    ensures slot_near { unsigned_abs result ≤ MAX_SECOND + MAX_FETCH_ROWS }
{
    first + i64::from(row)
}

/// The start of a slot in seconds.
fn start_of(slot: i64, span: u32) -> i64
    requires slot_near { unsigned_abs slot ≤ MAX_SECOND + MAX_FETCH_ROWS }
    requires span_fits { span ≤ MAX_STEP * MAX_STEPS }
    ensures { result ≡ slot *ℤ pos span }
{
    slot * i64::from(span)
}

/// The entry of the only cell, if there is exactly one.
fn lone_entry(cells: &[(i64, Entry)]) -> Option<&Entry>
    ensures { IfSome result (λ entry. map (λ c. c.1) cells.now ≡ entry.now ∷ []) }
{
    match cells {
        [(_, entry)] => Some(entry),
        _ => None,
    }
}

/// Replaces the entries of a row with those of cells.
fn copy_entries(cells: &[(i64, Entry)], entries: &mut Vec<Entry>) -> Result<(), AllocError>
    ensures { OnOk result (entries.new.items ≡ map (λ c. c.1) cells.now) }
{
    entries.clear();
    for (_, entry) in cells {
        entries.push(*entry)?;
    }
    Ok(())
}

/// The value of a slot by the request's function. `entries` is overwritten, unless the slot has
/// exactly one entry.
fn value_at<A: Cells>(
    rows: &mut Rows<'_, A>,
    slot: i64,
    entries: &mut Vec<Entry>,
    schema: &Schema,
    request: &Request,
) -> Result<Option<i64>, AllocError>
    requires archive_exists { request.now.archive < length schema.now.archives }
    requires slot_near { unsigned_abs slot ≤ MAX_SECOND + MAX_FETCH_ROWS }
    requires row { IsRow (row_of (lent_cells (λ a. A.cells a.now) rows.old.archive) slot) }
    ensures archive { rows.new.archive ≡ rows.old.archive }
    ensures value { IfOk result (λ value. value ≡ consolidation_of schema.now request.now.archive
        request.now.cf (row_of (lent_cells (λ a. A.cells a.now) rows.old.archive) slot)) }
{
    rows.read(slot)?;
    if let Some(entry) = lone_entry(rows.cells()) {
        let value = consolidate_one(entry, schema, request.archive, request.cf);
        return Ok(value);
    }
    copy_entries(rows.cells(), entries)?;
    Ok(consolidate(entries, schema, request.archive, request.cf))
}

/// An empty text with room for the rows of a request, each of the longest record with this prefix,
/// and no more.
fn text_for(alloc: Global, prefix: &[u8], request: &Request) -> Result<Vec<u8>, AllocError>
    ensures empty { IfOk result (λ text. text.items ≡ []) }
    ensures room { IfOk result (λ text. vec_capacity text
        ≡ min ((length prefix.now + MAX_REST) * request.now.rows) (2 ^ 64 - 1)) }
{
    let room = (prefix.len() + MAX_REST).saturating_mul(request.rows as usize);
    Vec::with_capacity(alloc, room)
}

/// The answer to a request as CSV: for each row a record of the key text, the start second, and the
/// value or `U` if it is unknown, ended by a line feed.
///
/// The request's archive must be one of the replica's schema, its first slot at most [`MAX_SECOND`]
/// either side of the epoch, and the number of its rows from 1 to [`MAX_FETCH_ROWS`]. The cost is
/// one look-up of the key, one look-up of the first slot of each run that the archive reads at
/// once, and a pass over the entries of each row. Memory is taken at once for the longest records
/// that the rows can have, and for the longest run.
pub fn answer_text<A: Cells>(
    alloc: Global,
    replica: &Replica<A>,
    request: &Request,
) -> Result<Vec<u8>, AllocError>
    requires { IsFetchable replica.now.schema (request_view request.now) }
    ensures { IfOk result (λ text. text.items
        ≡ cells_text replica.now.schema replica.now.cells (request_view request.now)) }
{
    let schema = replica.schema();
    let span = schema.span(request.archive);
    let archive = replica.archive(&request.key, request.archive);
    let prefix = prefix_of(alloc, request.key.text())?;
    let mut text = text_for(alloc, &prefix, request)?;
    let mut rest = [0; MAX_REST];
    let mut rows = Rows::new(alloc, archive);
    let mut entries = Vec::new(alloc);
    for row in 0..request.rows {
        let slot = slot_of(request.first, row);
        let start = start_of(slot, span);
        let value = value_at(&mut rows, slot, &mut entries, schema, request)?;
        push_row(&mut text, &mut rest, &prefix, start, value)?;
    }
    Ok(text)
}

/// Makes the answer to a request, as [`answer_text`] does, and then writes it.
///
/// `Memory` writes nothing. `WriteFailed` leaves a prefix of the text written, and is returned only
/// if a call of the writer failed.
pub fn answer<A: Cells, W: Write>(
    alloc: Global,
    replica: &Replica<A>,
    request: &Request,
    output: &mut Counted<W>,
) -> Result<(), AnswerFault>
    requires { IsFetchable replica.now.schema (request_view request.now) }
    ensures whole { OnOk result (WritesWhole W.contents output.old output.new
        (cells_text replica.now.schema replica.now.cells (request_view request.now))) }
    ensures nothing { result ≡ Err AnswerFault.Memory → output.new ≡ output.old }
    ensures prefix { result ≡ Err AnswerFault.WriteFailed
        → WritesPrefix W.contents output.old output.new (cells_text replica.now.schema
        replica.now.cells (request_view request.now)) }
    ensures failures_never_fall { KeepsFailures output.old output.new }
    ensures failed { result ≡ Err AnswerFault.WriteFailed → HasFailed output.old output.new }
{
    let text = answer_text(alloc, replica, request)?;
    write_all(output, &text)?;
    Ok(())
}
