//! What a fetch asks for.

ghost use Rattle.std.specs.Prelude.{◌≡◌, ◌<◌, ◌≤◌, pos, neg_ℤ, ◌-ℤ◌, unsigned_abs, List, ℕ, IfOk, IfErr};
ghost use Rattle.std.specs.Int.{int_div_euclid};
ghost use Rattle.rr_text.specs.Results.{Gives};
ghost use Rattle.rr_schema.specs.Schema.{IsSpan};
ghost use Rattle.rr_fetch.specs.Requests.{few_rows, read, request_of_words, rows_between, IsFetchable, IsFirstSlot, IsRangeOf, MakesRequest};
ghost use Rattle.rr_fetch.specs.Words.{parts};

use crate::fault::RequestFault;
use crate::words::{RequestWords, function_of, key_of, request_words, resolution_of, second_of};
use rr_key::SeriesKey;
use rr_schema::{ConsolidationFunction, Schema};
use rr_text::limits::{MAX_FETCH_ROWS, MAX_SECOND};
use std::alloc::Global;

/// Rows of a series in an archive, from a first slot on, each consolidated by a function.
#[derive(Debug, Drop)]
pub struct Request {
    /// The key of the series.
    pub key: SeriesKey,
    /// How the samples of a row are consolidated.
    pub cf: ConsolidationFunction,
    /// The number of the archive in its schema, from 0.
    pub archive: u8,
    /// The slot of the first row.
    pub first: i64,
    /// The number of rows.
    pub rows: u32,
}

/// `floor(second / span)`.
fn first_slot(second: i64, span: u32) -> i64
    requires { 0 < span }
    ensures { IsFirstSlot second span result }
{
    second.div_euclid(i64::from(span))
}

/// `ceil(second / span)`.
fn slot_after(second: i64, span: u32) -> i64
    requires span { IsSpan span }
    requires second_near { unsigned_abs second ≤ MAX_SECOND }
    ensures value { result ≡ neg_ℤ (int_div_euclid (neg_ℤ second) (pos span)) }
    ensures slot_nearer { unsigned_abs result ≤ unsigned_abs second }
{
    let negated = -second;
    -first_slot(negated, span)
}

/// The number of slots from one up to another.
fn slots_between(first: i64, last: i64) -> u64
    requires first_near { unsigned_abs first ≤ MAX_SECOND }
    requires last_near { unsigned_abs last ≤ MAX_SECOND }
    ensures { result ≡ unsigned_abs (last -ℤ first) }
{
    (last - first).unsigned_abs()
}

/// The slot of the first row and the number of rows: from the slot of the start up to the last one
/// that begins before the end.
fn rows_of(schema: &Schema, archive: u8, start: i64, end: i64) -> Result<(i64, u32), RequestFault>
    requires { IsRangeOf schema.now archive start end }
    ensures value { (key : List ℕ) (function : ConsolidationFunction)
        → Gives (λ rows. record {
          key = key;
          function = function;
          archive = archive;
          first = rows.0;
          rows = rows.1;
        })
        result (few_rows (rows_between schema.now key function archive start end)) }
    ensures fetchable { IfOk result (λ rows. (key : List ℕ) (function : ConsolidationFunction)
        → IsFetchable schema.now
        (record {
          key = key;
          function = function;
          archive = archive;
          first = rows.0;
          rows =
              rows.1;
        })) }
    ensures fault { IfErr result (λ fault. fault ≡ RequestFault.TooManyRows) }
{
    let span = schema.span(archive);
    let first = first_slot(start, span);
    let last = slot_after(end, span);
    let rows = slots_between(first, last);
    if rows > u64::from(MAX_FETCH_ROWS) {
        return Err(RequestFault::TooManyRows);
    }
    Ok((first, rows as u32))
}

/// The request of the words `CF RESOLUTION START END KEY`, separated by single spaces; spaces in
/// the key are its own.
///
/// The function is `AVERAGE`, `MIN`, `MAX` or `LAST`. The other three are seconds in decimal: a
/// resolution from 1 to [`MAX_SECOND`], and a start and an end at most that far either side of the
/// epoch. The archive is the one that [`Schema::choose`] chooses, and the rows are those from the
/// slot of the start up to the last one that begins before the end.
///
/// Refusals, in this order: `BadCommand`, for fewer than five words; `BadCf`; `BadNumber`, for each
/// of the three numbers; `BadKey`; `EmptyRange`, for a start that is not before the end;
/// `TooManyRows`, for more than [`MAX_FETCH_ROWS`]; and `Memory` only if none of these applies. The
/// cost is linear in the bytes.
#[tactic(auto, unfolding(crate::specs::Requests::request_of_words))]
pub fn parse_request(alloc: Global, bytes: &[u8], schema: &Schema) -> Result<Request, RequestFault>
    ensures { MakesRequest schema.now result (request_of_words schema.now bytes.now) }
{
    let words = request_words(bytes).ok_or(RequestFault::BadCommand)?;
    read_request(alloc, &words, schema)
}

/// The request of words that are already split; the refusals are those of [`parse_request`] after
/// `BadCommand`.
#[tactic(auto, unfolding(crate::specs::Requests::read))]
pub fn read_request(
    alloc: Global,
    words: &RequestWords<'_>,
    schema: &Schema,
) -> Result<Request, RequestFault>
    ensures { MakesRequest schema.now result (read schema.now (parts words.now)) }
{
    let cf = function_of(words.function).ok_or(RequestFault::BadCf)?;
    let resolution = resolution_of(words.resolution).ok_or(RequestFault::BadNumber)?;
    let start = second_of(words.start).ok_or(RequestFault::BadNumber)?;
    let end = second_of(words.end).ok_or(RequestFault::BadNumber)?;
    let key = key_of(alloc, words.key)?;
    if start >= end {
        return Err(RequestFault::EmptyRange);
    }
    let archive = schema.choose(resolution);
    let (first, rows) = rows_of(schema, archive, start, end)?;
    let key = key.ok_or(RequestFault::Memory)?;
    Ok(Request {
        key,
        cf,
        archive,
        first,
        rows,
    })
}
