//! The rows of a fetch as JSON.

ghost use Rattle.std.specs.Prelude.{◌≡◌, ◌==◌, ◌++◌, map, IfOk, OnOk};
ghost use Rattle.std.specs.List.{flat_map, slice_split};
ghost use Rattle.rr_text.specs.declared.bytes.TheConstants.{LINE_FEED};
ghost use Rattle.rr_web.specs.Json.{cut_last, fetch_json, row_behind, row_of, rows_of, value_of};

use crate::json::push_quoted;
use memchr::memrchr;
use rr_text::bytes::{COMMA, LINE_FEED};
use std::alloc::{AllocError, Global};

/// What comes before the last comma, and what after it; nothing and all if there is none.
fn cut_last(text: &[u8]) -> (&[u8], &[u8])
    ensures { (result.0.now, result.1.now) ≡ cut_last text.now }
{
    match memrchr(COMMA, text) {
        Some(at) => (&text[..at], &text[at + 1..]),
        None => (&[], text),
    }
}

/// The start and the value of a record: its last two fields.
fn row_of(line: &[u8]) -> (&[u8], &[u8])
    ensures { (result.0.now, result.1.now) ≡ row_of line.now }
{
    let (before, value) = cut_last(line);
    let (_, start) = cut_last(before);
    (start, value)
}

/// A value; null for an unknown one.
fn value_of(value: &[u8]) -> &[u8]
    ensures { result.now ≡ value_of value.now }
{
    if value == b"U".as_slice() {
        b"null"
    } else {
        value
    }
}

/// Adds a comma and the row of a record, if there is a record.
fn push_row(text: &mut Vec<u8>, line: &[u8]) -> Result<(), AllocError>
    ensures { OnOk result (text.new.items ≡ text.old.items ++ row_behind line.now) }
{
    if line.is_empty() {
        return Ok(());
    }
    let (start, value) = row_of(line);
    text.extend_from_slice(b",[")?;
    text.extend_from_slice(start)?;
    text.push(COMMA)?;
    text.extend_from_slice(value_of(value))?;
    text.extend_from_slice(b"]")
}

/// The lines of records, and what follows the last line feed.
fn lines_of(alloc: Global, records: &[u8]) -> Result<Vec<&[u8]>, AllocError>
    ensures { IfOk result (λ lines. map (λ line. line.now) lines.items
        ≡ slice_split (λ byte. byte == LINE_FEED) records.now) }
{
    records.split(|byte| *byte == LINE_FEED).collect(alloc)
}

/// The rows of lines, each after a comma.
fn rows_behind(alloc: Global, lines: &[&[u8]]) -> Result<Vec<u8>, AllocError>
    ensures { IfOk result (λ rows. rows.items
        ≡ flat_map row_behind (map (λ line. line.now) lines.now)) }
{
    let mut rows = Vec::new(alloc);
    for line in lines {
        push_row(&mut rows, line)?;
    }
    Ok(rows)
}

/// The key, and the rows of the records that answer a fetch of it.
pub(crate) fn fetch_json(alloc: Global, key: &[u8], records: &[u8]) -> Result<Vec<u8>, AllocError>
    ensures { IfOk result (λ text. text.items ≡ fetch_json key.now records.now) }
{
    let lines = lines_of(alloc, records)?;
    let rows = rows_behind(alloc, &lines)?;
    let mut text = Vec::from_slice(alloc, b"{\"key\":")?;
    push_quoted(alloc, &mut text, key)?;
    text.extend_from_slice(b",\"rows\":[")?;
    text.extend_from_slice(rows.get(1..).unwrap_or(&[]))?;
    text.extend_from_slice(b"]}\n")?;
    Ok(text)
}
