//! A row as a CSV record.

ghost use Rattle.std.specs.Prelude.{◌≡◌, ◌≤◌, ◌++◌, [], ◌∷◌, ℕ, List, OnOk, drop};
ghost use Rattle.std.specs.Fmt.{signed_decimal};
ghost use Rattle.rr_fetch.specs.Digits.{HasNumberRoom, WritesBefore};
ghost use Rattle.rr_cells.specs.FetchText.{comma, line_feed, field_text, record_text, value_text};

use crate::digits::{MAX_NUMBER_TEXT, write_byte, write_number};
use rr_text::bytes::{COMMA, LINE_FEED};
use std::alloc::AllocError;

/// What is written for an unknown value.
const UNKNOWN: u8 = b'U';

/// The most bytes of a record after its first field and the comma.
pub(crate) const MAX_REST: usize = 2 * MAX_NUMBER_TEXT + 2;

const _: () = prove!(UNKNOWN == 85);

const _: () = prove!(MAX_REST == 42);

/// Writes a value, or `U` if it is unknown, just before `end`, and returns where it begins.
fn write_value(text: &mut [u8], end: usize, value: Option<i64>) -> usize
    requires { HasNumberRoom end text.old }
    ensures { WritesBefore end (value_text value) text.old text.new result }
{
    match value {
        Some(value) => write_number(text, end, value),
        None => write_byte(text, end, UNKNOWN),
    }
}

/// Writes what follows the first field of a row's record at the end of a buffer, and returns where
/// it begins.
fn write_rest(rest: &mut [u8; MAX_REST], start: i64, value: Option<i64>) -> usize
    ensures within { result ≤ MAX_REST }
    ensures written { drop result rest.new ≡ signed_decimal start ++ comma ∷ value_text value
        ++ line_feed ∷ [] }
{
    let end = write_byte(rest, MAX_REST, LINE_FEED);
    let end = write_value(rest, end, value);
    let end = write_byte(rest, end, COMMA);
    write_number(rest, end, start)
}

/// Adds the record of a row: its start second and its value, after the prefix that all rows of its
/// key share. The rest is made in a buffer that is reused, so that none is cleared for each row.
pub(crate) fn push_row(
    text: &mut Vec<u8>,
    rest: &mut [u8; MAX_REST],
    prefix: &[u8],
    start: i64,
    value: Option<i64>,
) -> Result<(), AllocError>
    ensures { (key : List ℕ) → prefix.now ≡ field_text key ++ comma ∷ []
        → OnOk result (text.new.items
        ≡ text.old.items ++ record_text key (start, value)) }
{
    let from = write_rest(rest, start, value);
    let (_, rest) = rest.split_at(from);
    text.extend_from_slice(prefix)?;
    text.extend_from_slice(rest)
}
