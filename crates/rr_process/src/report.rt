//! The report of a line: a record for each of its samples, or why it is refused.

ghost use Rattle.std.specs.Prelude.{◌≡◌, ◌≢◌, ◌++◌, IfOk, OnOk, is_err};
ghost use Rattle.rr_text.specs.Bytes.{HasNoLineFeed};
ghost use Rattle.rr_feed.specs.Items.{item_view, IsLine};
ghost use Rattle.rr_line.specs.Fault.{line_fault_name};
ghost use Rattle.rr_point.specs.Key.{HasKeys};
ghost use Rattle.rr_point.specs.Point.{point_view};
ghost use Rattle.rr_line.specs.Reading.{reading};
ghost use Rattle.rr_text.specs.Refusal.{refusal_text};
ghost use Rattle.rr_process.specs.Report.{is_refused, item_text, line_text, point_text};
ghost use Rattle.rr_process.specs.Writing.{written, IsBetween};

use crate::records::{push_refused, push_sample};
use csv::Writer;
use itoa::Buffer;
use rr_feed::{FeedLine, LINE_TOO_LONG};
use rr_line::{Line, LineFault, Point, Precision, parse_line};
use std::alloc::{AllocError, Global};

/// Adds the samples of a point; one without a time has the time `now`. Each key text is written
/// over `key`, whose memory is reused.
fn push_point(
    alloc: Global,
    report: &mut Writer<Vec<u8>>,
    key: &mut Vec<u8>,
    point: &Point<'_>,
    now: i64,
) -> Result<(), AllocError>
    requires between { IsBetween report.old }
    requires keys { HasKeys (point_view point.now) }
    ensures between { OnOk result (IsBetween report.new) }
    ensures pushed { OnOk result (written report.new
        ≡ written report.old ++ point_text now (point_view point.now)) }
{
    let time = point.time.unwrap_or(now);
    let mut buffer = Buffer::new();
    let digits = buffer.format(time).as_bytes();
    for field in &point.fields {
        point.write_key(alloc, key, field.key)?;
        let mut number = Buffer::new();
        let value = number.format(field.value).as_bytes();
        push_sample(report, key, value, digits)?;
    }
    Ok(())
}

/// Adds the refusal of the line with this number, unless memory ran out.
fn push_fault(
    report: &mut Writer<Vec<u8>>,
    field: &mut Vec<u8>,
    number: u64,
    fault: LineFault,
) -> Result<(), AllocError>
    requires { IsBetween report.old }
    ensures between { OnOk result (IsBetween report.new) }
    ensures pushed { OnOk result (written report.new
        ≡ written report.old ++ refusal_text number (line_fault_name fault)) }
    ensures read { OnOk result (fault ≢ LineFault.Memory) }
{
    match fault {
        LineFault::Memory => Err(AllocError),
        _ => push_refused(report, field, number, fault.name()),
    }
}

/// Adds the report of the line with this number, and returns whether it is refused. Fields are
/// written over `field`, whose memory is reused.
fn push_line(
    alloc: Global,
    report: &mut Writer<Vec<u8>>,
    field: &mut Vec<u8>,
    line: &[u8],
    number: u64,
    precision: Precision,
    now: i64,
) -> Result<bool, AllocError>
    requires between { IsBetween report.old }
    requires line { HasNoLineFeed line.now }
    ensures between { OnOk result (IsBetween report.new) }
    ensures pushed { OnOk result (written report.new
        ≡ written report.old ++ line_text now number (reading precision line.now)) }
    ensures refused { IfOk result (λ refused. refused ≡ is_err (reading precision line.now)) }
{
    match parse_line(alloc, line, precision) {
        Ok(Line::Nothing) => Ok(false),
        Ok(Line::Point(point)) => {
            push_point(alloc, report, field, &point, now)?;
            Ok(false)
        }
        Err(fault) => {
            push_fault(report, field, number, fault)?;
            Ok(true)
        }
    }
}

/// Adds the report of the item with this number, and returns whether it is refused. Fields are
/// written over `field`, whose memory is reused.
pub(crate) fn push_item(
    alloc: Global,
    report: &mut Writer<Vec<u8>>,
    field: &mut Vec<u8>,
    item: FeedLine<'_>,
    number: u64,
    precision: Precision,
    now: i64,
) -> Result<bool, AllocError>
    requires between { IsBetween report.old }
    requires line { IsLine (item_view item) }
    ensures between { OnOk result (IsBetween report.new) }
    ensures pushed { OnOk result (written report.new
        ≡ written report.old ++ item_text precision now number (item_view item.entry)) }
    ensures refused { IfOk result (λ refused. refused
        ≡ is_refused precision (item_view item.entry)) }
{
    match item {
        FeedLine::Line(line) => push_line(alloc, report, field, line, number, precision, now),
        FeedLine::TooLong => {
            push_refused(report, field, number, LINE_TOO_LONG)?;
            Ok(true)
        }
    }
}
