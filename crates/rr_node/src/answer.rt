//! A line, handed to the keeper.

ghost use Rattle.std.specs.Prelude.{◌≡◌, ◌≤◌, [], ◌∷◌, length, map, IfSome};
ghost use Rattle.rr_text.specs.Bytes.{HasNoLineFeed};
ghost use Rattle.rr_text.specs.declared.limits.TheConstants.{MAX_FIELDS};
ghost use Rattle.rr_feed.specs.Items.{item_view, IsLine};
ghost use Rattle.rr_feed.specs.Items as feed;
ghost use Rattle.rr_line.specs.Known.{SaysSamples};
ghost use Rattle.rr_point.specs.Point.{point_view};
ghost use Rattle.rr_desk.specs.Points.{keyed_value};
ghost use Rattle.rr_node.specs.Connection.{HandledItem, Refuses, TakesPoint, TakesSamples};
ghost use Rattle.rr_point.specs.Key.{IsWritable};

use crate::rules::Rules;
use rr_archive::Cells;
use rr_desk::{Keeper, KeyedValue};
use rr_feed::{FeedLine, LINE_TOO_LONG};
use rr_host::Clock;
use rr_key::SeriesKey;
use rr_line::{KnownLine, LastTime, Line, LineFault, Point, Precision, parse_line, read_known};
use rr_replica::{AHEAD_OF_CLOCK, Hint, NUMBERS_SPENT, WriteFault};
use rr_text::limits::MAX_FIELDS;
use std::alloc::{AllocError, Global};

/// What became of a line.
#[derive(Clone, Copy)]
pub(crate) enum Answer {
    /// Nothing: it is empty or a comment.
    Nothing,
    /// This many samples were put, one for each field of its point.
    Put(u32),
    /// It is refused, with this name.
    Refused(&'static str),
}

/// Writes a point at the moment that the clock gives.
fn write_point<A: Cells, C: Clock>(
    keeper: &mut Keeper<A>,
    clock: &mut C,
    point: &Point<'_>,
    lead: Option<u64>,
) -> Result<Answer, AllocError>
    requires { IsWritable (point_view point.now) }
    ensures taken { TakesPoint lead (point_view point.now) keeper.old keeper.new
        (C.given clock.old) (C.given clock.new) result }
    ensures renewals { C.renewals clock.new ≡ C.renewals clock.old }
{
    let now = clock.now();
    match keeper.write(point, now, lead) {
        Ok(count) => Ok(Answer::Put(count)),
        Err(WriteFault::Memory { .. }) => Err(AllocError),
        Err(WriteFault::AheadOfClock) => Ok(Answer::Refused(AHEAD_OF_CLOCK)),
        Err(WriteFault::NumbersSpent) => Ok(Answer::Refused(NUMBERS_SPENT)),
    }
}

/// Writes a sample of a key, as its line gives it, at the moment that the clock gives.
fn write_sample<A: Cells, C: Clock>(
    keeper: &mut Keeper<A>,
    clock: &mut C,
    hint: Hint,
    key: SeriesKey,
    value: i64,
    time: Option<i64>,
    lead: Option<u64>,
) -> Result<Answer, AllocError>
    ensures taken { TakesSamples lead ((key, value) ∷ []) time keeper.old keeper.new
        (C.given clock.old) (C.given clock.new) result }
    ensures renewals { C.renewals clock.new ≡ C.renewals clock.old }
{
    let now = clock.now();
    match keeper.write_sample(hint, key, time, value, now, lead) {
        Ok(()) => Ok(Answer::Put(1)),
        Err(WriteFault::Memory { .. }) => Err(AllocError),
        Err(WriteFault::AheadOfClock) => Ok(Answer::Refused(AHEAD_OF_CLOCK)),
        Err(WriteFault::NumbersSpent) => Ok(Answer::Refused(NUMBERS_SPENT)),
    }
}

/// Writes samples of series, as their line gives them, at the moment that the clock gives.
fn write_samples<A: Cells, C: Clock>(
    keeper: &mut Keeper<A>,
    clock: &mut C,
    values: &[KeyedValue],
    time: Option<i64>,
    lead: Option<u64>,
) -> Result<Answer, AllocError>
    requires { length values.now ≤ MAX_FIELDS }
    ensures taken { TakesSamples lead (map keyed_value values.now) time keeper.old keeper.new
        (C.given clock.old) (C.given clock.new) result }
    ensures renewals { C.renewals clock.new ≡ C.renewals clock.old }
{
    let now = clock.now();
    match keeper.write_samples(values, time, now, lead) {
        Ok(count) => Ok(Answer::Put(count)),
        Err(WriteFault::Memory { .. }) => Err(AllocError),
        Err(WriteFault::AheadOfClock) => Ok(Answer::Refused(AHEAD_OF_CLOCK)),
        Err(WriteFault::NumbersSpent) => Ok(Answer::Refused(NUMBERS_SPENT)),
    }
}

/// Where the series likely to come next is, its key, and the value and the time of a line, if that
/// says one sample of the series.
fn read_one<A: Cells>(
    keeper: &Keeper<A>,
    precision: Precision,
    last: &mut LastTime,
    line: &[u8],
) -> Option<(Hint, SeriesKey, i64, Option<i64>)>
    ensures { IfSome result (λ parsed.
        SaysSamples precision line.now ((parsed.1, parsed.2) ∷ []) parsed.3) }
{
    let hint = keeper.likely_next();
    let key = keeper.key_at(hint)?.copy().ok()?;
    let (value, time) = read_known(line, &key, precision, last)?;
    Some((hint, key, value, time))
}

/// A value of the series at a hint, with a further owner of its key.
fn keyed(key: &SeriesKey, hint: Hint, value: i64) -> Option<KeyedValue>
    ensures { IfSome result (λ keyed. keyed_value keyed ≡ (key.now, value)) }
{
    let key = key.copy().ok()?;
    Some(KeyedValue { key, hint, value })
}

/// The values and the time of a line, if the values are those of the series likely to come next,
/// one after the other.
fn read_next<A: Cells>(
    alloc: Global,
    keeper: &Keeper<A>,
    precision: Precision,
    last: &mut LastTime,
    line: &[u8],
) -> Option<(Vec<KeyedValue>, Option<i64>)>
    ensures samples { IfSome result (λ parsed.
        SaysSamples precision line.now (map keyed_value parsed.0.items) parsed.1) }
    ensures fields_fit { IfSome result (λ parsed. length parsed.0.items ≤ MAX_FIELDS) }
{
    let mut at = keeper.likely_next();
    let key = keeper.key_at(at)?;
    let (value, mut known) = KnownLine::first_field(line, key)?;
    let mut values = Vec::new(alloc);
    values.push(keyed(key, at, value)?).ok()?;
    for _ in 1..MAX_FIELDS {
        if let Some(time) = known.time(precision, last) {
            return Some((values, time));
        }
        at = keeper.likely_after(at);
        let key = keeper.key_at(at)?;
        let (value, next) = known.next_field(key)?;
        values.push(keyed(key, at, value)?).ok()?;
        known = next;
    }
    let time = known.time(precision, last)?;
    Some((values, time))
}

/// Writes the point of a line, if it has one. A line that says other samples than those likely to
/// come next is read by the grammar.
fn write_line<A: Cells, C: Clock>(
    alloc: Global,
    keeper: &mut Keeper<A>,
    clock: &mut C,
    rules: Rules,
    last: &mut LastTime,
    line: &[u8],
) -> Result<Answer, AllocError>
    requires { HasNoLineFeed line.now }
    ensures handled { HandledItem rules (feed.Line line.now) keeper.old keeper.new
        (C.given clock.old) (C.given clock.new) result }
    ensures renewals { C.renewals clock.new ≡ C.renewals clock.old }
{
    let precision = rules.precision;
    if let Some((hint, key, value, time)) = read_one(&*keeper, precision, last, line) {
        return write_sample(keeper, clock, hint, key, value, time, rules.lead);
    }
    if let Some((values, time)) = read_next(alloc, &*keeper, precision, last, line) {
        return write_samples(keeper, clock, &values, time, rules.lead);
    }
    match parse_line(alloc, line, precision) {
        Ok(Line::Nothing) => Ok(Answer::Nothing),
        Ok(Line::Point(point)) => write_point(keeper, clock, &point, rules.lead),
        Err(fault) => refusal(fault),
    }
}

/// The refusal of a line, unless memory ran out.
fn refusal(fault: LineFault) -> Result<Answer, AllocError>
    ensures { Refuses fault result }
{
    match fault {
        LineFault::Memory => Err(AllocError),
        _ => Ok(Answer::Refused(fault.name())),
    }
}

/// Writes the point of an item, if it has one. A known line that repeats the time of the line
/// before doesn't read it again.
pub(crate) fn write_item<A: Cells, C: Clock>(
    alloc: Global,
    keeper: &mut Keeper<A>,
    clock: &mut C,
    rules: Rules,
    last: &mut LastTime,
    item: FeedLine<'_>,
) -> Result<Answer, AllocError>
    requires { IsLine (item_view item) }
    ensures handled { HandledItem rules (item_view item.entry) keeper.old keeper.new
        (C.given clock.old) (C.given clock.new) result }
    ensures renewals { C.renewals clock.new ≡ C.renewals clock.old }
{
    match item {
        FeedLine::Line(line) => write_line(alloc, keeper, clock, rules, last, line),
        FeedLine::TooLong => Ok(Answer::Refused(LINE_TOO_LONG)),
    }
}
