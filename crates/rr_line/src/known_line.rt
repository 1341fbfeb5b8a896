//! Lines of several fields whose series are known.

ghost use Rattle.std.specs.Prelude.{◌≡◌, ◌<◌, true, ◌∷◌, ◌++◌, [], ℕ, List, IfSome};
ghost use Rattle.std.specs.Bool.{OnTrue};
ghost use Rattle.std.specs.Ordering.{is_lt};
ghost use Rattle.rr_text.specs.Bytes.{bytes_cmp};
ghost use Rattle.rr_text.specs.declared.limits.TheConstants.{MAX_FIELDS};
ghost use Rattle.rr_line.specs.Beginning.{IsCut};
ghost use Rattle.rr_line.specs.Known.{Sample, SaysSamples};

use crate::integer::read_integer;
use crate::known::{after_key, first_value, time_after};
use crate::last_time::LastTime;
use crate::part::before_last;
use crate::precision::Precision;
use memchr::memrchr;
use rr_key::SeriesKey;
use rr_text::bytes::{BACKSLASH, COMMA, SPACE, strip};
use rr_text::limits::MAX_FIELDS;

/// A line that is read field by field, each as a sample of the series of a key.
///
/// [`first_field`](KnownLine::first_field) begins it, [`next_field`](KnownLine::next_field)
/// continues it, and [`time`](KnownLine::time) ends it: the line then says these samples, in this
/// order, and no others. Each may return `None`, which says nothing about the line, like that of
/// [`read_known`](crate::read_known). `None` also comes if the keys of the fields don't rise, byte
/// by byte, as most senders sort them, or if one of them has a space.
///
/// The cost of a field is that of comparing its key text, twice, and of reading the value. No
/// memory is taken.
#[derive(Clone, Copy, Debug)]
pub struct KnownLine<'l, 'k> {
    /// What precedes the field in each key text.
    prefix: &'k [u8],
    /// The key of the field read last.
    field: &'k [u8],
    /// What follows its value.
    rest: &'l [u8],
    count: usize,
}

impl<'l, 'k> KnownLine<'l, 'k> {
    ghost use Rattle.rr_line.specs.KnownLine.{HasRead};

    /// The value of the first field, if the line begins with the key text of its series. The cost
    /// is a comparison of the key text, and a pass over the value.
    pub fn first_field(line: &'l [u8], key: &'k SeriesKey) -> Option<(i64, KnownLine<'l, 'k>)>
        ensures { IfSome result (λ read. HasRead line.now ((key.now, read.0) ∷ []) read.1) }
    {
        let key_text = key.text();
        let (prefix, field) = split_key(key_text)?;
        let (value, rest) = first_value(line, key_text)?;
        let known = KnownLine {
            prefix,
            field,
            rest,
            count: 1,
        };
        Some((value, known))
    }

    /// The value of the next field, if the key text of its series is this one, at the same cost as
    /// the first.
    pub fn next_field(&self, key: &'k SeriesKey) -> Option<(i64, KnownLine<'l, 'k>)>
        ensures { (line : List ℕ) (samples : List Sample) → HasRead line samples self.now
            → IfSome result (λ read. HasRead line (samples ++ (key.now, read.0) ∷ []) read.1) }
    {
        let text = strip(COMMA, self.rest)?;
        let (prefix, field) = split_key(key.text())?;
        if !self.may_precede(prefix, field) {
            return None;
        }
        let value_text = after_key(text, field)?;
        let (value, rest) = read_integer(value_text)?;
        let known = KnownLine {
            prefix,
            field,
            rest,
            count: self.count + 1,
        };
        Some((value, known))
    }

    /// The time of the line in nanoseconds, if no further field follows.
    pub fn time(&self, precision: Precision, last: &mut LastTime) -> Option<Option<i64>>
        ensures { (line : List ℕ) (samples : List Sample) → HasRead line samples self.now
            → IfSome result (λ time. SaysSamples precision line samples time) }
    {
        time_after(self.rest, precision, last)
    }

    /// Whether a field of this prefix and this key may come after those already read.
    fn may_precede(&self, prefix: &[u8], field: &[u8]) -> bool
        ensures fields_fit { OnTrue result (self.now.count < MAX_FIELDS) }
        ensures same { OnTrue result (prefix.now ≡ self.now.prefix.now) }
        ensures above { OnTrue result (is_lt (bytes_cmp self.now.field.now field.now) ≡ true) }
    {
        self.count < MAX_FIELDS && prefix == self.prefix && self.field.cmp(field).is_lt()
    }
}

/// What precedes the field in a key text, and the field, if that has no space.
fn split_key(key: &[u8]) -> Option<(&[u8], &[u8])>
    ensures { IfSome result (λ parts. IsCut key.now parts.0.now parts.1.now) }
{
    let at = memrchr(SPACE, key)?;
    let (prefix, rest) = key.split_at(at);
    if before_last(BACKSLASH, prefix).is_some() {
        return None;
    }
    let field = strip(SPACE, rest)?;
    Some((prefix, field))
}
