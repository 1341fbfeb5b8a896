//! Points, by their parts.

ghost use Rattle.std.specs.Prelude.{◌≡◌};
ghost use Rattle.std.specs.Option.{ForSome};
ghost use Rattle.rr_point.specs.Prefix.{prefix_text, tags_view};

use rr_text::bytes::Keyed;
use smallvec::SmallVec;

/// The samples of one moment. The names are slices of the line, as it writes them: with a
/// backslash before each special byte of a name (see [`rr_key::unescape`]).
#[derive(Debug, Drop)]
pub struct Point<'a> {
    /// What was measured, a name of the class [`Measurement`](rr_key::Class::Measurement).
    pub measurement: &'a [u8],
    /// What tells series of one measurement apart, in the line's order.
    pub tags: Tags<'a>,
    /// What was sampled, in the line's order.
    pub fields: Vec<Field<'a>>,
    /// Nanoseconds since the Unix epoch, if the line says when.
    pub time: Option<i64>,
    /// What precedes the field in each key text, if the line has it verbatim.
    pub(crate) prefix: Option<&'a [u8]>,

    ghost prefix_of: { ForSome prefix (λ f. f.now ≡ prefix_text measurement.now (tags_view tags.items)) },
}

impl<'a> Point<'a> {
    /// The point of these parts. `prefix` is what precedes the field in each key text, if the line
    /// has it verbatim; keys are then written from it.
    #[inline]
    pub fn new(
        measurement: &'a [u8],
        tags: Tags<'a>,
        fields: Vec<Field<'a>>,
        time: Option<i64>,
        prefix: Option<&'a [u8]>,
    ) -> Point<'a>
        requires { ForSome prefix (λ f. f.now ≡ prefix_text measurement.now (tags_view tags.items)) }
        ensures measurement { result.measurement.now ≡ measurement.now }
        ensures tags { result.tags ≡ tags.entry }
        ensures fields { result.fields ≡ fields.entry }
        ensures time { result.time ≡ time }
    {
        Point {
            measurement,
            tags,
            fields,
            time,
            prefix,
        }
    }
}

/// The tags of a point: a few are kept in place, and only more than these take memory.
pub type Tags<'a> = SmallVec<Tag<'a>, 4>;

/// A tag of a point. Its key and its value are names of the class [`Other`](rr_key::Class::Other),
/// slices of the line, still escaped.
#[derive(Clone, Copy, Debug, Default, PartialEq, Eq)]
pub struct Tag<'a> {
    /// Its key.
    pub key: &'a [u8],
    /// Its value.
    pub value: &'a [u8],
}

/// A field of a point. Its key is a name of the class [`Other`](rr_key::Class::Other), a slice of
/// the line, still escaped.
#[derive(Clone, Copy, Debug, PartialEq, Eq)]
pub struct Field<'a> {
    /// Its key.
    pub key: &'a [u8],
    /// Its value.
    pub value: i64,
}

impl Keyed for Tag<'_> {
    ghost key_of = { λ tag. tag.key.now };

    fn key(&self) -> &[u8] {
        self.key
    }
}

impl Keyed for Field<'_> {
    ghost key_of = { λ field. field.key.now };

    fn key(&self) -> &[u8] {
        self.key
    }
}
