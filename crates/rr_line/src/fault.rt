//! Why a line is refused.

ghost use Rattle.std.specs.Prelude.{◌≡◌};

use std::alloc::{AllocError, AllocFailed};
use std::fmt;
use thiserror::Error;

/// Why a line is refused: the first of its faults as it is read.
#[derive(Clone, Copy, Debug, PartialEq, Eq, Error)]
pub enum LineFault {
    /// The line has no measurement.
    NoMeasurement,
    /// A tag has no key.
    MissingTagKey,
    /// A tag has no value, or an equals follows its value.
    MissingTagValue,
    /// There are more than [`MAX_TAGS`](rr_key::MAX_TAGS) tags.
    TooManyTags,
    /// The key of a tag has occurred before.
    DuplicateTag,
    /// The line ends before its fields.
    NoFields,
    /// A field has no key.
    MissingFieldKey,
    /// A field has no value.
    MissingFieldValue,
    /// A field is true or false.
    BooleanField,
    /// An integer doesn't fit in `i64`.
    IntegerRange,
    /// A field is an unsigned integer.
    UnsignedField,
    /// A field is a float.
    FloatField,
    /// A field is a text.
    TextField,
    /// A field's value is of none of these kinds.
    BadField,
    /// There are more than [`MAX_FIELDS`](crate::MAX_FIELDS) fields.
    TooManyFields,
    /// The key of a field has occurred before.
    DuplicateField,
    /// The time is not an integer, or something other than spaces follows it.
    BadTime,
    /// The time in nanoseconds doesn't fit in `i64`.
    TimeRange,
    /// The key text of a field is longer than [`MAX_KEY_TEXT`](rr_text::limits::MAX_KEY_TEXT).
    KeyTooLong,
    /// Memory ran out.
    Memory,
}

impl LineFault {
    ghost use Rattle.rr_line.specs.Fault.{line_fault_name};

    /// The printed name.
    pub fn name(&self) -> &'static str
        ensures { result.now ≡ line_fault_name self.now }
    {
        match self {
            LineFault::NoMeasurement => "NoMeasurement",
            LineFault::MissingTagKey => "MissingTagKey",
            LineFault::MissingTagValue => "MissingTagValue",
            LineFault::TooManyTags => "TooManyTags",
            LineFault::DuplicateTag => "DuplicateTag",
            LineFault::NoFields => "NoFields",
            LineFault::MissingFieldKey => "MissingFieldKey",
            LineFault::MissingFieldValue => "MissingFieldValue",
            LineFault::BooleanField => "BooleanField",
            LineFault::IntegerRange => "IntegerRange",
            LineFault::UnsignedField => "UnsignedField",
            LineFault::FloatField => "FloatField",
            LineFault::TextField => "TextField",
            LineFault::BadField => "BadField",
            LineFault::TooManyFields => "TooManyFields",
            LineFault::DuplicateField => "DuplicateField",
            LineFault::BadTime => "BadTime",
            LineFault::TimeRange => "TimeRange",
            LineFault::KeyTooLong => "KeyTooLong",
            LineFault::Memory => "Memory",
        }
    }

    fn sentence(&self) -> &'static str {
        match self {
            LineFault::NoMeasurement => "the line has no measurement",
            LineFault::MissingTagKey => "a tag has no key",
            LineFault::MissingTagValue => "a tag has no value",
            LineFault::TooManyTags => "the line may have at most 32 tags",
            LineFault::DuplicateTag => "two tags have the same key",
            LineFault::NoFields => "the line has no fields",
            LineFault::MissingFieldKey => "a field has no key",
            LineFault::MissingFieldValue => "a field has no value",
            LineFault::BooleanField => "a field is a boolean, and not an integer",
            LineFault::IntegerRange => "an integer is not in 64 bits",
            LineFault::UnsignedField => "a field is an unsigned integer, and not a signed one",
            LineFault::FloatField => "a field is a float, and not an integer",
            LineFault::TextField => "a field is a text, and not an integer",
            LineFault::BadField => "a field's value is not an integer",
            LineFault::TooManyFields => "the line may have at most 256 fields",
            LineFault::DuplicateField => "two fields have the same key",
            LineFault::BadTime => "the time is not an integer at the end of the line",
            LineFault::TimeRange => "the time in nanoseconds is not in 64 bits",
            LineFault::KeyTooLong => "the key of a field may have at most 1,024 bytes",
            LineFault::Memory => "out of memory",
        }
    }
}

impl fmt::Display for LineFault {
    fn fmt<W: fmt::Write>(&self, f: &mut fmt::Formatter<W>) -> fmt::Result {
        f.write_str(self.sentence())
    }
}

impl From<AllocError> for LineFault {
    ghost use Rattle.rr_line.specs.declared.fault.LineFault.TheVariants.{Memory};

    ghost from_gives = { λ _ e. e ≡ Memory };

    fn from(_e: AllocError) -> LineFault {
        LineFault::Memory
    }
}

impl<T: Drop> From<AllocFailed<T>> for LineFault {
    ghost use Rattle.rr_line.specs.declared.fault.LineFault.TheVariants.{Memory};

    ghost from_gives = { λ _ e. e ≡ Memory };

    fn from(_e: AllocFailed<T>) -> LineFault {
        LineFault::Memory
    }
}
