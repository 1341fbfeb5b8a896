//! Why an origin or a schema is refused.

ghost use Rattle.std.specs.Prelude.{◌≡◌};

use std::alloc::{AllocError, AllocFailed};
use std::fmt;
use thiserror::Error;

/// Why a number is not an origin.
#[derive(Clone, Copy, Debug, PartialEq, Eq, Error)]
pub enum OriginFault {
    /// The number is 0.
    BadOrigin,
}

impl OriginFault {
    ghost use Rattle.rr_schema.specs.Fault.{origin_fault_name};

    /// The printed name.
    pub fn name(&self) -> &'static str
        ensures { result.now ≡ origin_fault_name self.now }
    {
        match self {
            OriginFault::BadOrigin => "BadOrigin",
        }
    }
}

impl fmt::Display for OriginFault {
    fn fmt<W: fmt::Write>(&self, f: &mut fmt::Formatter<W>) -> fmt::Result {
        match self {
            OriginFault::BadOrigin => f.write_str("the origin must be from 1 to 65,535"),
        }
    }
}

/// Why a schema is refused.
#[derive(Clone, Copy, Debug, PartialEq, Eq, Error)]
pub enum SchemaFault {
    /// The text is not UTF-8, or not TOML.
    BadToml,
    /// A key is missing.
    MissingField,
    /// The value of a key is of the wrong kind.
    WrongKind,
    /// The step is 0 or above a day.
    BadStep,
    /// There is no archive.
    NoArchive,
    /// There are more archives than a schema may have.
    TooManyArchives,
    /// The steps of a row of an archive are 0 or too many.
    BadSteps,
    /// The rows of an archive are 0 or too many.
    BadRows,
    /// An archive's xff is not a fraction below 1, or its denominator is too great.
    BadXff,
    /// An archive has no more steps in a row than the one before it.
    StepsNotRising,
    /// Memory ran out.
    Memory,
}

impl SchemaFault {
    ghost use Rattle.rr_schema.specs.Fault.{schema_fault_name};

    /// The printed name.
    pub fn name(&self) -> &'static str
        ensures { result.now ≡ schema_fault_name self.now }
    {
        match self {
            SchemaFault::BadToml => "BadToml",
            SchemaFault::MissingField => "MissingField",
            SchemaFault::WrongKind => "WrongKind",
            SchemaFault::BadStep => "BadStep",
            SchemaFault::NoArchive => "NoArchive",
            SchemaFault::TooManyArchives => "TooManyArchives",
            SchemaFault::BadSteps => "BadSteps",
            SchemaFault::BadRows => "BadRows",
            SchemaFault::BadXff => "BadXff",
            SchemaFault::StepsNotRising => "StepsNotRising",
            SchemaFault::Memory => "Memory",
        }
    }

    fn sentence(&self) -> &'static str {
        match self {
            SchemaFault::BadToml => "the text is not TOML in UTF-8",
            SchemaFault::MissingField => "a key of the schema is missing",
            SchemaFault::WrongKind => "a value of the schema is of the wrong kind",
            SchemaFault::BadStep => "the step must be from 1 to 86,400 seconds",
            SchemaFault::NoArchive => "the schema must have an archive",
            SchemaFault::TooManyArchives => "the schema may have at most 8 archives",
            SchemaFault::BadSteps => "an archive must have from 1 to 128 steps in a row",
            SchemaFault::BadRows => "an archive must have from 1 to 100,000 rows",
            SchemaFault::BadXff =>
                "the xff must be a fraction below 1, of a denominator up to 1,000",
            SchemaFault::StepsNotRising =>
                "each archive must have more steps in a row than the one before it",
            SchemaFault::Memory => "out of memory",
        }
    }
}

impl fmt::Display for SchemaFault {
    fn fmt<W: fmt::Write>(&self, f: &mut fmt::Formatter<W>) -> fmt::Result {
        f.write_str(self.sentence())
    }
}

impl From<AllocError> for SchemaFault {
    ghost use Rattle.rr_schema.specs.declared.fault.SchemaFault.TheVariants.{Memory};

    ghost from_gives = { λ _ e. e ≡ Memory };

    fn from(_e: AllocError) -> SchemaFault {
        SchemaFault::Memory
    }
}

impl<T: Drop> From<AllocFailed<T>> for SchemaFault {
    ghost use Rattle.rr_schema.specs.declared.fault.SchemaFault.TheVariants.{Memory};

    ghost from_gives = { λ _ e. e ≡ Memory };

    fn from(_e: AllocFailed<T>) -> SchemaFault {
        SchemaFault::Memory
    }
}
