//! Why a configuration is refused.

ghost use Rattle.std.specs.Prelude.{◌≡◌};

use rr_schema::SchemaFault;
use std::alloc::{AllocError, AllocFailed};
use std::fmt;
use thiserror::Error;

/// Why a configuration is refused.
#[derive(Clone, Copy, Debug, PartialEq, Eq, Error)]
pub enum ConfigFault {
    /// The text is not TOML, or its schema is refused.
    Schema(SchemaFault),
    /// A key is missing.
    MissingField,
    /// The value of a key is of another kind.
    WrongKind,
    /// A number is negative or out of its range, there are too few or too many values, or a range
    /// ends before it begins.
    BadCount,
    /// The precision is not one that lines have.
    BadPrecision,
    /// Memory ran out.
    Memory,
}

impl ConfigFault {
    ghost use Rattle.rr_config.specs.Fault.{config_fault_name};

    /// The printed name; for a schema, that of its fault.
    pub fn name(&self) -> &'static str
        ensures { result.now ≡ config_fault_name self.now }
    {
        match self {
            ConfigFault::Schema(fault) => fault.name(),
            ConfigFault::MissingField => "MissingField",
            ConfigFault::WrongKind => "WrongKind",
            ConfigFault::BadCount => "BadCount",
            ConfigFault::BadPrecision => "BadPrecision",
            ConfigFault::Memory => "Memory",
        }
    }
}

impl fmt::Display for ConfigFault {
    fn fmt<W: fmt::Write>(&self, f: &mut fmt::Formatter<W>) -> fmt::Result {
        match self {
            ConfigFault::Schema(fault) => fault.fmt(f),
            ConfigFault::MissingField => f.write_str("a key of the configuration is missing"),
            ConfigFault::WrongKind => {
                f.write_str("a value of the configuration is of the wrong kind")
            }
            ConfigFault::BadCount => f.write_str(
                "fetch takes 1 to 16 addresses, idle and every 1 to 86,400 seconds, and no number may be negative",
            ),
            ConfigFault::BadPrecision => f.write_str("the precision must be ns, us, ms or s"),
            ConfigFault::Memory => f.write_str("out of memory"),
        }
    }
}

impl From<SchemaFault> for ConfigFault {
    ghost use Rattle.rr_config.specs.Fault.{of_schema_fault};

    ghost from_gives = { λ fault e. e ≡ of_schema_fault fault };

    fn from(fault: SchemaFault) -> ConfigFault {
        match fault {
            SchemaFault::Memory => ConfigFault::Memory,
            _ => ConfigFault::Schema(fault),
        }
    }
}

impl From<AllocError> for ConfigFault {
    ghost use Rattle.rr_config.specs.declared.fault.ConfigFault.TheVariants.{Memory};

    ghost from_gives = { λ _ e. e ≡ Memory };

    fn from(_e: AllocError) -> ConfigFault {
        ConfigFault::Memory
    }
}

impl<T: Drop> From<AllocFailed<T>> for ConfigFault {
    ghost use Rattle.rr_config.specs.declared.fault.ConfigFault.TheVariants.{Memory};

    ghost from_gives = { λ _ e. e ≡ Memory };

    fn from(_e: AllocFailed<T>) -> ConfigFault {
        ConfigFault::Memory
    }
}
