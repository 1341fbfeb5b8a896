//! What a node takes: how many connections, and which times.

ghost use Rattle.std.specs.Prelude.{◌≡◌, None, codes};
ghost use Rattle.toml.specs.Data.{get_member};
ghost use Rattle.toml.specs.View.{table_view};
ghost use Rattle.rr_line.specs.declared.precision.Precision.TheVariants.{Ns};
ghost use Rattle.rr_config.specs.Intake.{intake_in};
ghost use Rattle.rr_config.specs.Values.{if_there, count_of, some_count_of, precision_of};

use crate::fault::ConfigFault;
use crate::value::{count_of, find, precision_of};
use rr_line::Precision;
use toml::Table;

/// What a node takes: how many connections, and which times.
#[derive(Clone, Copy)]
pub(crate) struct Intake {
    /// How many line connections; unlimited if 0.
    pub(crate) rounds: u64,
    /// How many connections of each reader; unlimited if 0.
    pub(crate) visits: u64,
    /// How far ahead of the clock a time may be, in nanoseconds; unlimited if absent.
    pub(crate) lead: Option<u64>,
    /// The unit of the times of lines.
    pub(crate) precision: Precision,
}

/// A number; 0 if the key is missing.
pub(crate) fn count_in(table: &Table, key: &str) -> Result<u64, ConfigFault>
    ensures { result ≡ if_there 0 count_of (get_member key.now (table_view table.now)) }
{
    match find(table, key) {
        Some(value) => count_of(value),
        None => Ok(0),
    }
}

/// The lead, if the key is there.
pub(crate) fn lead_in(table: &Table) -> Result<Option<u64>, ConfigFault>
    ensures { result ≡ if_there None some_count_of (get_member (codes "lead") (table_view table.now)) }
{
    match find(table, "lead") {
        Some(value) => Ok(Some(count_of(value)?)),
        None => Ok(None),
    }
}

/// The precision; nanoseconds if the key is missing.
pub(crate) fn precision_in(table: &Table) -> Result<Precision, ConfigFault>
    ensures { result ≡ if_there Ns precision_of (get_member (codes "precision") (table_view table.now)) }
{
    match find(table, "precision") {
        Some(value) => precision_of(value),
        None => Ok(Precision::Ns),
    }
}

/// What the node of a table takes.
#[tactic(auto, unfolding(crate::specs::Intake::intake_in))]
pub(crate) fn intake_in(table: &Table) -> Result<Intake, ConfigFault>
    ensures { result ≡ intake_in (table_view table.now) }
{
    Ok(Intake {
        rounds: count_in(table, "rounds")?,
        visits: count_in(table, "visits")?,
        lead: lead_in(table)?,
        precision: precision_in(table)?,
    })
}
