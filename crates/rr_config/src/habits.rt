//! A node's timing, and what it reports.

ghost use Rattle.std.specs.Prelude.{◌≡◌, false, None, codes, option_map};
ghost use Rattle.std.specs.String.{string_bytes};
ghost use Rattle.toml.specs.Data.{get_member};
ghost use Rattle.toml.specs.View.{table_view};
ghost use Rattle.rr_text.specs.Results.{GivesUnless};
ghost use Rattle.rr_config.specs.Habits.{habits_in, habits_view};
ghost use Rattle.rr_config.specs.Values.{if_there, flag_of, some_seconds_of, some_text_of};

use crate::fault::ConfigFault;
use crate::value::{find, flag_of, owned_text_of, seconds_of};
use std::alloc::Global;
use toml::Table;

/// A node's timing, and what it reports.
#[derive(Drop)]
pub(crate) struct Habits {
    /// How many seconds it waits for a byte; indefinitely if absent.
    pub(crate) idle: Option<u64>,
    /// It pulls and saves at most once in this many seconds; after each line connection if absent.
    pub(crate) every: Option<u64>,
    /// Whether it says nothing of a successful start and of rounds.
    pub(crate) quiet: bool,
    /// The file that it writes counts to, if any.
    pub(crate) status: Option<String>,
}

/// A number of seconds, if the key is there.
pub(crate) fn seconds_in(table: &Table, key: &str) -> Result<Option<u64>, ConfigFault>
    ensures { result ≡ if_there None some_seconds_of (get_member key.now (table_view table.now)) }
{
    match find(table, key) {
        Some(value) => Ok(Some(seconds_of(value)?)),
        None => Ok(None),
    }
}

/// Whether a node is to say little; false if the key is missing.
pub(crate) fn quiet_in(table: &Table) -> Result<bool, ConfigFault>
    ensures { result ≡ if_there false flag_of (get_member (codes "quiet") (table_view table.now)) }
{
    match find(table, "quiet") {
        Some(value) => flag_of(value),
        None => Ok(false),
    }
}

/// A text, if the key is there.
pub(crate) fn some_text_in(
    alloc: Global,
    table: &Table,
    key: &str,
) -> Result<Option<String>, ConfigFault>
    ensures { GivesUnless ConfigFault.Memory (option_map string_bytes) result
        (if_there None some_text_of (get_member key.now (table_view table.now))) }
{
    match find(table, key) {
        Some(value) => Ok(Some(owned_text_of(alloc, value)?)),
        None => Ok(None),
    }
}

/// The habits of the node of a table.
#[tactic(auto, unfolding(crate::specs::Habits::habits_in))]
pub(crate) fn habits_in(alloc: Global, table: &Table) -> Result<Habits, ConfigFault>
    ensures { GivesUnless ConfigFault.Memory habits_view result
        (habits_in (table_view table.now)) }
{
    let idle = seconds_in(table, "idle")?;
    let every = seconds_in(table, "every")?;
    let quiet = quiet_in(table)?;
    let status = some_text_in(alloc, table, "status")?;
    Ok(Habits {
        idle,
        every,
        quiet,
        status,
    })
}
