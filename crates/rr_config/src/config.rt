//! The configuration of a node that saves snapshots.

ghost use Rattle.std.specs.Prelude.{◌≡◌, Err, false};
ghost use Rattle.std.specs.Str.{is_utf8};
ghost use Rattle.toml.specs.View.{table_view};
ghost use Rattle.rr_text.specs.Results.{GivesUnless};
ghost use Rattle.rr_schema.specs.declared.fault.SchemaFault.TheVariants.{BadToml};
ghost use Rattle.rr_config.specs.Config.{config_in, config_of, config_view};

use crate::addresses::addresses_in;
use crate::document::table_of;
use crate::fault::ConfigFault;
use crate::habits::habits_in;
use crate::intake::intake_in;
use rr_document::FromToml;
use rr_line::Precision;
use rr_schema::Schema;
use std::alloc::Global;
use toml::Table;

/// What an operator configures.
#[derive(Debug, Drop)]
pub struct Config {
    /// The schema of the store.
    pub schema: Schema,
    /// The address that lines are taken on.
    pub lines: String,
    /// The addresses that fetches are answered on, each by a reader of its own: from 1 to 16.
    pub fetch: Vec<String>,
    /// The addresses of the peers, in the order in which they are pulled from.
    pub peers: Vec<String>,
    /// How many line connections are taken; unlimited if 0.
    pub rounds: u64,
    /// How many connections each reader takes; unlimited if 0.
    pub visits: u64,
    /// How many nanoseconds the time of a point may be ahead of the clock; unlimited if absent.
    pub lead: Option<u64>,
    /// The unit of the times of lines.
    pub precision: Precision,
    /// How many seconds a connection may move no byte, from 1 to 86,400; indefinitely if absent.
    pub idle: Option<u64>,
    /// The peers are pulled from and a snapshot is saved at most once in this many seconds, from 1
    /// to 86,400, even if no line comes; after each line connection if absent.
    pub every: Option<u64>,
    /// Whether nothing is said of a successful start and of rounds.
    pub quiet: bool,
    /// The file that counts of what the node did are written to, if any.
    pub status: Option<String>,
}

impl Config {
    /// The configuration that a TOML table writes. Other keys are ignored.
    #[tactic(auto, unfolding(crate::specs::Config::config_in))]
    pub(crate) fn from_table(alloc: Global, table: &Table) -> Result<Config, ConfigFault>
        ensures { GivesUnless ConfigFault.Memory config_view result
            (config_in (table_view table.now)) }
    {
        let schema = Schema::from_table(alloc, table)?;
        let addresses = addresses_in(alloc, table)?;
        let intake = intake_in(table)?;
        let habits = habits_in(alloc, table)?;
        Ok(Config {
            schema,
            lines: addresses.lines,
            fetch: addresses.fetch,
            peers: addresses.peers,
            rounds: intake.rounds,
            visits: intake.visits,
            lead: intake.lead,
            precision: intake.precision,
            idle: habits.idle,
            every: habits.every,
            quiet: habits.quiet,
            status: habits.status,
        })
    }

    /// The configuration that a TOML text writes.
    ///
    /// The keys are those of [`FromToml::from_toml`], and `lines`, an address; `fetch`, an array of
    /// 1 to 16 addresses; `peers`, an array of addresses; `rounds` and `visits`, numbers from 0;
    /// `lead`, a number of nanoseconds from 0; `precision`, one of `ns`, `us`, `ms` and `s`; `idle`
    /// and `every`, numbers of seconds from 1 to 86,400; `quiet`, true or false; and `status`, a
    /// text. All but `lines` and `fetch` may be missing. Other keys are ignored.
    ///
    /// Refusals, in this order: those of the schema; then key by key, in the order above,
    /// `MissingField`, `WrongKind`, and `BadCount` or `BadPrecision`. `Memory` is returned if
    /// memory runs out. The cost is that of reading the text once.
    pub fn from_toml(alloc: Global, text: &[u8]) -> Result<Config, ConfigFault>
        ensures read { GivesUnless ConfigFault.Memory config_view result (config_of text.now) }
        ensures foreign { is_utf8 text.now ≡ false → result ≡ Err (ConfigFault.Schema BadToml) }
    {
        let table = table_of(alloc, text)?;
        Config::from_table(alloc, &table)
    }
}
