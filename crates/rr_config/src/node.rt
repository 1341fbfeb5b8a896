//! The configuration of a node that keeps a journal.

ghost use Rattle.std.specs.Prelude.{◌≡◌, Err, codes, false};
ghost use Rattle.std.specs.Str.{is_utf8};
ghost use Rattle.toml.specs.Data.{get_member};
ghost use Rattle.toml.specs.View.{table_view, view};
ghost use Rattle.rr_text.specs.Results.{Gives, GivesUnless};
ghost use Rattle.rr_schema.specs.declared.fault.SchemaFault.TheVariants.{BadToml};
ghost use Rattle.rr_config.specs.Node.{node_config_in, node_config_of, node_config_view, reader_count_of};
ghost use Rattle.rr_config.specs.Origins.{range_view};
ghost use Rattle.rr_config.specs.Values.{if_there, needed, range_of, seconds_of};

use crate::addresses::{address_at, peers_in};
use crate::document::table_of;
use crate::fault::ConfigFault;
use crate::habits::{quiet_in, some_text_in};
use crate::intake::{lead_in, precision_in};
use crate::origins::OriginRange;
use crate::value::{count_of, find, range_of, seconds_of};
use rr_document::FromToml;
use rr_line::Precision;
use rr_schema::Schema;
use rr_text::limits::MAX_READERS;
use std::alloc::Global;
use toml::{Table, Value};

/// How many seconds a connection may be silent, if the configuration doesn't say.
pub(crate) const NODE_IDLE: u64 = 60;

const _: () = prove!(NODE_IDLE == 60);

/// How many threads answer fetches, if the configuration doesn't say.
pub(crate) const DEFAULT_READERS: u64 = 4;

/// The most threads that answer fetches. Each takes one of the store's 16 readers, checkpoints take
/// another, and one stays free.
pub(crate) const MAX_NODE_READERS: u64 = 14;

const _: () = prove!(DEFAULT_READERS == 4);

const _: () = prove!(MAX_NODE_READERS == 14);

// Checkpoints have a reader too.
const _: () = prove!(MAX_NODE_READERS < MAX_READERS as u64);

/// What an operator configures for a node that keeps a journal.
#[derive(Debug, Drop)]
pub struct NodeConfig {
    /// The schema of the store.
    pub schema: Schema,
    /// The HTTP address.
    pub http: String,
    /// The address of line connections, if any are taken.
    pub lines: Option<String>,
    /// The origins that the node may write under, which no other node has.
    pub origins: OriginRange,
    /// The HTTP addresses of other nodes.
    pub peers: Vec<String>,
    /// How many nanoseconds the time of a point may be ahead of the clock; unlimited if absent.
    pub lead: Option<u64>,
    /// The unit of the times of lines.
    pub precision: Precision,
    /// How many seconds a connection may be silent, from 1 to 86,400.
    pub idle: u64,
    /// How many threads answer fetches, from 1 to 14.
    pub readers: u64,
    /// Whether nothing is said of a successful start.
    pub quiet: bool,
}

/// The range of origins.
pub(crate) fn origins_in(table: &Table) -> Result<OriginRange, ConfigFault>
    ensures { Gives range_view result
        (needed range_of (get_member (codes "origins") (table_view table.now))) }
{
    match find(table, "origins") {
        Some(value) => range_of(value),
        None => Err(ConfigFault::MissingField),
    }
}

/// How many seconds a connection may be silent; a minute if the key is missing.
pub(crate) fn idle_in(table: &Table) -> Result<u64, ConfigFault>
    ensures { result ≡ if_there NODE_IDLE seconds_of
        (get_member (codes "idle") (table_view table.now)) }
{
    match find(table, "idle") {
        Some(value) => seconds_of(value),
        None => Ok(NODE_IDLE),
    }
}

/// A number of threads that answer fetches.
fn reader_count_of(value: &Value) -> Result<u64, ConfigFault>
    ensures { result ≡ reader_count_of (view value.now) }
{
    let readers = count_of(value)?;
    if readers == 0 || readers > MAX_NODE_READERS {
        return Err(ConfigFault::BadCount);
    }
    Ok(readers)
}

/// How many threads answer fetches; 4 if the key is missing.
pub(crate) fn readers_in(table: &Table) -> Result<u64, ConfigFault>
    ensures { result ≡ if_there DEFAULT_READERS reader_count_of
        (get_member (codes "readers") (table_view table.now)) }
{
    match find(table, "readers") {
        Some(value) => reader_count_of(value),
        None => Ok(DEFAULT_READERS),
    }
}

impl NodeConfig {
    /// The configuration that a TOML table writes. Other keys are ignored.
    #[tactic(auto, unfolding(crate::specs::Node::node_config_in))]
    pub(crate) fn from_table(alloc: Global, table: &Table) -> Result<NodeConfig, ConfigFault>
        ensures { GivesUnless ConfigFault.Memory node_config_view result
            (node_config_in (table_view table.now)) }
    {
        let schema = Schema::from_table(alloc, table)?;
        let http = address_at(alloc, table, "http")?;
        let lines = some_text_in(alloc, table, "lines")?;
        let origins = origins_in(table)?;
        let peers = peers_in(alloc, table)?;
        let lead = lead_in(table)?;
        let precision = precision_in(table)?;
        let idle = idle_in(table)?;
        let readers = readers_in(table)?;
        let quiet = quiet_in(table)?;
        Ok(NodeConfig {
            schema,
            http,
            lines,
            origins,
            peers,
            lead,
            precision,
            idle,
            readers,
            quiet,
        })
    }

    /// The configuration that a TOML text writes.
    ///
    /// The keys are those of [`FromToml::from_toml`], and `http`, an address; `lines`, an address;
    /// `origins`, an array of two whole numbers from 1 to 65,535, the first not above the second;
    /// `peers`, an array of addresses; `lead`, a number of nanoseconds from 0; `precision`, one of
    /// `ns`, `us`, `ms` and `s`; `idle`, a number of seconds from 1 to 86,400, 60 if missing;
    /// `readers`, a number from 1 to 14, 4 if missing; and `quiet`, true or false. All but `http`
    /// and `origins` may be missing. Other keys are ignored.
    ///
    /// Refusals, in this order: those of the schema; then key by key, in the order above,
    /// `MissingField`, `WrongKind`, and `BadCount` or `BadPrecision`. `Memory` is returned if
    /// memory runs out. The cost is that of reading the text once.
    pub fn from_toml(alloc: Global, text: &[u8]) -> Result<NodeConfig, ConfigFault>
        ensures read { GivesUnless ConfigFault.Memory node_config_view result
            (node_config_of text.now) }
        ensures foreign { is_utf8 text.now ≡ false → result ≡ Err (ConfigFault.Schema BadToml) }
    {
        let table = table_of(alloc, text)?;
        NodeConfig::from_table(alloc, &table)
    }
}
