//! The two commands that serve as a node, and how their configurations differ for an operator.

use crate::config::Config;
use crate::fault::ConfigFault;
use crate::node::NodeConfig;
use rr_schema::SchemaFault;
use std::alloc::Global;
use toml::Table;

/// What is said about a key that no command has.
pub(crate) const UNKNOWN: &str = "this key is unknown, and ignored";

/// What is said about a key that only `rr serve` has in a configuration of `rr node`.
const OF_SERVE: &str = "this key is of rr serve, and ignored";

/// What is said about a key that only `rr node` has in a configuration of `rr serve`.
const OF_NODE: &str = "this key is of rr node, and ignored";

/// The keys of `rr serve`.
const SERVE_KEYS: [&str; 13] = [
    "step",
    "archive",
    "lines",
    "fetch",
    "peers",
    "rounds",
    "visits",
    "lead",
    "precision",
    "idle",
    "every",
    "quiet",
    "status",
];

/// The keys of `rr node`.
const NODE_KEYS: [&str; 11] = [
    "step",
    "archive",
    "http",
    "lines",
    "origins",
    "peers",
    "lead",
    "precision",
    "idle",
    "readers",
    "quiet",
];

/// The command that a configuration is read for.
#[derive(Clone, Copy)]
pub(crate) enum Command {
    /// `rr serve`, by a [`Config`].
    Serve,
    /// `rr node`, by a [`NodeConfig`].
    Node,
}

impl Command {
    /// Whether the configuration of a table has a lead.
    pub(crate) fn has_lead(self, alloc: Global, table: &Table) -> Result<bool, ConfigFault> {
        match self {
            Command::Serve => Ok(Config::from_table(alloc, table)?.lead.is_some()),
            Command::Node => Ok(NodeConfig::from_table(alloc, table)?.lead.is_some()),
        }
    }

    /// What is said about a key that is ignored.
    pub(crate) fn ignored(self, key: &str) -> Option<&'static str> {
        match self {
            Command::Serve if SERVE_KEYS.contains(&key) => None,
            Command::Node if NODE_KEYS.contains(&key) => None,
            Command::Serve if NODE_KEYS.contains(&key) => Some(OF_NODE),
            Command::Node if SERVE_KEYS.contains(&key) => Some(OF_SERVE),
            _ => Some(UNKNOWN),
        }
    }

    /// What the value at a key must be, if there is more to say than the fault does.
    pub(crate) fn bounds(self, key: &str, fault: ConfigFault) -> Option<&'static str> {
        match (self, fault) {
            (Command::Node, ConfigFault::BadCount) => Some(node_bounds(key)),
            (Command::Node, ConfigFault::WrongKind | ConfigFault::Schema(SchemaFault::WrongKind)) =>
                { Some(kind_of(key)) }
            _ => None,
        }
    }
}

/// Of which kind the value at a key of `rr node` must be.
fn kind_of(key: &str) -> &'static str {
    match key {
        "http" | "lines" | "precision" => "must be a text in quotes",
        "origins" => "must be two whole numbers in brackets",
        "peers" => "must be texts in brackets",
        "quiet" => "must be true or false",
        "archive" => "must be tables, each below a line [[archive]]",
        _ => "must be a whole number",
    }
}

/// What the numbers at a key of `rr node` must be.
fn node_bounds(key: &str) -> &'static str {
    match key {
        "origins" => "must be two numbers from 1 to 65,535, the first not above the second",
        "idle" => "must be from 1 to 86,400 seconds",
        "readers" => "must be from 1 to 14",
        _ => "may not be negative",
    }
}
