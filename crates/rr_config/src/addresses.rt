//! The addresses of a node and of its peers.

ghost use Rattle.std.specs.Prelude.{map, [], codes};
ghost use Rattle.std.specs.String.{string_bytes};
ghost use Rattle.toml.specs.Data.{get_member};
ghost use Rattle.toml.specs.View.{table_view};
ghost use Rattle.rr_text.specs.Results.{GivesUnless};
ghost use Rattle.rr_config.specs.Addresses.{addresses_in, addresses_view};
ghost use Rattle.rr_config.specs.Values.{needed, if_there, readers_of, text_of, texts_of};

use crate::fault::ConfigFault;
use crate::value::{find, owned_text_of, readers_of, texts_of};
use std::alloc::Global;
use toml::Table;

/// The addresses of a node and of its peers.
#[derive(Drop)]
pub(crate) struct Addresses {
    /// The address that lines are taken on.
    pub(crate) lines: String,
    /// Those that fetches are answered on.
    pub(crate) fetch: Vec<String>,
    /// Those of the peers.
    pub(crate) peers: Vec<String>,
}

/// The address at a key that must be there.
pub(crate) fn address_at(alloc: Global, table: &Table, key: &str) -> Result<String, ConfigFault>
    ensures { GivesUnless ConfigFault.Memory string_bytes result
        (needed text_of (get_member key.now (table_view table.now))) }
{
    match find(table, key) {
        Some(value) => owned_text_of(alloc, value),
        None => Err(ConfigFault::MissingField),
    }
}

/// The fetch addresses.
pub(crate) fn fetch_in(alloc: Global, table: &Table) -> Result<Vec<String>, ConfigFault>
    ensures { GivesUnless ConfigFault.Memory (λ texts. map string_bytes texts.items) result
        (needed readers_of (get_member (codes "fetch") (table_view table.now))) }
{
    match find(table, "fetch") {
        Some(value) => readers_of(alloc, value),
        None => Err(ConfigFault::MissingField),
    }
}

/// The peers; none if the key is missing.
pub(crate) fn peers_in(alloc: Global, table: &Table) -> Result<Vec<String>, ConfigFault>
    ensures { GivesUnless ConfigFault.Memory (λ texts. map string_bytes texts.items) result
        (if_there [] texts_of (get_member (codes "peers") (table_view table.now))) }
{
    match find(table, "peers") {
        Some(value) => texts_of(alloc, value),
        None => Ok(Vec::new(alloc)),
    }
}

/// The addresses of a table.
#[tactic(auto, unfolding(crate::specs::Addresses::addresses_in))]
pub(crate) fn addresses_in(alloc: Global, table: &Table) -> Result<Addresses, ConfigFault>
    ensures { GivesUnless ConfigFault.Memory addresses_view result
        (addresses_in (table_view table.now)) }
{
    let lines = address_at(alloc, table, "lines")?;
    let fetch = fetch_in(alloc, table)?;
    let peers = peers_in(alloc, table)?;
    Ok(Addresses {
        lines,
        fetch,
        peers,
    })
}
