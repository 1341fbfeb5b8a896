//! What an operator is told about the text of a configuration.

use crate::command::{Command, UNKNOWN};
use crate::fault::ConfigFault;
use crate::named_key::{ARCHIVE_KEYS, NamedKey, archives_of, refused_key};
use crate::peers::lost_peer;
use crate::place::Placed;
use crate::slow::slowest;
use rr_document::FromToml;
use rr_schema::{ArchiveSpec, Schema};
use std::alloc::{AllocError, Global};
use std::fmt::Display;
use std::str;
use toml::Table;
use toml::de::Error;

/// What an operator is told about a text besides its [`Config`](crate::Config) or its fault, a line
/// each.
///
/// For a refused text that is the key and the reason; for any other, each ignored key, and that
/// there is no `lead`. A key has its line before it, if that is found. A key that only `rr node`
/// has is reported as such. The cost is that of reading the text twice, and once more for each key
/// that is reported.
pub fn remarks(alloc: Global, text: &[u8]) -> Result<Vec<String>, AllocError> {
    remarks_for(alloc, Command::Serve, text)
}

/// What an operator is told about a text besides its [`NodeConfig`](crate::NodeConfig) or its
/// fault, as by [`remarks`]. A key that only `rr serve` has is reported as such; so are a peer that
/// can't be followed, and archives that know nothing of slow series.
pub fn node_remarks(alloc: Global, text: &[u8]) -> Result<Vec<String>, AllocError> {
    remarks_for(alloc, Command::Node, text)
}

/// What an operator is told about a text.
fn remarks_for(alloc: Global, command: Command, text: &[u8]) -> Result<Vec<String>, AllocError> {
    let mut lines = Vec::new(alloc);
    match str::from_utf8(text) {
        Ok(text) => push_remarks(alloc, &mut lines, command, text)?,
        Err(_) => lines.push(String::from_str(alloc, "the text is not UTF-8")?)?,
    }
    Ok(lines)
}

/// Adds what is told about a text.
fn push_remarks(
    alloc: Global,
    lines: &mut Vec<String>,
    command: Command,
    text: &str,
) -> Result<(), AllocError> {
    match toml::table_from_str(alloc, text) {
        Ok(table) => push_table_remarks(alloc, lines, command, text, &table),
        Err(error) => push_error(alloc, lines, &error),
    }
}

/// Adds why a text isn't TOML.
fn push_error(alloc: Global, lines: &mut Vec<String>, error: &Error) -> Result<(), AllocError> {
    if error.is_memory() {
        return Err(AllocError);
    }
    let text = format!(in alloc; "{error}")?;
    lines.push(on_one_line(alloc, text.as_str())?)?;
    Ok(())
}

/// The lines of a text, joined into one.
fn on_one_line(alloc: Global, text: &str) -> Result<String, AllocError> {
    let mut whole = String::new(alloc);
    for line in text.lines() {
        if !whole.is_empty() {
            whole.push_str(": ")?;
        }
        whole.push_str(line)?;
    }
    Ok(whole)
}

/// Adds what is told about the table of a text.
fn push_table_remarks(
    alloc: Global,
    lines: &mut Vec<String>,
    command: Command,
    text: &str,
    table: &Table,
) -> Result<(), AllocError> {
    match command.has_lead(alloc, table) {
        Ok(has_lead) => {
            push_ignored(alloc, lines, command, text, table)?;
            if !has_lead {
                let line = "no lead: one point from far in the future ends its series";
                lines.push(String::from_str(alloc, line)?)?;
            }
            match command {
                Command::Serve => Ok(()),
                Command::Node => push_node_remarks(alloc, lines, table),
            }
        }
        Err(ConfigFault::Memory) => Err(AllocError),
        Err(fault) => push_refusal(alloc, lines, command, text, table, fault),
    }
}

/// Adds what is told about the peers and the archives of a node.
fn push_node_remarks(
    alloc: Global,
    lines: &mut Vec<String>,
    table: &Table,
) -> Result<(), AllocError> {
    if let Some((peer, why)) = lost_peer(table) {
        lines.push(format!(in alloc; "peers: {peer} {why}")?)?;
    }
    match Schema::from_table(alloc, table) {
        Ok(schema) => push_slow(alloc, lines, schema.archives()),
        Err(_) => Ok(()),
    }
}

/// Adds which archives know nothing of series that send too slowly.
fn push_slow(
    alloc: Global,
    lines: &mut Vec<String>,
    archives: &[ArchiveSpec],
) -> Result<(), AllocError> {
    for (place, archive) in archives.iter().enumerate() {
        let number = place + 1;
        let line = match slowest(archive) {
            None => continue,
            Some(1) => {
                format!(in alloc;
                    "archive {number} knows nothing of a series that doesn't send in each step"
                )
            }
            Some(steps) => {
                format!(in alloc;
                    "archive {number} knows nothing of a series that sends less than once in {steps} steps"
                )
            }
        };
        lines.push(line?)?;
    }
    Ok(())
}

/// Adds where and why a table is refused.
fn push_refusal(
    alloc: Global,
    lines: &mut Vec<String>,
    command: Command,
    text: &str,
    table: &Table,
    fault: ConfigFault,
) -> Result<(), AllocError> {
    let Some(named) = refused_key(alloc, command, table, fault) else {
        return Ok(lines.push(format!(in alloc; "{fault}")?)?);
    };
    let placed = Placed::new(text, named);
    match command.bounds(named.key, fault) {
        Some(bounds) => push_of_key(alloc, lines, placed, bounds),
        None => push_of_key(alloc, lines, placed, fault),
    }
}

/// Adds what is told about a key.
fn push_of_key(
    alloc: Global,
    lines: &mut Vec<String>,
    placed: Placed<'_>,
    why: impl Display + Drop,
) -> Result<(), AllocError> {
    lines.push(format!(in alloc; "{placed}: {why}")?)?;
    Ok(())
}

/// Adds the ignored keys of a table, and those of its archives.
fn push_ignored(
    alloc: Global,
    lines: &mut Vec<String>,
    command: Command,
    text: &str,
    table: &Table,
) -> Result<(), AllocError> {
    for key in table.keys() {
        let key = key.as_str();
        if let Some(why) = command.ignored(key) {
            let placed = Placed::new(text, NamedKey::above(key));
            push_of_key(alloc, lines, placed, why)?;
        }
    }
    let Some(archives) = archives_of(table) else {
        return Ok(());
    };
    for (place, archive) in archives.iter().enumerate() {
        if let Some(archive) = archive.as_table() {
            push_ignored_of_archive(alloc, lines, text, archive, place + 1)?;
        }
    }
    Ok(())
}

/// Adds the ignored keys of an archive.
fn push_ignored_of_archive(
    alloc: Global,
    lines: &mut Vec<String>,
    text: &str,
    table: &Table,
    number: usize,
) -> Result<(), AllocError> {
    for key in table.keys() {
        let key = key.as_str();
        if !ARCHIVE_KEYS.contains(&key) {
            let named = NamedKey {
                key,
                archive: Some(number),
            };
            push_of_key(alloc, lines, Placed::new(text, named), UNKNOWN)?;
        }
    }
    Ok(())
}
