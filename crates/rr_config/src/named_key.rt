//! The key at which a configuration is refused.

use crate::addresses::{address_at, fetch_in, peers_in};
use crate::command::Command;
use crate::fault::ConfigFault;
use crate::habits::{quiet_in, seconds_in, some_text_in};
use crate::intake::{count_in, lead_in, precision_in};
use crate::node::{idle_in, origins_in, readers_in};
use crate::value::find;
use rr_schema::{ArchiveSpec, Schema, SchemaFault};
use std::alloc::Global;
use std::fmt;
use toml::{Table, Value};

/// The keys of an archive.
pub(crate) const ARCHIVE_KEYS: [&str; 4] = ["steps", "rows", "xff_num", "xff_den"];

/// A key of a configuration, as it is named to an operator.
#[derive(Clone, Copy)]
pub(crate) struct NamedKey<'a> {
    /// The key.
    pub(crate) key: &'a str,
    /// The archive that has it, from 1, unless it is above all archives.
    pub(crate) archive: Option<usize>,
}

impl<'a> NamedKey<'a> {
    /// A key above all archives.
    pub(crate) fn above(key: &'a str) -> NamedKey<'a> {
        NamedKey { key, archive: None }
    }
}

impl fmt::Display for NamedKey<'_> {
    fn fmt<W: fmt::Write>(&self, f: &mut fmt::Formatter<W>) -> fmt::Result {
        f.write_str(self.key)?;
        match self.archive {
            Some(number) => write!(f, " of archive {number}"),
            None => Ok(()),
        }
    }
}

/// The key at which a table is refused, if there is one.
pub(crate) fn refused_key(
    alloc: Global,
    command: Command,
    table: &Table,
    fault: ConfigFault,
) -> Option<NamedKey<'static>> {
    let key = match (fault, command) {
        (ConfigFault::Schema(fault), _) => return refused_schema_key(alloc, table, fault),
        (_, Command::Serve) => refused_serve_key(alloc, table)?,
        (_, Command::Node) => refused_node_key(alloc, table)?,
    };
    Some(NamedKey::above(key))
}

/// The first of these keys whose value is refused.
fn first_refused(refusals: &[(&'static str, bool)]) -> Option<&'static str> {
    for (key, is_refused) in refusals {
        if *is_refused {
            return Some(*key);
        }
    }
    None
}

/// The first key of `rr node` whose value is refused, other than those of its schema.
fn refused_node_key(alloc: Global, table: &Table) -> Option<&'static str> {
    first_refused(&[
        ("http", address_at(alloc, table, "http").is_err()),
        ("lines", some_text_in(alloc, table, "lines").is_err()),
        ("origins", origins_in(table).is_err()),
        ("peers", peers_in(alloc, table).is_err()),
        ("lead", lead_in(table).is_err()),
        ("precision", precision_in(table).is_err()),
        ("idle", idle_in(table).is_err()),
        ("readers", readers_in(table).is_err()),
        ("quiet", quiet_in(table).is_err()),
    ])
}

/// The first key of `rr serve` whose value is refused, other than those of its schema.
fn refused_serve_key(alloc: Global, table: &Table) -> Option<&'static str> {
    first_refused(&[
        ("lines", address_at(alloc, table, "lines").is_err()),
        ("fetch", fetch_in(alloc, table).is_err()),
        ("peers", peers_in(alloc, table).is_err()),
        ("rounds", count_in(table, "rounds").is_err()),
        ("visits", count_in(table, "visits").is_err()),
        ("lead", lead_in(table).is_err()),
        ("precision", precision_in(table).is_err()),
        ("idle", seconds_in(table, "idle").is_err()),
        ("every", seconds_in(table, "every").is_err()),
        ("quiet", quiet_in(table).is_err()),
        ("status", some_text_in(alloc, table, "status").is_err()),
    ])
}

/// The key at which the schema of a table is refused.
fn refused_schema_key(
    alloc: Global,
    table: &Table,
    fault: SchemaFault,
) -> Option<NamedKey<'static>> {
    let key = match fault {
        SchemaFault::MissingField | SchemaFault::WrongKind => return unread_key(table),
        SchemaFault::BadStep => return Some(NamedKey::above("step")),
        SchemaFault::NoArchive | SchemaFault::TooManyArchives => {
            return Some(NamedKey::above("archive"));
        }
        SchemaFault::BadSteps | SchemaFault::StepsNotRising => "steps",
        SchemaFault::BadRows => "rows",
        SchemaFault::BadXff => "xff_num or xff_den",
        SchemaFault::BadToml | SchemaFault::Memory => return None,
    };
    Some(NamedKey {
        key,
        archive: refused_archive(alloc, table, fault),
    })
}

/// Whether the value at a key is a whole number.
fn is_whole(table: &Table, key: &str) -> bool {
    match find(table, key) {
        Some(value) => value.as_integer().is_some(),
        None => false,
    }
}

/// The archives of a table, if they are an array.
pub(crate) fn archives_of(table: &Table) -> Option<&Vec<Value>> {
    find(table, "archive")?.as_array()
}

/// The first key of a schema whose value is missing or of another kind.
fn unread_key(table: &Table) -> Option<NamedKey<'static>> {
    if !is_whole(table, "step") {
        return Some(NamedKey::above("step"));
    }
    let no_tables = NamedKey::above("archive");
    let Some(archives) = archives_of(table) else {
        return Some(no_tables);
    };
    if archives.iter().any(|archive| archive.as_table().is_none()) {
        return Some(no_tables);
    }
    for (place, archive) in archives.iter().enumerate() {
        let Some(archive) = archive.as_table() else {
            continue;
        };
        for key in ARCHIVE_KEYS {
            if !is_whole(archive, key) {
                return Some(NamedKey {
                    key,
                    archive: Some(place + 1),
                });
            }
        }
    }
    None
}

/// The whole number at a key; one that doesn't fit counts as past every limit.
fn whole_at(table: &Table, key: &str) -> Option<u32> {
    let number = find(table, key)?.as_integer()?;
    Some(u32::try_from(number).unwrap_or(u32::MAX))
}

/// The archive of a table.
fn spec_of(table: &Table) -> Option<ArchiveSpec> {
    Some(ArchiveSpec {
        steps: whole_at(table, "steps")?,
        rows: whole_at(table, "rows")?,
        num: whole_at(table, "xff_num")?,
        den: whole_at(table, "xff_den")?,
    })
}

/// The first archive, from 1, that together with those before it is refused with this fault.
fn refused_archive(alloc: Global, table: &Table, fault: SchemaFault) -> Option<usize> {
    let step = whole_at(table, "step")?;
    let mut specs = Vec::new(alloc);
    for archive in archives_of(table)? {
        specs.push(spec_of(archive.as_table()?)?).ok()?;
        match Schema::new(alloc, step, specs.as_slice()) {
            Err(why) if why == fault => return Some(specs.len()),
            _ => {}
        }
    }
    None
}
