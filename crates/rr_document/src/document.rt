//! The TOML text of a schema.

ghost use Rattle.std.specs.Prelude.{◌≡◌, Err, false};
ghost use Rattle.std.specs.Result.{result_map_both};
ghost use Rattle.std.specs.Str.{is_utf8};
ghost use Rattle.toml.specs.Data.{get_member};
ghost use Rattle.toml.specs.View.{view, table_view, array_view};
ghost use Rattle.rr_schema.specs.Schema.{Layout};
ghost use Rattle.rr_document.specs.Document.{needed, in_32_bits, whole_at, archive_in, are_tables, tables_at, archives_in, tables_in, layout_in, layout_of};
ghost use Rattle.rr_text.specs.Results.{GivesUnless, NeedsMemoryAfter};

use rr_schema::{ArchiveSpec, Schema, SchemaFault};
use std::alloc::Global;
use std::str;
use toml::{Table, Value};

/// A schema that can be read from a TOML document.
pub trait FromToml: Sized {
    /// The step and the archives.
    ghost layout: { Self → Layout };

    /// The schema of a table, such as that of a configuration. Other keys are ignored.
    ///
    /// The keys are `step`, a whole number of seconds, and `archive`, an array of tables with the
    /// whole numbers `steps`, `rows`, `xff_num` and `xff_den`. Refusals, key by key in this order:
    /// `MissingField`, `WrongKind`; then those of [`Schema::new`], where a number that doesn't fit
    /// in 32 bits is out of range. The cost is linear in the archives, apart from the look-ups.
    fn from_table(alloc: Global, table: &Table) -> Result<Self, SchemaFault>
        ensures read { GivesUnless SchemaFault.Memory layout result
            (layout_in (table_view table.now)) }
        ensures memory { NeedsMemoryAfter SchemaFault.Memory (tables_in (table_view table.now))
            result };

    /// The schema that a text says.
    ///
    /// `BadToml` comes first, if the text is not UTF-8 or not TOML; then the refusals of
    /// [`from_table`](FromToml::from_table). The cost is that of reading the text once.
    fn from_toml(alloc: Global, text: &[u8]) -> Result<Self, SchemaFault>
        ensures read { GivesUnless SchemaFault.Memory layout result (layout_of text.now) }
        ensures foreign { is_utf8 text.now ≡ false → result ≡ Err SchemaFault.BadToml };
}

/// The value at a key.
fn value_at<'a>(table: &'a Table, key: &str) -> Result<&'a Value, SchemaFault>
    ensures { result_map_both (λ value. view value.now) (λ fault. fault) result
        ≡ needed (get_member key.now (table_view table.now)) }
{
    match table.get(key) {
        Some(value) => Ok(value),
        None => Err(SchemaFault::MissingField),
    }
}

/// A number that doesn't fit becomes the greatest one, which exceeds every limit of a schema.
fn in_32_bits(number: i64) -> u32
    ensures { result ≡ in_32_bits number }
{
    if number < 0 || number > i64::from(u32::MAX) {
        u32::MAX
    } else {
        number as u32
    }
}

/// The whole number at a key.
fn whole_at(table: &Table, key: &str) -> Result<u32, SchemaFault>
    ensures { result ≡ whole_at key.now (table_view table.now) }
{
    match value_at(table, key)?.as_integer() {
        Some(number) => Ok(in_32_bits(number)),
        None => Err(SchemaFault::WrongKind),
    }
}

/// The archive of a table.
#[tactic(auto, unfolding(crate::specs::Document::archive_in))]
fn archive_in(table: &Table) -> Result<ArchiveSpec, SchemaFault>
    ensures { result ≡ archive_in (table_view table.now) }
{
    Ok(ArchiveSpec {
        steps: whole_at(table, "steps")?,
        rows: whole_at(table, "rows")?,
        num: whole_at(table, "xff_num")?,
        den: whole_at(table, "xff_den")?,
    })
}

fn are_tables(values: &Vec<Value>) -> bool
    ensures { result ≡ are_tables (array_view values.now) }
{
    for value in values {
        if value.as_table().is_none() {
            return false;
        }
    }
    true
}

/// The array of tables at a key.
fn tables_at<'a>(table: &'a Table, key: &str) -> Result<&'a Vec<Value>, SchemaFault>
    ensures { result_map_both (λ values. array_view values.now) (λ fault. fault) result
        ≡ tables_at key.now (table_view table.now) }
{
    match value_at(table, key)?.as_array() {
        Some(values) if are_tables(values) => Ok(values),
        _ => Err(SchemaFault::WrongKind),
    }
}

/// The archives of an array of tables.
fn archives_in(alloc: Global, values: &Vec<Value>) -> Result<Vec<ArchiveSpec>, SchemaFault>
    ensures { GivesUnless SchemaFault.Memory (λ archives. archives.items) result
        (archives_in (array_view values.now)) }
{
    let mut archives = Vec::new(alloc);
    for value in values {
        match value.as_table() {
            None => return Err(SchemaFault::WrongKind),
            Some(table) => {
                let archive = archive_in(table)?;
                archives.push(archive)?;
            }
        }
    }
    Ok(archives)
}

impl FromToml for Schema {
    ghost layout = { λ s. s };

    #[tactic(auto, unfolding(crate::specs::Document::layout_in))]
    fn from_table(alloc: Global, table: &Table) -> Result<Schema, SchemaFault> {
        let step = whole_at(table, "step")?;
        let tables = tables_at(table, "archive")?;
        let archives = archives_in(alloc, tables)?;
        Schema::new(alloc, step, archives.as_slice())
    }

    fn from_toml(alloc: Global, text: &[u8]) -> Result<Schema, SchemaFault> {
        let Ok(text) = str::from_utf8(text) else {
            return Err(SchemaFault::BadToml);
        };
        match toml::table_from_str(alloc, text) {
            Ok(table) => Schema::from_table(alloc, &table),
            Err(error) => {
                if error.is_memory() {
                    return Err(SchemaFault::Memory);
                }
                Err(SchemaFault::BadToml)
            }
        }
    }
}
