//! The values of a configuration's keys.

ghost use Rattle.std.specs.Prelude.{◌≡◌, map, option_map};
ghost use Rattle.std.specs.String.{string_bytes};
ghost use Rattle.toml.specs.Data.{get_member};
ghost use Rattle.toml.specs.View.{view, table_view, array_view};
ghost use Rattle.rr_text.specs.Results.{Gives, GivesUnless};
ghost use Rattle.rr_config.specs.Origins.{range_view};
ghost use Rattle.rr_config.specs.Values.{are_whole, count_of, flag_of, origin_of, precision_of, range_between, range_in, range_of, readers_of, seconds_of, text_of, texts_in, texts_of};

use crate::fault::ConfigFault;
use crate::origins::OriginRange;
use rr_line::Precision;
use rr_schema::Origin;
use rr_text::limits::{MAX_IDLE, MAX_READERS};
use std::alloc::Global;
use toml::{Table, Value};

/// The value at a key, if it is there.
pub(crate) fn find<'a>(table: &'a Table, key: &str) -> Option<&'a Value>
    ensures { option_map (λ value. view value.now) result
        ≡ get_member key.now (table_view table.now) }
{
    table.get(key)
}

/// A text.
fn text_of(value: &Value) -> Result<&str, ConfigFault>
    ensures { Gives (λ text. text.now) result (text_of (view value.now)) }
{
    value.as_str().ok_or(ConfigFault::WrongKind)
}

/// An owned copy of a text.
pub(crate) fn owned_text_of(alloc: Global, value: &Value) -> Result<String, ConfigFault>
    ensures { GivesUnless ConfigFault.Memory string_bytes result (text_of (view value.now)) }
{
    Ok(String::from_str(alloc, text_of(value)?)?)
}

/// True or false.
pub(crate) fn flag_of(value: &Value) -> Result<bool, ConfigFault>
    ensures { result ≡ flag_of (view value.now) }
{
    value.as_bool().ok_or(ConfigFault::WrongKind)
}

/// A whole number that isn't negative.
pub(crate) fn count_of(value: &Value) -> Result<u64, ConfigFault>
    ensures { result ≡ count_of (view value.now) }
{
    match value.as_integer() {
        Some(number) => u64::try_from(number).map_err(|_| ConfigFault::BadCount),
        None => Err(ConfigFault::WrongKind),
    }
}

/// The texts of an array.
pub(crate) fn texts_of(alloc: Global, value: &Value) -> Result<Vec<String>, ConfigFault>
    ensures { GivesUnless ConfigFault.Memory (λ texts. map string_bytes texts.items) result
        (texts_of (view value.now)) }
{
    match value.as_array() {
        Some(values) => texts_in(alloc, values),
        None => Err(ConfigFault::WrongKind),
    }
}

/// The texts of the values of an array, one after the other.
fn texts_in(alloc: Global, values: &Vec<Value>) -> Result<Vec<String>, ConfigFault>
    ensures { GivesUnless ConfigFault.Memory (λ texts. map string_bytes texts.items) result
        (texts_in (array_view values.now)) }
{
    let mut texts = Vec::new(alloc);
    for value in values {
        let text = text_of(value)?;
        texts.push(String::from_str(alloc, text)?)?;
    }
    Ok(texts)
}

/// The 1 to 16 addresses that fetches are answered on.
pub(crate) fn readers_of(alloc: Global, value: &Value) -> Result<Vec<String>, ConfigFault>
    ensures { GivesUnless ConfigFault.Memory (λ texts. map string_bytes texts.items) result
        (readers_of (view value.now)) }
{
    let texts = texts_of(alloc, value)?;
    if texts.is_empty() || texts.len() > MAX_READERS {
        return Err(ConfigFault::BadCount);
    }
    Ok(texts)
}

/// A precision, by its name.
pub(crate) fn precision_of(value: &Value) -> Result<Precision, ConfigFault>
    ensures { result ≡ precision_of (view value.now) }
{
    Precision::named(text_of(value)?).ok_or(ConfigFault::BadPrecision)
}

/// A number of seconds, from 1 to a day.
pub(crate) fn seconds_of(value: &Value) -> Result<u64, ConfigFault>
    ensures { result ≡ seconds_of (view value.now) }
{
    let seconds = count_of(value)?;
    if seconds == 0 || seconds > MAX_IDLE {
        return Err(ConfigFault::BadCount);
    }
    Ok(seconds)
}

/// An origin.
fn origin_of(value: &Value) -> Result<Origin, ConfigFault>
    ensures { result ≡ origin_of (view value.now) }
{
    let number = count_of(value)?;
    match u16::try_from(number) {
        Ok(number) => Origin::new(number).map_err(|_| ConfigFault::BadCount),
        Err(_) => Err(ConfigFault::BadCount),
    }
}

/// Whether each of these values is a whole number.
fn are_whole(values: &Vec<Value>) -> bool
    ensures { result ≡ are_whole (array_view values.now) }
{
    for value in values {
        if value.as_integer().is_none() {
            return false;
        }
    }
    true
}

/// The range from one origin to another.
fn range_between(least: &Value, greatest: &Value) -> Result<OriginRange, ConfigFault>
    ensures { Gives range_view result (range_between (view least.now) (view greatest.now)) }
{
    let first = origin_of(least)?;
    let last = origin_of(greatest)?;
    if first > last {
        return Err(ConfigFault::BadCount);
    }
    Ok(OriginRange { first, last })
}

/// The range of exactly two values.
fn range_in(values: &Vec<Value>) -> Result<OriginRange, ConfigFault>
    ensures { Gives range_view result (range_in (array_view values.now)) }
{
    if values.len() != 2 {
        return Err(ConfigFault::BadCount);
    }
    range_between(&values[0], &values[1])
}

/// A range of origins, written as an array of two whole numbers.
pub(crate) fn range_of(value: &Value) -> Result<OriginRange, ConfigFault>
    ensures { Gives range_view result (range_of (view value.now)) }
{
    match value.as_array() {
        Some(values) if are_whole(values) => range_in(values),
        _ => Err(ConfigFault::WrongKind),
    }
}
