//! Configurations of a node as TOML texts, with a line `---` between two, and what is told about
//! them.

use crate::documents::{push_schema, texts};
use crate::printed::push_line;
use rr_config::{Config, remarks};
use rr_line::Precision;
use std::alloc::{AllocError, Global};
use std::fmt::Display;

/// For each text its configuration, the schema first, or why it is refused.
pub(crate) fn answers(alloc: Global, input: &[u8]) -> Result<Vec<u8>, AllocError> {
    let mut output = String::new(alloc);
    for text in &texts(alloc, input)? {
        push_answer(alloc, &mut output, text)?;
        output.push('\n')?;
    }
    Ok(output.into_bytes())
}

/// For each text what an operator is told about it, line by line, and then a line `---`.
pub(crate) fn all_remarks(alloc: Global, input: &[u8]) -> Result<Vec<u8>, AllocError> {
    let mut output = String::new(alloc);
    for text in &texts(alloc, input)? {
        push_lines(&mut output, &remarks(alloc, text)?)?;
        output.push_str("---\n")?;
    }
    Ok(output.into_bytes())
}

pub(crate) fn push_lines(output: &mut String, lines: &[String]) -> Result<(), AllocError> {
    for line in lines {
        push_line(output, line.as_str())?;
    }
    Ok(())
}

fn push_answer(alloc: Global, output: &mut String, text: &[u8]) -> Result<(), AllocError> {
    match Config::from_toml(alloc, text) {
        Ok(config) => push_config(output, &config),
        Err(fault) => output.push_str(fault.name()),
    }
}

fn push_config(output: &mut String, config: &Config) -> Result<(), AllocError> {
    push_schema(output, &config.schema)?;
    push_setting(output, "lines", config.lines.as_str())?;
    push_texts(output, "; fetch", &config.fetch)?;
    push_texts(output, "; peers", &config.peers)?;
    push_setting(output, "rounds", config.rounds)?;
    push_setting(output, "visits", config.visits)?;
    push_times(output, config)?;
    push_rounds(output, config)
}

/// Adds a setting, after its name.
pub(crate) fn push_setting<D: Display + Drop>(
    output: &mut String,
    name: &str,
    value: D,
) -> Result<(), AllocError> {
    write!(output, "; {name} {value}")
}

/// Adds a setting that may be absent.
pub(crate) fn push_some<D: Display + Drop>(
    output: &mut String,
    name: &str,
    value: Option<D>,
) -> Result<(), AllocError> {
    match value {
        Some(value) => push_setting(output, name, value),
        None => Ok(()),
    }
}

/// Adds a word if it is given.
pub(crate) fn push_given(
    output: &mut String,
    word: &str,
    is_given: bool,
) -> Result<(), AllocError> {
    if is_given {
        output.push_str(word)
    } else {
        Ok(())
    }
}

/// Adds what a configuration says about rounds by time, and about what a node tells of them.
fn push_rounds(output: &mut String, config: &Config) -> Result<(), AllocError> {
    push_some(output, "every", config.every)?;
    push_given(output, "; quiet", config.quiet)?;
    match &config.status {
        Some(status) => push_setting(output, "status", status.as_str()),
        None => Ok(()),
    }
}

/// Adds what a configuration says about times.
fn push_times(output: &mut String, config: &Config) -> Result<(), AllocError> {
    push_some(output, "lead", config.lead)?;
    push_setting(output, "precision", name_of(config.precision))?;
    push_some(output, "idle", config.idle)
}

/// Adds texts after a name.
pub(crate) fn push_texts(
    output: &mut String,
    name: &str,
    texts: &[String],
) -> Result<(), AllocError> {
    output.push_str(name)?;
    for text in texts {
        output.push(' ')?;
        output.push_str(text.as_str())?;
    }
    Ok(())
}

pub(crate) fn name_of(precision: Precision) -> &'static str {
    match precision {
        Precision::Ns => "ns",
        Precision::Us => "us",
        Precision::Ms => "ms",
        Precision::S => "s",
    }
}
