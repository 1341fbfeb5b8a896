//! Configurations of a node with a directory as TOML texts, with a line `---` between two, and what
//! is told about them.

use crate::configs::{name_of, push_given, push_lines, push_setting, push_some, push_texts};
use crate::documents::{push_schema, texts};
use rr_config::{NodeConfig, node_remarks};
use std::alloc::{AllocError, Global};

/// For each text its configuration, the schema first, or why it is refused.
pub(crate) fn answers(alloc: Global, input: &[u8]) -> Result<Vec<u8>, AllocError> {
    let mut output = String::new(alloc);
    for text in &texts(alloc, input)? {
        push_answer(alloc, &mut output, text)?;
        output.push('\n')?;
    }
    Ok(output.into_bytes())
}

/// For each text what an operator is told about it, line by line, and then a line `---`.
pub(crate) fn all_remarks(alloc: Global, input: &[u8]) -> Result<Vec<u8>, AllocError> {
    let mut output = String::new(alloc);
    for text in &texts(alloc, input)? {
        push_lines(&mut output, &node_remarks(alloc, text)?)?;
        output.push_str("---\n")?;
    }
    Ok(output.into_bytes())
}

fn push_answer(alloc: Global, output: &mut String, text: &[u8]) -> Result<(), AllocError> {
    match NodeConfig::from_toml(alloc, text) {
        Ok(config) => push_config(output, &config),
        Err(fault) => output.push_str(fault.name()),
    }
}

fn push_config(output: &mut String, config: &NodeConfig) -> Result<(), AllocError> {
    push_schema(output, &config.schema)?;
    push_setting(output, "http", config.http.as_str())?;
    push_some(output, "lines", lent(&config.lines))?;
    push_setting(output, "origins", config.origins.first.get())?;
    write!(output, " {}", config.origins.last.get())?;
    push_texts(output, "; peers", &config.peers)?;
    push_some(output, "lead", config.lead)?;
    push_setting(output, "precision", name_of(config.precision))?;
    push_setting(output, "idle", config.idle)?;
    push_setting(output, "readers", config.readers)?;
    push_given(output, "; quiet", config.quiet)
}

/// A text that may be absent.
fn lent(text: &Option<String>) -> Option<&str> {
    match text {
        Some(text) => Some(text.as_str()),
        None => None,
    }
}
