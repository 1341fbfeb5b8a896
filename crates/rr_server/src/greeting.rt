//! What a node says as it starts.

use rr_archive::Cells;
use rr_command_line::VERSION;
use rr_config::{Config, NodeConfig};
use rr_replica::Replica;
use rr_schema::Origin;
use std::alloc::{AllocError, Global};

/// How many series a replica has. The cost is a look-up for each.
fn series_count<A: Cells>(replica: &Replica<A>) -> usize {
    let Ok(last) = Origin::new(u16::MAX) else {
        return 0;
    };
    let mut count = 0usize;
    let mut next = replica.cell_at(0);
    for _ in 0..replica.cell_count() {
        let Some(cell) = next else {
            return count;
        };
        count = count.saturating_add(1);
        // No cell of the series comes after this name.
        next = replica.next_cell(cell.key, u8::MAX, i64::MAX, last);
    }
    count
}

/// The line of a node starting with a replica.
pub(crate) fn greeting<A: Cells>(
    alloc: Global,
    config: &Config,
    replica: &Replica<A>,
) -> Result<String, AllocError> {
    let origin = replica.origin().get();
    let lines = config.lines.as_str();
    let mut text = format!(in alloc; "rr: version {VERSION} origin {origin} lines {lines} fetch")?;
    for address in &config.fetch {
        text.push(' ')?;
        text.push_str(address.as_str())?;
    }
    let (series, cells) = (series_count(replica), replica.cell_count());
    write!(text, " series {series} cells {cells}")?;
    Ok(text)
}

/// The line of a node with a directory, starting with a replica, whose origin is the next one that
/// it takes.
pub(crate) fn node_greeting<A: Cells>(
    alloc: Global,
    config: &NodeConfig,
    replica: &Replica<A>,
) -> Result<String, AllocError> {
    let (origin, http) = (replica.origin().get(), config.http.as_str());
    let mut text = format!(in alloc; "rr: version {VERSION} next {origin} http {http}")?;
    if let Some(lines) = &config.lines {
        text.push_str(" lines ")?;
        text.push_str(lines.as_str())?;
    }
    let (series, cells) = (series_count(replica), replica.cell_count());
    write!(text, " series {series} cells {cells}")?;
    Ok(text)
}
