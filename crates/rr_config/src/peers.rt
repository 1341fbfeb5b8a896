//! Peers that can't be followed, whatever answers at their address.

use crate::value::find;
use toml::Table;

/// Whether an address ends with a port.
fn has_port(address: &str) -> bool {
    let bytes = address.as_bytes();
    let digits = bytes
        .iter()
        .rev()
        .take_while(|byte| byte.is_ascii_digit())
        .count();
    let colon = bytes.len().saturating_sub(digits).saturating_sub(1);
    digits > 0 && bytes.get(colon) == Some(&b':')
}

/// What is wrong with the address of a peer of a node with this address, if something is.
fn fault_of(peer: &str, own: &str) -> Option<&'static str> {
    if peer.split_once("//").is_some() {
        Some("is an address with a scheme, and wanted is HOST:PORT")
    } else if !has_port(peer) {
        Some("has no port, and wanted is HOST:PORT")
    } else if peer == own {
        Some("is this node itself")
    } else {
        None
    }
}

/// The first peer of the configuration of `rr node` that can't be followed, and why.
pub(crate) fn lost_peer(table: &Table) -> Option<(&str, &'static str)> {
    let own = find(table, "http")?.as_str()?;
    for peer in find(table, "peers")?.as_array()? {
        let peer = peer.as_str()?;
        if let Some(fault) = fault_of(peer, own) {
            return Some((peer, fault));
        }
    }
    None
}
