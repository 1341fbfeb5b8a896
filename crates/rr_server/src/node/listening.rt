//! The reactor of a node, at the addresses of a configuration.

use crate::server::OUT_OF_MEMORY;
use rr_config::NodeConfig;
use rr_process::Ending;
use rr_reactor::{Limits, Reactor};
use std::io;
use std::io::ErrorKind;
use std::net::{Net, SocketAddr, TcpListener, ToSocketAddrs};

/// The limits of connections under a configuration.
fn limits_of(config: &NodeConfig) -> Limits {
    let idle = config.idle.saturating_mul(1_000);
    let usual = Limits::usual();
    Limits {
        idle,
        head: usual.head.min(idle),
        upload: usual.upload.min(idle),
        download: usual.download.min(idle),
        ..usual
    }
}

/// The first address that a text names.
fn address_of<R: Net>(rt: &R, text: &str) -> io::Result<SocketAddr> {
    match text.to_socket_addrs(rt)?.next() {
        Some(address) => Ok(address),
        None => Err(io::Error::from(ErrorKind::AddrNotAvailable)),
    }
}

/// The ending when the address of a key can't be listened on, which is reported.
fn bad_address(
    rt: &impl Eprint,
    file: &str,
    key: &str,
    address: &str,
    error: &io::Error,
) -> Ending {
    if error.kind() == ErrorKind::OutOfMemory {
        return OUT_OF_MEMORY;
    }
    // If this can't be printed, the ending still says that an address is bad.
    let _printed = eprintln!(rt; "rr: {file}: {key}: {address}: {error}");
    Ending::BadAddress
}

/// Listens on the addresses of a configuration in a file.
pub(crate) fn listen<R: AllocGlobal + Net + Eprint>(
    rt: &R,
    file: &str,
    config: &NodeConfig,
) -> Result<Reactor, Ending> {
    let (http_text, lines_text) = (config.http.as_str(), config.lines.as_deref());
    let http = match address_of(rt, http_text) {
        Ok(address) => address,
        Err(error) => return Err(bad_address(rt, file, "http", http_text, &error)),
    };
    let lines = match lines_text {
        None => None,
        Some(text) => match address_of(rt, text) {
            Ok(address) => Some(address),
            Err(error) => return Err(bad_address(rt, file, "lines", text, &error)),
        },
    };
    match Reactor::new(rt, limits_of(config), http, lines) {
        Ok(reactor) => Ok(reactor),
        Err(error) => Err(match lines_text {
            // Where the other one is free, it is this one that is refused.
            Some(text) if TcpListener::bind(rt, http).is_ok() => {
                bad_address(rt, file, "lines", text, &error)
            }
            _ => bad_address(rt, file, "http", http_text, &error),
        }),
    }
}
