//! The configuration of a node: what an operator writes in TOML.
//!
//! A [`Config`] is for `rr serve`: it has the schema of the store, the addresses that the node
//! listens on, its peers, how long it serves, and how the times of lines are taken. A
//! [`NodeConfig`] is for `rr node`, which answers over HTTP; its [`OriginRange`] gives each start
//! an origin of its own. Each is read by its `from_toml`; [`remarks`] and [`node_remarks`] tell an
//! operator where a text is refused, and which of its keys are ignored.
//!
//! ```text
//! TOML text ── document ──> a table ── value, key by key ──> Config, NodeConfig
//!                                                            or the first ConfigFault
//! ```
//!
//! In `specs/` the configuration of a text is a function of its TOML table, key by key, and so is
//! the first fault of a refused text. [`laws`] says which limits each configuration keeps to, and
//! that it depends on its keys alone.
#![tactic(auto)]

mod addresses;
mod command;
mod config;
mod document;
mod fault;
mod habits;
mod intake;
pub mod laws;
mod named_key;
mod node;
mod origins;
mod peers;
mod place;
mod remark;
mod slow;
mod value;

pub use config::Config;
pub use fault::ConfigFault;
pub use node::NodeConfig;
pub use origins::OriginRange;
pub use remark::{node_remarks, remarks};
