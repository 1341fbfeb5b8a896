//! Origins, the schema of archives, and where a time falls in them.
//!
//! A [`Schema`] is checked once, by [`Schema::new`], and is within its limits from then on. It says
//! in which slot of an archive a time falls ([`Schema::slot`]), at which place of that slot
//! ([`Schema::place`]), whether a row has enough known places ([`Schema::known_enough`]), and which
//! archive answers a fetch ([`Schema::choose`]).
//!
//! Times are nanoseconds since the Unix epoch; steps, spans and resolutions are seconds. Divisions
//! round down, so times before the epoch fall into slots as those after it do.
#![tactic(auto)]

mod added;
mod archive;
mod consolidation;
mod fault;
pub mod laws;
mod origin;
mod schema;
mod schema_bytes;

pub use added::Addition;
pub use archive::ArchiveSpec;
pub use consolidation::ConsolidationFunction;
pub use fault::{OriginFault, SchemaFault};
pub use origin::Origin;
pub use schema::Schema;
