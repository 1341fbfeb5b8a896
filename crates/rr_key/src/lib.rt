//! Series keys: one text for each series.
//!
//! A series is named by a measurement, tags and a field. Its key is a text of these names, and each
//! series has only one: [`SeriesKey::new`] writes it, with the tags in the order of their keys, and
//! [`SeriesKey::parse_text`] accepts such texts and no others. So keys are compared, sorted and
//! sent as bytes. [`is_key_text`] says whether bytes are one, and takes no memory.
//!
//! ```text
//! key text = measurement { "," tag key "=" tag value } " " field key
//! ```
//!
//! A name is written as in the "InfluxDB line protocol reference": [`escape`] puts a backslash
//! before each special byte of the name's [`Class`], [`unescape`] drops it again, and [`name_len`]
//! says where a written name ends in a text. A backslash that no special byte follows is a byte of
//! the name. No name of a key is empty, has a line feed or ends in a backslash; a key has at most
//! [`MAX_TAGS`] tags, their keys differ, and its text has at most
//! [`MAX_KEY_TEXT`](rr_text::limits::MAX_KEY_TEXT) bytes.
//!
//! In `specs/`, a series has its tags as a map, and its key text is a function of it; [`laws`] says
//! that no two series have the same text, and that a name is written in only one way.
#![tactic(auto)]

mod class;
mod escapes;
mod fault;
mod key;
mod key_text;
pub mod laws;
mod making;
mod names;
mod room;
mod writing;

pub use class::Class;
pub use escapes::{escape, unescape};
pub use fault::KeyFault;
pub use key::SeriesKey;
pub use key_text::is_key_text;
pub use names::name_len;
pub use rr_text::limits::MAX_TAGS;
