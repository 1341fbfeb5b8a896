//! Lines of samples in the line protocol of InfluxDB, read into points.
//!
//! [`parse_line`] takes one line, without the line feed that ended it, and the [`Precision`] of its
//! time. It reads the line part by part, from left to right, and returns a [`Line`]: nothing, or a
//! [`Point`] whose names are slices of the line. A line outside the grammar is refused with its
//! first [`LineFault`]. [`Point::write_key`] writes the key text of a field's series.
//!
//! ```text
//! line  = [ spaces ] measurement { "," tag } spaces field { "," field }
//!         [ spaces time ] [ spaces ] [ CR ]
//! tag   = key "=" value
//! field = key "=" [ "-" ] digits "i"
//! time  = [ "-" ] digits
//! ```
//!
//! A measurement is a name of the class [`Measurement`](rr_key::Class::Measurement), and ends
//! before a comma or a space; keys and the values of tags are names of the class
//! [`Other`](rr_key::Class::Other), and also end before an equals. A backslash before such a byte
//! takes it into the name; any other backslash is a byte of the name. The only separator is the
//! space: a tab is a byte of a name. A line that is empty, or begins with `#`, says nothing.
//!
//! A line has at most [`MAX_TAGS`](rr_key::MAX_TAGS) tags and [`MAX_FIELDS`] fields, each with a
//! key of its own, and the key text of each field has at most
//! [`MAX_KEY_TEXT`](rr_text::limits::MAX_KEY_TEXT) bytes. The rules are those of the "InfluxDB
//! line protocol reference" where it has them; fields of other kinds are refused by their kind.
//!
//! A sender repeats its series, so most lines are of a series whose key text is known.
//! [`read_known`] reads such a line, and [`KnownLine`] one of several fields, by comparing the key
//! texts: what they return is what [`parse_line`] reads, which must be called if they return
//! nothing. [`LastTime`] keeps the time of the previous line, which is mostly that of the next one.
//!
//! In `specs/`, the grammar is a relation between a line's bytes and what they say, or why they are
//! refused: good parts, and what follows them. The reading is a function of these bytes. [`laws`]
//! says that the two agree, and that each line has exactly one answer.
#![tactic(auto)]

mod fault;
mod fields;
mod integer;
mod known;
mod known_line;
mod last_time;
pub mod laws;
mod line;
mod mark;
mod parse;
mod part;
mod precision;
mod prefix;
mod repeat;
mod tags;
mod time;
mod value;

pub use fault::LineFault;
pub use known::read_known;
pub use known_line::KnownLine;
pub use last_time::LastTime;
pub use line::Line;
pub use parse::parse_line;
pub use precision::Precision;
pub use rr_point::{Field, Point, Tag, Tags};
pub use rr_text::bytes::LINE_FEED;
pub use rr_text::limits::MAX_FIELDS;
