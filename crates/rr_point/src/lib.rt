//! The samples of one moment, and the keys of their series.
//!
//! A [`Point`] has a measurement, [`Tags`] and [`Field`]s, which are slices of the line that says
//! it, and perhaps a time. [`Point::write_key`] writes the key text of the series of one of its
//! fields. Whoever keeps samples needs to know no more about lines than this.
#![tactic(auto)]

mod key;
mod point;

pub use point::{Field, Point, Tag, Tags};
