//! One archive of one series: what each origin contributes to each of its slots.
//!
//! An archive is seen, through [`Cells`], as a finite map from cell slots, each a slot and an
//! origin, to contributions, in order (`specs/Cells.antt`). A sample is put at its cell slot, and a
//! cell from elsewhere is joined: of two contributions at one cell slot the greater stays. Then
//! only the live cells are kept, those whose slot is above the newest slot less the rows of the
//! archive (`specs/CellSlots.antt`), so an archive never has more cells than its rows times the
//! origins. Joining maps this way gives the same in any order, in any grouping and any number of
//! times (`laws`).
//!
//! An [`Archive`] also lends the entries of a row; other kinds make them from less.
//!
//! [`PlainArchive`] keeps its rows in an ordered map. What it shares with other kinds of archive is
//! public: which slots are live ([`live_slots`]), what a cell contributes after a sample or a join
//! ([`change`]), the entries of one row ([`row`]), and how a row that mostly has one entry is kept
//! ([`entries`]).
#![tactic(auto)]

mod archive;
pub mod change;
pub mod entries;
mod entry;
pub mod laws;
mod leaving_rows;
pub mod live_slots;
mod new_sample;
mod plain;
pub mod row;
mod slots;

pub use archive::{Archive, Cells};
pub use entry::Entry;
pub use new_sample::NewSample;
pub use plain::PlainArchive;
