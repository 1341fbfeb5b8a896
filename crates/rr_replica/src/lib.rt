//! A replica: all series of one host, as one map of cells.
//!
//! A [`Replica`] has a schema and an origin, and for each key an archive for each of the schema's.
//! Contracts see it as one finite map from the names of cells to contributions, as `rr_cells` has
//! it, whatever the archives are made of. A sample that is put gets the replica's next number, and
//! in each archive it is added to the cell that its time falls in. The greater of a [`Cell`] from
//! elsewhere and what is at its name is kept, and the next number moves past a cell of the
//! replica's own origin. Cells are listed in the order of their names, from an offset on or after a
//! name; a [`CellWalk`] is for reading many of them, one after the other.
//!
//! Each of these two steps is also a value, an [`Op`]. Room for it is made before it is applied,
//! which then can't fail (`specs/ReplicaWithRoom.antt`).
#![tactic(auto)]

mod archives;
mod cell_run;
mod cell_walk;
mod cells;
mod copies;
mod fault;
mod hint;
mod hints;
mod horizon;
mod joins;
mod keys;
pub mod laws;
mod next;
mod nth_cell;
mod operations;
mod points;
mod replica;
mod room;
mod samples;
mod series;
mod shared_rows;
mod slots;
mod unkeyed_sample;

pub use cell_walk::CellWalk;
pub use fault::{AHEAD_OF_CLOCK, JoinFault, NUMBERS_SPENT, PutFault, WriteFault};
pub use hint::Hint;
pub use points::{Sink, is_ahead, write_point};
pub use replica::Replica;
pub use rr_cells::{Cell, CellRef, Op, Sample};
