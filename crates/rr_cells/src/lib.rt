//! What a store of round-robin archives on several nodes holds: the model, which knows samples, and
//! the cells that a replica keeps, as one finite map by name.
//!
//! **The model.** A sample is seen in each archive as a mark. A node's knowledge is a finite set of
//! marks; those not past the horizon of their archive are live. A row consolidates the live marks
//! of its slot (`specs/Rows.antt`), and a fetch writes rows as CSV (`specs/FetchText.antt`).
//!
//! **Cells.** A name is a key, an archive, a slot and an origin (`specs/Cells.antt`). A sample that
//! is put is added, in each archive, to the cell that its time falls in, and then only the live
//! cells are kept (`specs/Puts.antt`). Of a [`Cell`] from elsewhere and the one already at its
//! name, the greater is kept (`specs/Joins.antt`). The cells of a knowledge are, at each name, what
//! its live marks contribute (`specs/State.antt`).
//!
//! With a schema, an origin and a next number, the cells are what a replica holds
//! (`specs/ReplicaState.antt`). An [`Op`] is one step of it as a value, a [`Sample`] put or a cell
//! joined: a list of them makes the same cells in each replica of the schema
//! (`specs/Operations.antt`).
//!
//! **One archive more.** If an archive is added to the schema, the numbers of those after it rise
//! by one, in names of cells and in marks (`specs/Raising.antt`).
//!
//! [`laws`] says what deliveries, puts, joins, differences and one archive more come to.
#![tactic(auto)]

mod cell;
pub mod laws;
mod op;
mod sample;

pub use cell::{Cell, CellRef};
pub use op::Op;
pub use sample::Sample;
