//! What changed in a replica since it was last written.
//!
//! An update is a part of a map of cells that has all that was added to the map since an earlier
//! moment: joined to what was there then, it makes what is there now. Updates may be joined in any
//! order and any number of times (`specs/Updates.antt`), also to a checkpoint, which was read while
//! the replica went on (`specs/Checkpoints.antt`). An operation changes only cells of its key, in
//! the slots of its time. So tracking the times at which each series changed is enough to find an
//! update among its cells, at the cost of the series that changed, never of all.
//!
//! [`ChangeTracker`] tracks them: at most two [`TimeRange`]s a series (`specs/Tracking.antt`).
//! Before an operation is applied, the tracker is made `ready` for its series; after that, `track`
//! can't fail. A joined cell that [`is_held`] already changes nothing, and isn't tracked. To write
//! what changed, its `series` are listed by their numbers, and [`ArchiveChanges`] lists the cells of
//! each of their archives in the slots of their ranges (`specs/Listing.antt`). Once they are written,
//! the tracker is cleared; if they aren't, the next list has them again. For a checkpoint,
//! [`next_cells`] gives all cells, up to a limit at a time, each call after the last cell of the one
//! before, until fewer come. [`laws`] states what the cells of all calls come to.
#![tactic(auto)]

mod by_number;
mod change_tracker;
mod changed_series;
mod held;
pub mod laws;
mod listing;
mod slots;
mod time;
mod time_range;
mod walking;

pub use change_tracker::ChangeTracker;
pub use changed_series::ChangedSeries;
pub use held::is_held;
pub use listing::ArchiveChanges;
pub use time::op_time;
pub use time_range::{ChangeTimes, NEVER, TimeRange, UNCHANGED};
pub use walking::next_cells;
