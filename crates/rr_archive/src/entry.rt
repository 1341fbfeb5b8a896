//! One entry of a row.

use rr_contrib::Contribution;
use rr_schema::Origin;
use std::mem::size_of;

/// What one origin contributes to a row.
#[derive(Clone, Copy, Debug, PartialEq, Eq)]
pub struct Entry {
    /// Whose samples these are.
    pub origin: Origin,
    /// What they contribute.
    pub contribution: Contribution,
}

const _: () = prove!(size_of::<Entry>() == 96);
