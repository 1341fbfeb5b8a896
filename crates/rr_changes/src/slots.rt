//! The slots of ranges.
ghost use Rattle.std.specs.Prelude.{◌≡◌, ◌<◌, length};
ghost use Rattle.rr_archive.specs.CellSlots.{IsSlot};
ghost use Rattle.rr_schema.specs.Schema.{slot_of};

use crate::time_range::TimeRange;
use rr_schema::Schema;

/// The slots of an archive from `first` to `last`, both included; none if `first` is after `last`.
#[derive(Clone, Copy)]
pub(crate) struct Slots {
    pub(crate) first: i64,
    pub(crate) last: i64,
}

impl Slots {
    /// The slots of the times in a range.
    pub(crate) fn of(schema: &Schema, archive: u8, range: &TimeRange) -> Slots
        requires { archive < length schema.now.archives }
        ensures first { result.first ≡ slot_of schema.now archive range.now.first }
        ensures last { result.last ≡ slot_of schema.now archive range.now.last }
        ensures first_is_slot { IsSlot result.first }
        ensures last_is_slot { IsSlot result.last }
    {
        // The proof needs the schema's invariant, which `archives` ensures.
        let _archives = schema.archives();
        Slots {
            first: schema.slot(archive, range.first),
            last: schema.slot(archive, range.last),
        }
    }
}
