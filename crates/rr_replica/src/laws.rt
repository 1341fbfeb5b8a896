//! The laws of replicas: functions with empty bodies, whose contracts state them.
ghost use Rattle.rr_replica.specs.KeysLaw.{ListedAreTheFirst};
ghost use Rattle.rr_replica.specs.Writing.{WritingGoesOn};

pub use rr_cells::laws::cells::{
    a_difference_is_by_versions, a_join_is_a_union, a_put_is_one_sample_more,
    cells_of_samples_are_valid, join_keeps_the_live, joining_goes_on, joins_make_their_cells,
    live_cells_are_few, puts_go_by_archives, whole_cells_make_their_cells,
};

/// Putting some fields of a point, and then the rest if memory ran out, is putting them all.
pub fn writing_goes_on()
    ensures { WritingGoesOn }
{}

/// The keys that `keys_after` lists are distinct and ascend. They are those after the key that have
/// a cell, and one of these is missing only if as many as are wanted come before it.
pub fn listed_keys_are_the_first()
    ensures { ListedAreTheFirst }
{}
