//! The law of a feed: a function with an empty body, whose contract states it.

ghost use Rattle.rr_feed.specs.Laws.{NewIsFed, PushKeepsFed, HandingOutKeepsFed, EndKeepsFed, FedHandsOutAll};

/// What a feed hands out are the items of all bytes pushed, however these were cut: what was handed
/// out, and then the items of what is left. That holds for a new feed, and each call keeps it.
pub fn cuts_do_not_matter()
    ensures new_feed { NewIsFed }
    ensures push { PushKeepsFed }
    ensures next_line { HandingOutKeepsFed }
    ensures end { EndKeepsFed }
    ensures all { FedHandsOutAll }
{}
