//! The origins that a node may write under.

ghost use Rattle.std.specs.Prelude.{◌≤◌, IfSome, IfNone};

use rr_schema::Origin;

/// A range of origins, which no other node has.
#[derive(Clone, Copy, Debug)]
pub struct OriginRange {
    /// The least.
    pub first: Origin,
    /// The greatest.
    pub last: Origin,
    ghost ordered: { first ≤ last },
}

impl OriginRange {
    ghost use Rattle.rr_config.specs.Origins.{IsNext, IsSpent, range_view};

    /// The least origin of the range that is above the last one: the first of the range if there
    /// was no last one or it is below the range, and none once the range is spent. The cost is
    /// constant.
    pub fn next_after(&self, last: Option<Origin>) -> Option<Origin>
        ensures next { IfSome result (IsNext (range_view self.now) last) }
        ensures spent { IfNone result (IsSpent (range_view self.now) last) }
    {
        let Some(last) = last else {
            return Some(self.first);
        };
        if last.get() < self.first.get() {
            return Some(self.first);
        }
        if last.get() >= self.last.get() {
            return None;
        }
        Origin::new(last.get() + 1).ok()
    }
}
