//! Samples past the horizon, which leave no trace.
ghost use Rattle.std.specs.Prelude.{◌≡◌, ◌<◌, length};
ghost use Rattle.std.specs.FinMap.{keys};
ghost use Rattle.rr_archive.specs.CellSlots.{newest_of};
ghost use Rattle.rr_cells.specs.Cells.{archive_cells};
ghost use Rattle.rr_replica.specs.Horizon.{keeps, keeps_in};

use crate::hint::Hint;
use crate::replica::Replica;
use rr_archive::Cells;
use rr_archive::live_slots::is_live;
use rr_key::SeriesKey;

impl<A: Cells> Replica<A> {
    /// Whether a sample of a key at a time, in nanoseconds since the Unix epoch, would be kept: in
    /// some archive its slot is not past the horizon. A sample put when this is false leaves no
    /// trace but its number. The cost is that of [`Replica::archive`] for each archive.
    pub fn keeps(&self, key: &SeriesKey, time: i64) -> bool
        ensures { result ≡ keeps self.now.schema self.now.cells key.now time }
    {
        self.keeps_near(Hint::none(), key, time)
    }

    /// Whether a sample would be kept, as [`Replica::keeps`] says. If the hint is right, a
    /// comparison of two keys replaces each lookup; no archive is looked at after one that keeps
    /// it.
    pub fn keeps_near(&self, hint: Hint, key: &SeriesKey, time: i64) -> bool
        ensures { result ≡ keeps self.now.schema self.now.cells key.now time }
    {
        for i in 0..self.schema().archives().len() {
            if self.keeps_in(hint, key, time, i as u8) {
                return true;
            }
        }
        false
    }

    /// Whether an archive would keep a sample of a key at a time.
    fn keeps_in(&self, hint: Hint, key: &SeriesKey, time: i64, archive: u8) -> bool
        requires { archive < length self.now.schema.archives }
        ensures { result ≡ keeps_in self.now.schema self.now.cells key.now time archive }
    {
        let schema = self.schema();
        let newest = self.newest(hint, key, archive);
        is_live(
            schema.archive(archive).rows,
            newest,
            schema.slot(archive, time),
        )
    }

    /// The greatest slot of a cell in an archive of a key, if there is a cell.
    fn newest(&self, hint: Hint, key: &SeriesKey, archive: u8) -> Option<i64>
        ensures { result ≡ newest_of (keys (archive_cells self.now.cells key.now archive)) }
    {
        match self.archive_near(hint, key, archive) {
            Some(archive) => archive.newest(),
            None => None,
        }
    }
}
