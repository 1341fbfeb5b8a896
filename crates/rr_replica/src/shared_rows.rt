//! Rows that replicas share.
ghost use Rattle.std.specs.Prelude.{◌≡◌, map};
ghost use Rattle.rr_replica.specs.InMemory.{seen_archive};
ghost use Rattle.rr_replica.specs.SeriesMap.{IsSeenAlike};
ghost use Rattle.rr_replica.specs.ReplicaWithRoom.{replica_state};
ghost use Rattle.rr_replica.specs.Calls.{HoldsTheSame};

use crate::replica::Replica;
use crate::series::SeriesMap;
use rr_archive::Cells;
use rr_key::SeriesKey;

/// Shares rows of archives, each with the one of the same number; if that is missing, finished rows
/// are made ready to be shared.
fn share_archives<A: Cells>(archives: &mut Vec<A>, others: &[A])
    ensures { map (seen_archive A.cells A.row_limit) archives.new.items
        ≡ map (seen_archive A.cells A.row_limit) archives.old.items }
{
    for i in 0..archives.len() {
        archives[i].share_rows(others.get(i));
    }
}

/// Shares rows of the series at an index, if there is one, with other archives.
fn share_at<A: Cells>(series: &mut SeriesMap<A>, index: usize, others: &[A])
    ensures { IsSeenAlike A.cells A.row_limit series.old series.new }
{
    if index >= series.archives.len() {
        return;
    }
    share_archives(&mut series.archives[index], others);
}

impl<A: Cells> Replica<A> {
    /// Makes finished rows of the series with this number ready to be shared by other replicas. It
    /// changes nothing that the replica holds. The cost is that of [`Cells::share_rows`] for each
    /// archive.
    pub fn finish_rows(&mut self, series: usize)
        ensures { HoldsTheSame self.old self.new }
    {
        share_at(&mut self.series, series, &[]);
    }

    /// Makes finished rows of a key ready to be shared, as [`Replica::finish_rows`] does those of a
    /// series, if the key is known. The cost is one more lookup of the key.
    pub fn finish_rows_of(&mut self, key: &SeriesKey)
        ensures { HoldsTheSame self.old self.new }
    {
        if let Some(series) = self.series.find(key) {
            self.finish_rows(series);
        }
    }

    /// Makes finished rows of all series ready to be shared, as [`Replica::finish_rows`] does those
    /// of one, so that copies of the replica share them. The cost is linear in the series and in
    /// the blocks of rows that weren't ready.
    pub fn finish_all_rows(&mut self)
        ensures { replica_state self.new ≡ replica_state self.old }
    {
        for index in 0..self.series.archives.len() {
            self.finish_rows(index);
        }
    }

    /// Shares the finished rows of the series with this number with another replica, which has made
    /// them ready, if both hold the same in them; if the other lacks the series, they are made
    /// ready as by [`Replica::finish_rows`]. It changes nothing that the replica holds, whatever
    /// the number and the other replica. The cost is that of comparing these rows.
    #[inline(always)]
    pub fn share_rows(&mut self, series: usize, other: &Replica<A>)
        ensures { HoldsTheSame self.old self.new }
    {
        share_at(&mut self.series, series, other.series.at(series));
    }
}
