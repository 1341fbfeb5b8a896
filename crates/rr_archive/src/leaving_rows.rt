//! Rows past the horizon, which leave an archive as the newest slot advances.
ghost use Rattle.std.specs.Prelude.{◌≡◌, Some, drop};
ghost use Rattle.std.specs.FinMap as fin;
ghost use Rattle.rr_join.specs.Horizon.{is_above};
ghost use Rattle.rr_archive.specs.ArchiveState.{cells_in, starts_dead, first_len};

use crate::live_slots::is_above;
use crate::slots::Slots;

impl Slots {
    /// Whether the first row is past the horizon.
    fn starts_dead(&self, rows: u32, newest: i64) -> bool
        ensures { result ≡ starts_dead rows newest self.now.rows.entries }
    {
        match self.rows.first_key_value() {
            Some((slot, _)) => !is_above(rows, newest, *slot),
            None => false,
        }
    }

    /// Removes the first row, and returns how many entries it had.
    fn drop_first(&mut self) -> usize
        ensures len { result ≡ first_len self.old.rows.entries }
        ensures rest { self.new.rows.entries ≡ drop 1 self.old.rows.entries }
    {
        match self.rows.pop_first() {
            Some((_, row)) => row.len(),
            None => 0,
        }
    }

    /// Removes the rows past the horizon, and returns how many of the cells are left.
    ///
    /// The cost is that of the rows that leave: none that stays is visited.
    pub(crate) fn drop_dead(&mut self, cells: usize, rows: u32, newest: i64) -> usize
        requires { cells ≡ fin.len (cells_in self.old.rows.entries) }
        ensures live { cells_in self.new.rows.entries
            ≡ fin.retain_keys (cells_in self.old.rows.entries)
            (λ p. is_above rows (Some newest) p.slot) }
        ensures counted { result ≡ fin.len (cells_in self.new.rows.entries) }
    {
        let mut left = cells;
        while self.starts_dead(rows, newest) {
            left -= self.drop_first();
        }
        left
    }
}
