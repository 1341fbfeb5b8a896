//! Keys that the copies lack, added before operations on their series.
ghost use Rattle.std.specs.Prelude.{◌≤◌, length, OnOk};
ghost use Rattle.rr_desk.specs.Changes.{AreNamed};
ghost use Rattle.rr_desk.specs.Writers.{changes, shown_names, AddsKeys};

use crate::change::Change;
use crate::writing::DeskWriter;
use rr_archive::Cells;
use rr_replica::Replica;
use std::alloc::AllocError;

/// Adds to the pending changes the keeper's keys that the copies will lack: at most one, unless
/// memory ran out before. `named` says how many they will have.
#[inline(always)]
pub fn name_keys<A: Cells>(
    writer: &mut DeskWriter<A>,
    own: &Replica<A>,
    named: &mut usize,
) -> Result<(), AllocError>
    requires { AreNamed (shown_names writer.old) own.now.keys
        (changes writer.old) named.old }
    ensures keys { AddsKeys writer.old writer.new }
    ensures named { AreNamed (shown_names writer.old) own.now.keys
        (changes writer.new) named.new }
    ensures all { OnOk result (length own.now.keys ≤ named.new) }
{
    for number in *named..own.key_count() {
        let key = own.key_numbered(number).copy()?;
        if writer.append(Change::AddKey(key)).is_err() {
            return Err(AllocError);
        }
        *named = number + 1;
    }
    Ok(())
}
