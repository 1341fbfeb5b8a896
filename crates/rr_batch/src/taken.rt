//! Taking the origin of a start, before the first of its samples is put.

ghost use Rattle.std.specs.Prelude.{◌≡◌, ◌⊎◌, IfOk, OnOk};
ghost use Rattle.rr_journal.specs.Keeping.{Grows};
ghost use Rattle.rr_batch.specs.Batches.{RecordsOrigin};
ghost use Rattle.rr_batch.specs.Taken.{IsNamed};

use crate::origin::commit_origin;
use rr_commit::ChangesFault;
use rr_journal::{Cursor, Journal};
use rr_schema::Origin;
use std::alloc::Global;
use thiserror::Error;

/// An origin can't be named.
#[derive(Clone, Copy, Debug, PartialEq, Eq, Error)]
#[error("the origin could not be named")]
pub struct NotNamed;

/// Where the origins that a node has taken have names, outside its journal, whose damage hides no
/// name.
///
/// Contracts see it as the origins that have a name which no crash takes away, where these are
/// known.
pub trait OriginNames {
    ghost use Rattle.std.specs.Prelude.{ℕ, List, OnOk, Option};
    ghost use Rattle.rr_batch.specs.Taken.{IsNamed};

    ghost named: { Self → Option (List ℕ) };

    /// Gives an origin its name, and syncs that to disk. It may have the name already.
    fn name_origin(&mut self, origin: Origin) -> Result<(), NotNamed>
        ensures { OnOk result (IsNamed (named self.new) origin) };
}

/// An origin that is taken: it has its name, and its record is in the journal and synced. Only
/// [`take_origin`] gives one, and only with one are lines taken.
#[derive(Clone, Copy, Debug, PartialEq, Eq)]
pub struct TakenOrigin {
    origin: Origin,
}

impl TakenOrigin {
    /// The origin.
    pub fn get(self) -> Origin
        ensures { result ≡ self.origin }
    {
        self.origin
    }
}

/// Takes an origin: gives it its name, and then commits the record of it, so that no later start
/// takes the same one, whatever a crash leaves, and even if the record is damaged.
///
/// All that was written before must be synced. Refused as `NotWritten` if it can't be named, or as
/// [`commit_origin`] is: then it isn't taken, and may be tried again.
pub fn take_origin<N: OriginNames, J: Journal>(
    alloc: Global,
    origin: Origin,
    names: &mut N,
    journal: &mut J,
    cursor: &mut Cursor,
) -> Result<TakenOrigin, ChangesFault>
    requires { J.text journal.old ≡ J.synced journal.old }
    ensures origin { IfOk result (λ taken. taken.origin ≡ origin) }
    ensures named { OnOk result (IsNamed (N.named names.new) origin) }
    ensures recorded { OnOk result (RecordsOrigin origin (J.key journal.old)
        (J.synced journal.old)
        (J.synced journal.new) (J.text journal.new) cursor.old cursor.new) }
    ensures in_order { IsNamed (N.named names.new) origin
        ⊎ (J.synced journal.new ≡ J.synced journal.old) }
    ensures grows { Grows (J.synced journal.old) (J.synced journal.new) }
{
    if names.name_origin(origin).is_err() {
        return Err(ChangesFault::NotWritten);
    }
    commit_origin(alloc, origin, journal, cursor)?;
    Ok(TakenOrigin { origin })
}
