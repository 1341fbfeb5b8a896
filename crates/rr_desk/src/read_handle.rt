//! A reader's handle of the copies, and what is done with it under the rule.
ghost use Rattle.std.specs.Prelude.{◌≡◌, true, IfOk, MatchResult};
ghost use mathlib.Core.List.{IsPrefix};
ghost use Rattle.left_right.specs.Sides.{view};
ghost use Rattle.rr_desk.specs.Editions.{flat};
ghost use Rattle.rr_desk.specs.Rule.{Looked, Reads};

use crate::book::Prefix;
use crate::rule::{Enters, Published, View};
use crate::shown::Shown;
use left_right::reader::Reader;
use rr_archive::Cells;
use std::alloc::AllocError;

/// A reader's handle of the copies, with a place in their table.
pub type ReadHandle<A> = Reader<Shown<A>, View, Published>;

/// A handle that knows its desk: the keeper has told it.
#[derive(Drop)]
pub struct JoinedHandle<A: Cells> {
    pub(crate) inner: ReadHandle<A>,
    ghost joined: { (view inner.place).joined ≡ true },
}

/// Enters and leaves once.
pub fn look<A: Cells>(handle: ReadHandle<A>) -> Result<ReadHandle<A>, ReadHandle<A>>
    ensures { MatchResult result
        (λ s. Looked (view handle.place) (view s.place))
        (λ s. view s.place ≡ view handle.place) }
{
    match handle.enter_as::<Enters>() {
        Ok(guard) => Ok(guard.leave()),
        Err(handle) => Err(handle),
    }
}

/// Enters and leaves once, and says whether what is then seen begins with what a prefix has.
pub fn look_for<A: Cells>(
    handle: JoinedHandle<A>,
    prefix: &Prefix,
) -> (JoinedHandle<A>, Result<(), AllocError>)
    requires { prefix.now.desk ≡ (view handle.inner.place).desk }
    ensures { Reads (view handle.inner.place) (view result.0.inner.place)
        (IfOk result.1 (λ _. IsPrefix (flat prefix.now.editions)
        (view result.0.inner.place).seen)) }
{
    match handle.inner.enter_as::<Enters>() {
        Ok(guard) => {
            let newer = prefix.begins(&guard.get().prefix);
            let inner = guard.leave();
            if newer {
                (JoinedHandle { inner }, Ok(()))
            } else {
                (JoinedHandle { inner }, Err(AllocError))
            }
        }
        Err(inner) => (JoinedHandle { inner }, Err(AllocError)),
    }
}
