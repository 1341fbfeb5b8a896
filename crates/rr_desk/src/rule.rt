//! The rule of the two copies, and what each step under it tells (`specs/Rule.antt`).

use crate::book::{Batch, DeskName};
use crate::shown::Shown;
use atomic_table::{Join, Split};
use crossbeam_utils::rule::{Outcome, Protocol};
use rr_archive::Cells;
use rr_cells::Op;
use rr_schema::Schema;
use std::collections::LinkedList;
use std::marker::PhantomData;

/// What a handle knows, whether the keeper's or a reader's. Never constructed.
pub struct View {
    /// It is the keeper's: nothing is published that it has not seen.
    pub writes: bool,
    /// It knows the schema and the desk.
    pub joined: bool,
    /// The schema of all cells.
    pub schema: Schema,
    /// The desk, by its book.
    pub desk: DeskName,
    /// The operations that it has seen.
    pub seen: LinkedList<Op>,
    /// The operations that it was told of.
    pub told: LinkedList<Op>,
}

/// The rule.
pub struct Published;

impl<A: Cells> Protocol<Shown<A>, View> for Published {
    ghost use Rattle.rr_replica.specs.ReplicaWithRoom.{replica_state};
    ghost use Rattle.rr_desk.specs.Rule.{Keeps, newcomer};

    ghost holds = { λ x. Keeps (record { held = replica_state x.replica; keys = x.replica.keys; started = x.started; prefix = x.prefix }) };

    ghost first = { newcomer };
}

/// A reader enters.
pub struct Enters;

impl<A: Cells> Outcome<Shown<A>, View> for Enters {
    ghost use Rattle.rr_replica.specs.ReplicaWithRoom.{replica_state};
    ghost use Rattle.rr_desk.specs.Rule.{Sees};

    ghost then = { λ v x y w. Sees v (record { held = replica_state y.replica; keys = y.replica.keys; started = y.started; prefix = y.prefix }) w };
}

/// The first publication: one join for each cell.
pub struct Opens;

impl<A: Cells> Outcome<Shown<A>, View> for Opens {
    ghost use Rattle.std.specs.Prelude.{◌≡◌};
    ghost use Rattle.rr_replica.specs.ReplicaWithRoom.{replica_state};
    ghost use Rattle.rr_desk.specs.Rule.{keeper_of};

    ghost then = { λ v x y w. w ≡ keeper_of (replica_state x.replica) y.prefix.desk };
}

/// A publication: the batch comes after what was published before.
pub struct Publishes<K> {
    of: PhantomData<K>,
}

impl<A: Cells, K: Batch> Outcome<Shown<A>, View> for Publishes<K> {
    ghost use Rattle.std.specs.Prelude.{◌≡◌};
    ghost use Rattle.rr_desk.specs.Rule.{with_published};

    ghost then = { λ v x y w. w ≡ with_published v K.batch };
}

/// What the keeper tells a new reader, and what the reader then knows.
pub struct Introduces;

impl Split<View> for Introduces {
    ghost use Rattle.rr_desk.specs.Rule.{telling_of};

    ghost left = { λ v. v };

    ghost right = { telling_of };
}

impl Join<View> for Introduces {
    ghost use Rattle.rr_desk.specs.Rule.{with_news, newcomer};

    ghost both = { with_news };

    ghost spent = { newcomer };
}
