//! The nodes of a script.

ghost use Rattle.rr_schema.specs.Schema.{IsLayout};

use crate::stop::Stop;
use rr_archive::Cells;
use rr_replica::Replica;
use rr_schema::Schema;
use std::alloc::Global;
use std::collections::{BTreeMap, BTreeSet};

/// The replicas of a script whose schema is set.
#[derive(Drop)]
pub(crate) struct Cluster<A: Cells> {
    pub(crate) alloc: Global,
    pub(crate) schema: Schema,
    /// The time of a point that has none of its own, in nanoseconds since the Unix epoch.
    pub(crate) clock: i64,
    /// How far ahead of the clock a point's own time may be, in nanoseconds.
    pub(crate) lead: Option<u64>,
    /// The replicas, by the names of their nodes.
    pub(crate) nodes: BTreeMap<Vec<u8>, Replica<A>>,
    /// The bytes of the pages, by their names.
    pub(crate) pages: BTreeMap<Vec<u8>, Vec<u8>>,
    /// The bytes of the snapshots, by their names.
    pub(crate) snapshots: BTreeMap<Vec<u8>, Vec<u8>>,
    /// The origins used so far.
    pub(crate) origins: BTreeSet<u16>,
    ghost within: { IsLayout schema },
}

impl<A: Cells> Cluster<A> {
    ghost use Rattle.std.specs.Prelude.{◌≡◌, Ok};
    ghost use Rattle.rr_cells.specs.Cells.{Cells};
    ghost use Rattle.rr_cluster.specs.Meaning.{node_in, HasPageText, Leaves, Represents};
    ghost use Rattle.rr_cluster.specs.State.{State, first_state, with_node, with_page};

    /// A cluster without nodes, pages or snapshots.
    pub(crate) fn new(alloc: Global, schema: Schema) -> Cluster<A>
        requires { IsLayout schema }
        ensures { Represents result (first_state schema) }
    {
        Cluster {
            alloc,
            schema,
            clock: 0,
            lead: None,
            nodes: BTreeMap::new(alloc),
            pages: BTreeMap::new(alloc),
            snapshots: BTreeMap::new(alloc),
            origins: BTreeSet::new(alloc),
        }
    }

    /// Makes a replica the node of a name, and adds its origin to those used. A node of that name
    /// is replaced.
    pub(crate) fn put_node(&mut self, name: &[u8], replica: Replica<A>) -> Result<(), Stop>
        ensures { (m : State Cells) → Represents self.old m → replica.schema ≡ self.old.schema
            → Leaves self.new m result (Ok (with_node m name.now (node_in replica))) }
    {
        let number = replica.origin().get();
        let name = Vec::from_slice(self.alloc, name)?;
        self.nodes.insert(name, replica)?;
        self.origins.insert(number)?;
        Ok(())
    }

    /// Keeps the bytes of a page under a name. A page of that name is replaced.
    pub(crate) fn put_page(&mut self, name: &[u8], page: Vec<u8>) -> Result<(), Stop>
        ensures { (m : State Cells) (cells : Cells) → Represents self.old m
            → HasPageText m.schema cells page.items
            → Leaves self.new m result (Ok (with_page m name.now cells)) }
    {
        let name = Vec::from_slice(self.alloc, name)?;
        self.pages.insert(name, page)?;
        Ok(())
    }
}
