//! The commands. Each has a file of its own, with what it does.

ghost use Rattle.std.specs.Prelude.{◌≡◌, ℕ, List, ◌++◌, Option, None, Some, Result};
ghost use Rattle.rr_cells.specs.Cells.{Cells};
ghost use Rattle.rr_cluster.specs.Command.{view_of};
ghost use Rattle.rr_cluster.specs.Commands.{step};
ghost use Rattle.rr_cluster.specs.Meaning.{Begins, CanObey, OptionRepresents, Obeys, Represents};
ghost use Rattle.rr_cluster.specs.Model.{cell_model};
ghost use Rattle.rr_cluster.specs.State.{State};
ghost use Rattle.rr_cluster.specs.Stop.{Gives, Matches};
ghost use Rattle.rr_cluster.specs.declared.fault.CommandFault.{CommandFault};

pub(crate) mod bytes;
pub(crate) mod deliver;
pub(crate) mod delta;
pub(crate) mod fetch;
pub(crate) mod load;
pub(crate) mod node;
pub(crate) mod now;
pub(crate) mod page;
pub(crate) mod save;
pub(crate) mod schema;
pub(crate) mod upgrade;
pub(crate) mod write;

use crate::cluster::Cluster;
use crate::fault::CommandFault;
use crate::script::event::Event;
use crate::stop::Stop;
use bytes::hex_of_page;
use deliver::deliver;
use delta::add_delta;
use fetch::answer_to;
use load::load_node;
use node::add_node;
use now::set_clock;
use page::add_page;
use rr_archive::Cells;
use save::save_node;
use schema::schema_of;
use std::alloc::Global;
use upgrade::upgrade;
use write::write_line;

/// Runs a command, and adds what it prints to the text. Until the schema is set there is no
/// cluster.
pub(crate) fn run_command<A: Cells>(
    alloc: Global,
    cluster: &mut Option<Cluster<A>>,
    event: Event<'_>,
    text: &mut Vec<u8>,
) -> Result<(), Stop>
    requires { CanObey (view_of event) (OptionRepresents cluster.old) }
    ensures { (m : Option (State Cells)) → OptionRepresents cluster.old m
        → Obeys cluster.new m text.old.items text.new.items result
        (step cell_model m (view_of event.entry)) }
{
    match cluster {
        Some(cluster) => run_later_command(cluster, event, text),
        None => {
            *cluster = Some(begin(alloc, event)?);
            Ok(())
        }
    }
}

/// Runs the first command, which must be `schema`.
fn begin<A: Cells>(alloc: Global, event: Event<'_>) -> Result<Cluster<A>, Stop>
    ensures { Begins result (step cell_model None (view_of event.entry)) }
{
    match event {
        Event::Schema { step, archives } => {
            let schema = schema_of(alloc, step, archives)?;
            Ok(Cluster::new(alloc, schema))
        }
        _ => Err(Stop::Refused(CommandFault::NoSchema)),
    }
}

/// Runs a command once the schema is set.
fn run_later_command<A: Cells>(
    cluster: &mut Cluster<A>,
    event: Event<'_>,
    text: &mut Vec<u8>,
) -> Result<(), Stop>
    requires { CanObey (view_of event) (Represents cluster.old) }
    ensures { (m : State Cells) → Represents cluster.old m
        → Obeys (Some cluster.new) (Some m) text.old.items text.new.items result
        (step cell_model (Some m) (view_of event.entry)) }
{
    match event {
        Event::Schema { .. } => Err(Stop::Refused(CommandFault::SchemaSet)),
        Event::Upgrade { archive } => upgrade(cluster, archive),
        Event::Node { name, origin } => add_node(cluster, name, origin),
        Event::Now { time, lead } => set_clock(cluster, time, lead),
        Event::Write { node, line } => write_line(cluster, node, line),
        Event::Page {
            name,
            node,
            from,
            count,
        } => add_page(cluster, name, node, from, count),
        Event::Delta {
            name,
            giver,
            taker,
            from,
            count,
        } => add_delta(cluster, name, giver, taker, from, count),
        Event::Deliver { name, node } => deliver(cluster, name, node),
        Event::Bytes { name } => print(hex_of_page(cluster, name), text),
        Event::Save { name, node } => save_node(cluster, name, node),
        Event::Load { name, node, origin } => load_node(cluster, name, node, origin),
        Event::Fetch { node, request } => print(answer_to(cluster, node, &request), text),
    }
}

/// Adds an answer to the text, if there is one.
fn print(answer: Result<Vec<u8>, Stop>, text: &mut Vec<u8>) -> Result<(), Stop>
    ensures { (due : Result (List ℕ) CommandFault) → Gives (λ parsed. parsed.items) answer due
        → Matches (λ _ parsed. text.new.items ≡ text.old.items ++ parsed)
        (text.new.items ≡ text.old.items) result due }
{
    match answer {
        Ok(answer) => {
            text.extend_from_slice(answer.as_slice())?;
            Ok(())
        }
        Err(stop) => Err(stop),
    }
}
