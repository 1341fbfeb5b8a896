//! A script, from its bytes to what it prints.

ghost use Rattle.std.specs.Prelude.{◌≡◌, Option, IfOk, OnOk};
ghost use Rattle.rr_cells.specs.Cells.{Cells};
ghost use Rattle.rr_cluster.specs.Meaning.{OptionRepresents, Prints};
ghost use Rattle.rr_cluster.specs.Model.{cell_model, sample_model};
ghost use Rattle.rr_cluster.specs.Output.{IsOutput, after_line, output_of};
ghost use Rattle.rr_cluster.specs.Script.{parsed_view, SaysOneLine};
ghost use Rattle.rr_cluster.specs.State.{State};

use crate::cluster::Cluster;
use crate::commands::run_command;
use crate::fault::{CommandFault, RunFault};
use crate::script::event::ScriptLine;
use crate::script::parse_script;
use crate::stop::Stop;
use rr_archive::Cells;
use rr_ring::RingArchive;
use rr_text::refusal::push_refusal;
use std::alloc::Global;

/// What a script prints: the answers of its fetches, the bytes of pages, and `line N: NAME` for
/// each refused command, in the order of its lines.
///
/// The cost of a line is that of its own command: a write looks up its node, its series and its
/// slot; a page finds its first cell, and goes on from cell to cell; a delivery looks up the series
/// and the slot of each cell; a fetch looks up its node and its series, and one slot for each row.
pub fn run(alloc: Global, script: &[u8]) -> Result<Vec<u8>, RunFault>
    ensures cells { IfOk result (λ text. text.items ≡ output_of cell_model script.now) }
    ensures samples { IfOk result (λ text. text.items ≡ output_of sample_model script.now) }
{
    run_on::<RingArchive>(alloc, script)
}

/// What a script prints, as [`run`] gives it, with the series of all nodes in archives of this
/// kind.
pub fn run_on<A: Cells>(alloc: Global, script: &[u8]) -> Result<Vec<u8>, RunFault>
    ensures { IfOk result (λ text. IsOutput script.now text.items) }
{
    let lines = parse_script(alloc, script)?;
    let mut cluster: Option<Cluster<A>> = None;
    let mut text = Vec::new(alloc);
    for line in &lines {
        run_line(alloc, &mut cluster, line, &mut text)?;
    }
    Ok(text)
}

/// Runs a line, and adds what it prints to the text.
fn run_line<A: Cells>(
    alloc: Global,
    cluster: &mut Option<Cluster<A>>,
    line: &ScriptLine<'_>,
    text: &mut Vec<u8>,
) -> Result<(), RunFault>
    requires line { SaysOneLine (parsed_view line.now.parsed) }
    requires state { (m : Option (State Cells)) × OptionRepresents cluster.old m }
    ensures { OnOk result ((m : Option (State Cells)) → OptionRepresents cluster.old m
        → Prints cluster.new text.old.items text.new.items
        (after_line cell_model m line.now.number (parsed_view line.now.parsed))) }
{
    let done = match line.parsed {
        Ok(event) => run_command(alloc, cluster, event, text),
        Err(fault) => Err(Stop::Refused(CommandFault::Syntax(fault))),
    };
    match done {
        Ok(()) => Ok(()),
        Err(Stop::Refused(fault)) => Ok(push_refusal(text, line.number, fault.name())?),
        Err(Stop::Memory) => Err(RunFault::Memory),
    }
}
