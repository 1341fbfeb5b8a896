//! The kinds of cases.

use crate::{
    cells, configs, desks, documents, faults, journals, keys, lines, node_configs, pages, replicas,
    scripts,
};
use anyhow::{Result, bail};
use rr_archive::Cells;
use std::alloc::Global;
use std::sync::Wait;

/// What stands in a file of input for each number in turn.
const MARK: &str = "{n}";

/// A number that neither the calls of a stream nor the growths of a call reach.
pub(crate) const LAST: u32 = 60_000;

/// What a file of input is.
#[derive(Clone, Copy)]
pub(crate) enum Kind {
    /// A script, and what it prints.
    Script,
    /// Lines of the line protocol, and their report.
    Lines,
    /// Schemas as TOML texts, and what each is read as.
    Documents,
    /// Configurations of a node as TOML texts, and what each is read as.
    Configs,
    /// Configurations as TOML texts, and what an operator is told of each.
    Remarks,
    /// Configurations of a node with a directory as TOML texts, and what each is read as.
    NodeConfigs,
    /// The same, and what an operator is told of each.
    NodeRemarks,
    /// The word of some faults, and their names and sentences.
    Faults,
    /// Texts, one a line, and which of them are key texts.
    Keys,
    /// A cell in hexadecimal and changes of its bytes, and what each is read as.
    Cell,
    /// Calls of a replica, one a line, and what they answer.
    Replica,
    /// Calls of a desk over streams in memory, and what they answer.
    Desk,
    /// A page in hexadecimal and changes of its bytes, and what each is read as.
    Page,
    /// A journal's file in hexadecimal and changes of its bytes, and what a replay of each makes.
    Journal,
}

impl Kind {
    /// What a file with this ending is.
    pub(crate) fn of_ending(ending: &str) -> Option<Kind> {
        match ending {
            "rr" => Some(Kind::Script),
            "lines" => Some(Kind::Lines),
            "toml" => Some(Kind::Documents),
            "config" => Some(Kind::Configs),
            "remarks" => Some(Kind::Remarks),
            "node" => Some(Kind::NodeConfigs),
            "node_remarks" => Some(Kind::NodeRemarks),
            "faults" => Some(Kind::Faults),
            "keys" => Some(Kind::Keys),
            "hex" => Some(Kind::Cell),
            "calls" => Some(Kind::Replica),
            "desk" => Some(Kind::Desk),
            "page" => Some(Kind::Page),
            "journal" => Some(Kind::Journal),
            _ => None,
        }
    }

    /// What the libraries answer to a file's bytes, with archives of a kind if it needs any. If the
    /// file has `{n}`, these are their answers with 0, 1, 2 and so on in its place, without answers
    /// equal to the one before, up to the one that greater numbers no longer change. A line `---`
    /// stands between two.
    pub(crate) fn output<A: Cells, T: Wait>(
        self,
        alloc: Global,
        rt: &T,
        input: &[u8],
    ) -> Result<Vec<u8>> {
        match str::from_utf8(input) {
            Ok(text) if text.contains(MARK) => self.outputs_in_turn::<A, T>(alloc, rt, text),
            _ => self.output_of::<A, T>(alloc, rt, input),
        }
    }

    fn outputs_in_turn<A: Cells, T: Wait>(
        self,
        alloc: Global,
        rt: &T,
        text: &str,
    ) -> Result<Vec<u8>> {
        let whole = self.output_at::<A, T>(alloc, rt, text, MARK, LAST)?;
        let mut outputs = Vec::new(alloc);
        let mut before = Vec::new(alloc);
        for number in 0..LAST {
            let output = self.output_at::<A, T>(alloc, rt, text, MARK, number)?;
            if output == whole {
                outputs.extend_from_slice(&whole)?;
                return Ok(outputs);
            }
            if output != before {
                outputs.extend_from_slice(&output)?;
                outputs.extend_from_slice(b"---\n")?;
                before = output;
            }
        }
        bail!("the answers go on to change")
    }

    /// What they answer to a text with a number in place of what stands for it.
    pub(crate) fn output_at<A: Cells, T: Wait>(
        self,
        alloc: Global,
        rt: &T,
        text: &str,
        mark: &str,
        number: u32,
    ) -> Result<Vec<u8>> {
        let number = format!(in alloc; "{number}")?;
        let text = text.replace(alloc, mark, number.as_str())?;
        self.output_of::<A, T>(alloc, rt, text.as_bytes())
    }

    /// What they answer to bytes as they are.
    fn output_of<A: Cells, T: Wait>(self, alloc: Global, rt: &T, input: &[u8]) -> Result<Vec<u8>> {
        match self {
            Kind::Script => scripts::answers::<A>(alloc, input),
            Kind::Lines => lines::answers(alloc, input),
            Kind::Documents => Ok(documents::answers(alloc, input)?),
            Kind::Configs => Ok(configs::answers(alloc, input)?),
            Kind::Remarks => Ok(configs::all_remarks(alloc, input)?),
            Kind::NodeConfigs => Ok(node_configs::answers(alloc, input)?),
            Kind::NodeRemarks => Ok(node_configs::all_remarks(alloc, input)?),
            Kind::Faults => faults::answers(alloc, input),
            Kind::Keys => Ok(keys::answers(alloc, input)?),
            Kind::Cell => cells::answers(alloc, input),
            Kind::Replica => replicas::answers::<A>(alloc, input),
            Kind::Desk => desks::answers::<A, T>(alloc, rt, input),
            Kind::Page => pages::answers(alloc, input),
            Kind::Journal => journals::answers::<A>(alloc, input),
        }
    }
}
