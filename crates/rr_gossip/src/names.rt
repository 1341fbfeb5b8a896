//! The names taken from Summary frames.
ghost use Rattle.std.specs.Prelude.{◌≡◌, [], map};
ghost use Rattle.rr_text.specs.Results.{GivesUnless};
ghost use Rattle.rr_delta.specs.Difference.{IsSummary};
ghost use Rattle.rr_delta.specs.Names.{owned_name};
ghost use Rattle.rr_gossip.specs.SummaryReading.{summary_at};

use crate::summary::read_summary;
use rr_delta::Name;
use rr_page::PageFault;
use rr_schema::Schema;
use std::alloc::Global;
use std::marker::Model;

/// Names of cells with their versions, strictly ascending.
#[derive(Drop)]
pub(crate) struct Names {
    names: Vec<Name>,
}

impl Model for Names {
    ghost use Rattle.std.specs.Prelude.{List, map};
    ghost use Rattle.rr_delta.specs.Difference.{IsSummary};
    ghost use Rattle.rr_delta.specs.Names.{NamedVersion, owned_name};
    ghost use Rattle.rr_gossip.specs.Codes.{coded_names};

    ghost Value = { List NamedVersion };

    ghost coded = { coded_names };

    ghost view = { λ n. map owned_name n.names.items };

    ghost invariant = { λ n. IsSummary (map owned_name n.names.items) };
}

impl Names {
    /// No names.
    pub(crate) fn new(alloc: Global) -> Names
        ensures { result ≡ [] }
    {
        Names {
            names: Vec::new(alloc),
        }
    }

    /// The names.
    pub(crate) fn as_slice(&self) -> &[Name]
        ensures value { map owned_name result.now ≡ self.now }
        ensures ascending { IsSummary (map owned_name result.now) }
    {
        &self.names
    }

    /// Adds the names of the body of a Summary frame. After a refusal there are none.
    pub(crate) fn add(
        &mut self,
        alloc: Global,
        body: &[u8],
        schema: &Schema,
    ) -> Result<(), PageFault>
        ensures { GivesUnless PageFault.Memory (λ _. self.new) result
            (summary_at schema.now self.old body.now) }
    {
        let result = read_summary(alloc, &mut self.names, body, schema);
        if result.is_err() {
            self.names = Vec::new(alloc);
        }
        result
    }
}
