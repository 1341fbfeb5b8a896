//! One round-robin archive of a schema.

/// One archive, as an `RRA` of rrdcreate: how many steps one of its rows has, how many rows it
/// keeps, and its xff `num / den`, the greatest fraction of a row's steps that may be unknown for
/// the row to be known.
#[derive(Clone, Copy, Debug, PartialEq)]
pub struct ArchiveSpec {
    /// Steps of the schema in one row.
    pub steps: u32,
    /// Rows that are kept.
    pub rows: u32,
    /// The numerator of xff.
    pub num: u32,
    /// The denominator of xff.
    pub den: u32,
}

// By hand, since the laws of a derived impl take the prover ten seconds.
impl Eq for ArchiveSpec {
    ghost use Rattle.std.specs.Cmp.{equiv};
    ghost use Rattle.std.specs.Cmp.Rules.{comparing};
    ghost use Rattle.std.proofs.Common.{rules};

    ghost laws = { equiv (Prim.search (comparing, rules)) (λ x. Prim.search (comparing, rules)) };
}
