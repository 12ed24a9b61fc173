/// Where a formula stands, by which it may be `STET`, `CONTINUE` or `ConsolidateChildren`.
#[derive(Clone, Copy)]
pub enum Standing {
    /// It is the part of a statement for leaf cells or for both kinds, or a branch of an `IF` that stands so.
    Part,
    /// It is the part of a statement for consolidated cells, or a branch of an `IF` that stands so.
    ConsolidatedPart,
    /// It is within another formula.
    Within,
}
