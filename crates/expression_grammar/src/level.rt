/// A level of operators between two operands.
#[derive(Clone, Copy)]
pub enum Level {
    /// `%`, which joins truths.
    Or,
    /// `&`, which joins truths.
    And,
    /// Comparisons, which join values to a truth.
    Relation,
    /// `+` and what stands beside it.
    Sum,
    /// `*` and what stands beside it.
    Product,
}
