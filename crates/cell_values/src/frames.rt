use cube_fixed::{Sum, Value};
use rule_evaluate::Ask;
use sparse_sum::Walk;

/// A cell is evaluated, from the statement that governs it on.
#[derive(Drop)]
pub struct Evaluation {
    pub(crate) cell: u64,
    pub(crate) statement: u32,
    /// The questions that came up, with their answers.
    pub(crate) known: Vec<(Ask, Value)>,
    /// The question that waits for its answer.
    pub(crate) asked: Option<Ask>,
    /// The questions that are asked after it.
    pub(crate) pending: Vec<Ask>,
}

/// The stored or fed leaf cells below a cell are added up.
#[derive(Drop)]
pub struct LeafSum {
    pub(crate) walk: Walk,
    /// How often the cell counts that waits for its value.
    pub(crate) weight: i64,
}

/// The components of a cell's element in a dimension are added up.
#[derive(Drop)]
pub struct ComponentSum {
    pub(crate) cell: u64,
    pub(crate) dim: u32,
    pub(crate) sum: Sum,
    /// The place of the next component.
    pub(crate) next: usize,
    /// How often the component counts that waits for its value.
    pub(crate) weight: i64,
}

/// What is done of the work on a question.
#[derive(Drop)]
pub enum Frame {
    Evaluation(Evaluation),
    Leaves(LeafSum),
    Components(ComponentSum),
}
