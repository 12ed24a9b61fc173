use crate::area::Area;
use crate::order::Order;
use crate::shared_area::SharedArea;
use lists::ListOf;
use rule_laws::{Formula, Reference};

/// The rules of a cube, with every name bound.
#[derive(Drop)]
pub struct CubeRules {
    /// Whether the rules begin with `SKIPCHECK`.
    pub skipcheck: bool,
    /// In the order of the rule file, where the first that applies governs.
    pub statements: ListOf<Statement>,
    pub feeders: ListOf<Feeder>,
    pub order: Order,
}

/// A rule statement.
#[derive(Drop)]
pub struct Statement {
    pub area: Area,
    /// The N part, for leaf cells.
    pub leaf: Option<Formula>,
    /// The C part, for consolidated cells.
    pub cons: Option<Formula>,
    pub form: Form,
}

/// How a statement was written, by which its references are counted.
#[derive(Clone, Copy, PartialEq, Eq)]
pub enum Form {
    /// One formula without a mark, which is both parts.
    Both,
    /// The N part stands first, or alone.
    LeafFirst,
    /// The C part stands first, or alone.
    ConsFirst,
}

/// A feeder with one target. A feeder statement with several targets is several feeders.
#[derive(Drop)]
pub struct Feeder {
    pub area: SharedArea,
    pub target: Reference,
    /// The feeder statement that it comes from, counted from 0.
    pub statement: u32,
}
