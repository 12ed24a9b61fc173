use crate::element_table::ElementTable;
use crate::operation::{Fun, Op, Rel};
use crate::reference::Reference;
use cube_fixed::Money;
use sqlite_items::Boxed;

/// A bound formula: a value for each cell of an area, by what its references give there.
#[cycle(formula)]
#[derive(Drop)]
pub enum Formula {
    Number(Money),
    /// What the cell would have if no statement governed it.
    Stet,
    /// What the statements that come after this one in the rule file give the cell.
    Continue,
    /// The weighted sum over the components of the cell's element, in the dimension at this place of the cube
    /// (`ConsolidateChildren` of TM1 Rules). Where that element is a leaf, what `STET` gives.
    Children(u32),
    Ref(Reference),
    /// What the table has for the cell's element in the dimension at this place of the cube.
    Table(u32, ElementTable),
    Binary(Op, Boxed<Formula>, Boxed<Formula>),
    Unary(Fun, Boxed<Formula>),
    /// The first formula where the truth holds, else the second.
    If(Boxed<Truth>, Boxed<Formula>, Boxed<Formula>),
}

/// A condition of an `IF`.
#[cycle(formula)]
#[derive(Drop)]
pub enum Truth {
    Compare(Rel, Formula, Formula),
    And(Boxed<Truth>, Boxed<Truth>),
    Or(Boxed<Truth>, Boxed<Truth>),
    Not(Boxed<Truth>),
}
