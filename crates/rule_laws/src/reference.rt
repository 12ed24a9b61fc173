use crate::element_map::ElementMap;
use lists::ListOf;

/// A cell of some cube, named from the cell whose formula is evaluated.
#[derive(Drop)]
pub struct Reference {
    /// The cube of the cell that is named.
    pub cube: u32,
    /// One argument per dimension of that cube, in its order.
    pub args: ListOf<Arg>,
}

/// How an element of the target is found.
#[derive(Drop)]
pub enum Arg {
    /// This element, from every cell.
    Fixed(u32),
    /// For each element of the dimension at place `from` of the source's cube: the target's element, or none.
    Moved { from: u32, to: ElementMap },
}
