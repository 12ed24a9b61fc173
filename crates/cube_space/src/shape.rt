use dim_name::Name;
use lists::ListOf;

/// A cube before its cells are numbered: its name and the numbers of its dimensions, from 0, in the order in which its
/// cells name their elements.
#[derive(Drop)]
pub struct CubeShape {
    pub name: Name,
    pub dims: ListOf<u32>,
}
