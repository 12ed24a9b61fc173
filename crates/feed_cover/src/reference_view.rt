use rule_laws::Reference;
use rule_model::Area;

/// Which elements count of those that a reference names.
#[derive(Clone, Copy)]
pub enum Counted<'a> {
    /// All.
    All,
    /// Those in which some leaf counts.
    Leaves,
    /// Those of an area of the reference's cube.
    Within(&'a Area),
}

/// What is looked at: what a reference names from the leaf cells of an area of a cube.
#[derive(Clone, Copy)]
pub struct ReferenceView<'a> {
    pub cube: u32,
    pub area: &'a Area,
    pub reference: &'a Reference,
    pub counted: Counted<'a>,
}
