use crate::numbering::Place;
use read_sources::Source;

/// What the element of a node gives of what a source asks.
#[derive(Clone, Copy)]
pub struct Gives {
    /// It is consolidated.
    pub own: bool,
    /// A consolidated element is named from it.
    pub its: bool,
}

/// A node of the graph.
#[derive(Clone, Copy)]
pub enum Vertex<'a> {
    /// A node of the model.
    Element(Place),
    /// That of the components of an element that cells of the node's kind may have, or of the consolidated ones alone.
    Components(Place, bool),
    /// That of what a source reads over another dimension from elements of the last one that give this.
    Reached(Source<'a>, Gives),
    /// That of the group of this number.
    Shared(u32),
}
