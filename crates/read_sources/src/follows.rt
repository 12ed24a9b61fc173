use rule_laws::ElementMap;

/// How the node that is read follows from its node.
#[derive(Clone, Copy)]
pub enum Way<'a> {
    /// It is the same.
    Itself,
    /// It is one of each component of the node's element.
    Parts,
    /// It is always the one of this element.
    To(u32),
    /// The map sends the node's element to its element.
    By(&'a ElementMap),
    /// The map sends an element of another dimension, by its place, to its element.
    Over(u32, &'a ElementMap),
}
