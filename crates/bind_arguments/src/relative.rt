/// An element that stands to another one of its dimension in this way.
#[derive(Clone, Copy, Eq, PartialEq)]
pub(crate) enum Relative {
    /// `ELPAR`: the one at this place, from 0, of the consolidations that have it as a component.
    Parent(u64),
    /// `ELCOMP`: the one at this place, from 0, of its components; each naming counts.
    Component(u64),
    /// `DNEXT`: the first leaf behind it.
    NextLeaf,
}
