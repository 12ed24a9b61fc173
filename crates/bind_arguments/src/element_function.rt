use crate::element_text::ElementText;
use dim_name::Name;

/// A function that gives each element of a dimension a number.
#[derive(Drop)]
pub enum ElementFunction {
    /// `DIMIX`: its place in the dimension, from 1.
    Place,
    /// `ELLEV`: its level, which is 0 for a leaf and one more than the greatest of its components for a consolidation.
    Level,
    /// `ELISPAR` and `ELISCOMP`: 1 for a component of the element of this index, whatever its weight, and 0 for others.
    ComponentOf(u32),
    /// `ELISANC`: 1 for what lies below the element of this index, at any depth and whatever the weights, and 0 for
    /// others.
    Below(u32),
    /// `ATTRN`: its text of this attribute as a number; 0 where that is no number.
    Attribute(Name),
    /// `ELCOMPN`: how many components it has; each naming counts.
    ComponentCount,
    /// `ELPARN`: how many consolidations have it as a component; each of them counts once.
    ParentCount,
    /// 1 where both texts of the element are the same, as names are compared, and 0 elsewhere.
    Same(ElementText, ElementText),
}
