use crate::relative::Relative;
use dim_name::Name;
use sqlite_items::Boxed;

/// An element argument with its names bound. Dimensions go by their numbers in the model.
#[derive(Drop)]
pub(crate) enum BoundArgument {
    /// A text, which is the name of an element, or no name.
    Text(Option<Name>),
    /// The cell's own element in dimension `dim`, which stands at this place of the statement's cube.
    Current {
        place: u32,
        dim: u32,
    },
    /// The element of this index, from 1.
    AtIndex {
        dim: u32,
        index: i64,
    },
    /// The element of `dim` whose index is `shift` more than that which the argument's element has in `source`.
    AtPlace {
        dim: u32,
        source: u32,
        of: Boxed<BoundArgument>,
        shift: i64,
    },
    /// The text that an attribute of the argument's element in `dim` has.
    AttributeOf {
        dim: u32,
        of: Boxed<BoundArgument>,
        attribute: Name,
    },
    /// A relative of the argument's element in `dim`.
    RelativeOf {
        dim: u32,
        of: Boxed<BoundArgument>,
        relative: Relative,
    },
}
