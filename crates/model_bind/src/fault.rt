use cube_lex::Position;
use lists::ListOf;
use std::alloc::{AllocError, AllocFailed, Global};

/// Why a model isn't deployed: in which file, where in it, and why. Out of memory, it is line 0 of the
/// model file.
#[derive(Debug, Drop)]
pub struct DeployFault {
    /// The bytes of a rule file's name; None is the model file.
    pub file: Option<ListOf<u8>>,
    pub at: At,
    pub cause: DeployCause,
}

/// A place in a file. Statements and feeders count from 1.
#[derive(Clone, Copy, Debug, PartialEq, Eq)]
pub enum At {
    /// A place of its text.
    Text(Position),
    /// A statement of a rule file.
    Statement(u32),
    /// A feeder statement of a rule file.
    Feeder(u32),
}

/// The cause of a refusal. The limits are our own. Causes stand here in the order in which they are looked for, each
/// over the whole model before the next: in all dimensions for the first two, then in all cubes for the next three, and
/// so on.
#[derive(Debug, Drop)]
pub enum DeployCause {
    /// A coefficient of an element is above 10^9 in size. The place is that of the element's statement.
    CoefficientTooLarge,
    /// A dimension has so many pairs of an element and a leaf that counts in it, up to and including the element at
    /// which they become more than 4,000,000. The place is that of its `DIM`.
    TooManyPairs(u64),
    /// A cube has fewer than 2 or more than 16 dimensions. The place is that of its `CUBE`, as it is for the
    /// following
    /// three causes.
    DimensionCount,
    /// A cube has more than 2^62 cells.
    CubeTooLarge,
    /// The cubes up to this one have more than 2^62 cells together.
    ModelTooLarge,
    /// The greatest sizes of a coefficient in the dimensions of a cube have a product above
    /// [`rule_model::MAX_WEIGHT_PRODUCT`].
    WeightProduct,
    /// What stands at this place of a rule file fits no rule text.
    Syntax,
    /// Parentheses of a formula in a rule file are too deep, or a formula has too many operands.
    TooDeep,
    /// A rule file has more than 1,000 statements or more than 1,000 feeder statements.
    TooMany,
    /// A statement or a feeder names a cube, a dimension, an element or an attribute that isn't there.
    UnknownName,
    /// An element without its dimension is in several dimensions of the cube.
    Ambiguous,
    /// Two entries for one dimension, or not as many arguments as there have to be.
    WrongCount,
    /// What names an element depends on more than can be made a table of.
    DynamicReference,
    /// What may stand in a rule of TM1 may not stand there, or not here.
    Unsupported,
    /// The order line of a cube, whose `ORDER` stands there, means no order. Where the order of some cube is to be
    /// found, it doesn't say `AUTO`, or the dimension that it names isn't the cube's or is its last.
    BadOrder,
    /// No order is found: what this reference of a statement, counted from 1 in reading order, reads may have a greater
    /// lag than its cell. It is the first such reference.
    Unlagged(u32),
    /// No order is found: what formulas read at the same lag runs in a circle. These are the names of its elements as
    /// the model file spells them: each reads the next, and the last reads the first. The place is the statement by
    /// which the first one reads. Of several circles any may be named.
    Cycle(ListOf<ListOf<u8>>),
    /// The height of the declared order is above 65,536, up to the first position with which it is. The place is the
    /// model's beginning.
    TooHigh(u64),
    /// This reference of a statement, counted from 1 in reading order, doesn't stand before the statement's cells.
    NotEarlier(u32),
    /// A cube that has rules without `SKIPCHECK` has so many leaf cells, more than 1,000,000. The place is the first
    /// statement of its file.
    DenseTooLarge(u64),
    /// The N part of a statement isn't 0 wherever its cell is neither stored nor fed, by this operand, counted from 1
    /// in reading order.
    NotFed(u32),
    /// So many cells are fed where nothing is stored: one more than 4,000,000, also where there are more still. The
    /// place is the model's beginning.
    FedLimit(u64),
    /// Out of memory. It may come in place of any answer.
    Memory,
}

impl DeployFault {
    ghost use Rattle.std.specs.Prelude.{◌≡◌, ◌⊎◌, Some};
    ghost use Rattle.model_bind.specs.Foundation.{refused_in_model, memory};

    /// The model file is refused at this place.
    pub fn in_model(place: Position, cause: DeployCause) -> DeployFault
        ensures { result ≡ refused_in_model place cause }
    {
        DeployFault {
            file: None,
            at: At::Text(place),
            cause,
        }
    }

    // The fault in the rule file of this name.
    pub(crate) fn within(alloc: Global, name: &[u8], at: At, cause: DeployCause) -> DeployFault
        ensures { (result ≡ memory) ⊎ (result ≡ record { file = Some name.now; at = at; cause = cause }) }
    {
        match Vec::from_slice(alloc, name) {
            Ok(name) => DeployFault {
                file: Some(ListOf::new(name)),
                at,
                cause,
            },
            Err(_) => DeployFault::memory(),
        }
    }

    /// Memory ran out.
    pub fn memory() -> DeployFault
        ensures { result ≡ memory }
    {
        DeployFault::in_model(Position::nowhere(), DeployCause::Memory)
    }
}

impl From<AllocError> for DeployFault {
    ghost use Rattle.std.specs.Prelude.{◌≡◌};
    ghost use Rattle.model_bind.specs.Foundation.{memory};

    ghost from_gives = { λ _ e. e ≡ memory };

    fn from(_: AllocError) -> DeployFault {
        DeployFault::memory()
    }
}

impl<T: Drop> From<AllocFailed<T>> for DeployFault {
    ghost use Rattle.std.specs.Prelude.{◌≡◌};
    ghost use Rattle.model_bind.specs.Foundation.{memory};

    ghost from_gives = { λ _ e. e ≡ memory };

    fn from(_: AllocFailed<T>) -> DeployFault {
        DeployFault::memory()
    }
}
