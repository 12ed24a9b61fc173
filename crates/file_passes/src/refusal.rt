use cube_lex::Position;
use lists::ListOf;

/// Which file is refused, where in it, and why. The answer is the first refusal of the first pass that has one.
#[derive(Debug, Drop)]
pub struct Refusal {
    /// The bytes of the file's name.
    pub file: ListOf<u8>,
    pub at: FilePlace,
    pub cause: Cause,
}

/// A place in a file. Statements and feeders count from 1.
#[derive(Clone, Copy, Debug, PartialEq, Eq)]
pub enum FilePlace {
    /// A place of its text.
    Text(Position),
    /// A statement of a rule file.
    Statement(u32),
    /// A feeder of a rule file.
    Feeder(u32),
}

/// Why a file is refused. Each is printed by its name. Out of memory is no refusal.
#[derive(Debug, Drop)]
pub enum Cause {
    /// What stands there fits no text of its kind.
    Syntax,
    /// The model is written in another version of the format.
    WrongVersion,
    /// A name is given twice.
    Duplicate,
    /// A name of something that isn't there.
    UnknownName,
    /// More of its kind than there may be: of dimensions, cubes, scripts, elements, components, statements and feeders
    /// of a rule file, or commands of all users.
    TooMany,
    /// An element consists of one that isn't there.
    UnknownComponent,
    /// An element consists of itself.
    Loop,
    /// A weight is above 1,000,000 in size.
    WeightRange,
    /// An attribute of an element that isn't there, or a second one of its name.
    BadAttribute,
    /// A coefficient is above 10^9 in size.
    CoefficientTooLarge,
    /// A dimension has so many pairs of an element and a leaf, which is above 4,000,000.
    TooManyPairs(u64),
    /// A cube has fewer than 2 or more than 16 dimensions.
    DimensionCount,
    /// A cube has more than 2^62 cells.
    CubeTooLarge,
    /// All cubes together have more than 2^62 cells.
    ModelTooLarge,
    /// The weights of a cube multiply to more than 10^9.
    WeightProduct,
    /// A formula has too many parentheses open, a script too many parentheses and blocks; or one expression has too
    /// many operands.
    TooDeep,
    /// A word of a script that is no function, with a `(` behind it.
    UnknownFunction,
    /// An element without its dimension is in several dimensions of the cube.
    Ambiguous,
    /// Two entries for one dimension, or not as many arguments as there have to be.
    WrongCount,
    /// What names an element depends on more than can be made a table of.
    DynamicReference,
    /// What may stand in a rule of TM1 may not stand there, or not here.
    Unsupported,
    /// An order line means no order.
    BadOrder,
    /// No order is found: what this reference of a statement, counted from 1 in reading order, reads may have a greater
    /// lag than its cell.
    Unlagged(u32),
    /// No order is found: what formulas read at the same lag runs in a circle of these elements, each of which reads
    /// the next.
    Cycle(ListOf<ListOf<u8>>),
    /// The height of the declared order, which is above 65,536, up to the first position with which it is.
    TooHigh(u64),
    /// This reference of a statement, counted from 1 in reading order, isn't earlier than the statement's cells.
    NotEarlier(u32),
    /// A cube that has rules without `SKIPCHECK` has so many leaf cells, more than 1,000,000.
    DenseTooLarge(u64),
    /// The N part of a statement isn't 0 wherever its cell is neither stored nor fed, by this operand, counted from 1
    /// in reading order.
    NotFed(u32),
    /// So many cells are fed where nothing is stored, one more than 4,000,000, also where there are more still.
    FedLimit(u64),
    /// A load of a script that isn't in the model. The place is that of the load's first word.
    UnknownScript,
}
