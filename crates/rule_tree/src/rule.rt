use crate::tree::{SimpleText, Tree};
use dim_name::Name;
use lists::ListOf;

/// The elements of one dimension that an area has, perhaps with that dimension.
#[derive(Drop)]
pub struct EntryText {
    pub dim: Option<Name>,
    /// At least one element. One alone is the same with and without braces.
    pub elements: ListOf<Name>,
}

/// What a statement says of the cells of its area.
#[derive(Debug, Drop)]
pub enum BodyText {
    /// One formula for leaf cells and consolidated cells.
    Both(Tree),
    /// A formula for leaf cells, `N:`.
    Leaf(Tree),
    /// A formula for consolidated cells, `C:`.
    Cons(Tree),
    /// `N:`, and then `C:`.
    LeafCons(Tree, Tree),
    /// `C:`, and then `N:`.
    ConsLeaf(Tree, Tree),
}

/// A rule: which cells it is for, and how they are computed.
#[derive(Drop)]
pub struct StatementText {
    pub area: ListOf<EntryText>,
    pub body: BodyText,
}

/// A cell that a feeder feeds.
#[derive(Drop)]
pub enum TargetText {
    /// A cell of the same cube.
    Bracket(ListOf<SimpleText>),
    /// A cell of any cube: at least one argument, which are values.
    Db(ListOf<Tree>),
}

/// A feeder: which cells feed, and what they feed.
#[derive(Drop)]
pub struct FeederText {
    pub area: ListOf<EntryText>,
    /// At least one target.
    pub targets: ListOf<TargetText>,
}

/// The rules of a cube.
#[derive(Drop)]
pub struct RuleText {
    /// Whether `SKIPCHECK` stands at the beginning.
    pub skipcheck: bool,
    pub statements: ListOf<StatementText>,
    /// Whether `FEEDERS AUTO` stands, so that feeders are found for the statements of this cube.
    pub finds_feeders: bool,
    /// The feeders that are written.
    pub feeders: ListOf<FeederText>,
}
