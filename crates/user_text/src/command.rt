use crate::load_params::LoadParams;
use cube_fixed::Money;
use cube_lex::Position;
use dim_name::Name;
use lists::ListOf;

/// A cell as a text names it: its cube, and elements in the order of the cube's dimensions.
#[derive(Drop)]
pub struct CellText {
    pub cube: Name,
    pub elements: ListOf<Name>,
}

/// What a parameter is set to.
#[derive(Drop)]
pub enum ParamText {
    Number(Money),
    /// The bytes that stand between the quotes, each doubled quote being one.
    Text(ListOf<u8>),
}

/// A load: which script runs over which records.
#[derive(Drop)]
pub struct LoadText {
    pub script: Name,
    /// The file of the records, which is UTF-8 and not empty. Without one there are no records.
    pub file: Option<ListOf<u8>>,
    /// How many records at the file's beginning are skipped.
    pub skip: u32,
    /// The byte between the columns of the file.
    pub separator: u8,
    /// The byte between units and decimals of the numbers in the file. It is another one than `separator`.
    pub decimal: u8,
    /// How many records may be passed over at most, where the load says so.
    pub rejects: Option<u32>,
    /// The variables that are set before the script's Prolog. Words are in capitals, and each stands once.
    pub params: LoadParams,
}

/// A set on an axis of a view.
#[derive(Drop)]
pub struct SetText {
    pub dim: Name,
    /// The elements in order; without a list, all of the dimension.
    pub elements: Option<ListOf<Name>>,
}

/// A view: a table of cells of a cube.
#[derive(Drop)]
pub struct ViewText {
    pub cube: Name,
    /// At least one set.
    pub rows: ListOf<SetText>,
    /// At least one set.
    pub columns: ListOf<SetText>,
    /// Dimensions, each with the element at which it stands.
    pub points: ListOf<(Name, Name)>,
    /// Whether rows and columns of zeros are left out.
    pub nozeros: bool,
}

/// How an amount is spread over the cells below: in equal shares, or in proportion to the numbers there.
#[derive(Clone, Copy, Debug)]
pub enum SpreadWord {
    Equal,
    Proportional,
}

/// What a command does.
#[derive(Drop)]
pub enum UserBody {
    Put(CellText, Money),
    Get(CellText),
    Load(LoadText),
    View(ViewText),
    Spread(CellText, Money, SpreadWord),
    /// Asks why a cell has its value.
    Trace(CellText),
    /// Opens a sandbox: what the user writes from here on is kept apart, and only this user sees it.
    Sandbox,
    /// Commits what the sandbox has, as one commit, and closes it.
    Publish,
    /// Closes the sandbox without a commit.
    Discard,
}

/// A command, with the place of its first word.
#[derive(Drop)]
pub struct UserCommand {
    pub at: Position,
    pub body: UserBody,
}
