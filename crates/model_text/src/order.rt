ghost use Rattle.std.specs.Prelude.{◌≡◌};
ghost use Rattle.model_text.specs.Orders as orders;

use dim_name::Name;
use lists::ListOf;

/// The `ORDER` line of a cube, as it is written. Names aren't looked up yet.
#[derive(Drop)]
pub struct OrderLine {
    /// The version of the model text in which it stands, 1 or 2.
    pub version: u32,
    /// Its positions in order, one at least, or `AUTO` alone.
    pub words: ListOf<OrderWord>,
}

impl OrderLine {
    /// Whether the order of the cube is to be found.
    pub fn has_auto(&self) -> bool
        ensures { result ≡ orders.has_auto self.now.words }
    {
        self.words.as_slice().iter().any(|word| is_auto(word))
    }

    /// Whether one of its words tells leaf cells and consolidated cells apart.
    pub fn has_kinds(&self) -> bool
        ensures { result ≡ orders.has_kinds self.now.words }
    {
        self.words.as_slice().iter().any(|word| is_by_kind(word))
    }
}

fn is_auto(word: &OrderWord) -> bool
    ensures { result ≡ orders.is_auto word.now }
{
    matches!(word, OrderWord::Auto { .. })
}

fn is_by_kind(word: &OrderWord) -> bool
    ensures { result ≡ orders.is_by_kind word.now }
{
    match word {
        OrderWord::RanksByKind(..) | OrderWord::Totals => true,
        OrderWord::Auto { totals, .. } => *totals,
        OrderWord::Constant(_) | OrderWord::Index(_) | OrderWord::Ranks(..) => false,
    }
}

/// One position of an order line, or the word that stands in place of all positions. Numbers are below 2^31.
#[derive(Drop)]
pub enum OrderWord {
    /// The same number for every cell.
    Constant(u32),
    /// The element's index in this dimension.
    Index(Name),
    /// Ranks of elements of this dimension; those that aren't listed have rank 0.
    Ranks(Name, ListOf<(Name, u32)>),
    /// Ranks of elements of this dimension for leaf cells, and others for consolidated cells. Those that aren't listed
    /// have rank 0.
    RanksByKind(Name, ListOf<(Name, u32)>, ListOf<(Name, u32)>),
    /// 0 for a leaf cell, 1 for a consolidated cell.
    Totals,
    /// The order of the cube is to be found. It is the only word of its line.
    Auto {
        /// Whether leaf cells and consolidated cells may have different positions.
        totals: bool,
        /// The dimension, where one is named, in which the element's index is the first position.
        lag: Option<Name>,
    },
}
