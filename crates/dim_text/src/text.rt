use cube_lex::Position;
use dim_core::Dimension;
use std::marker::Model;

/// What a block's statements have built: its dimension, and the places of its head and of its elements' statements.
#[derive(Drop)]
pub struct Block {
    head: Position,
    dimension: Dimension,
    positions: Vec<Position>,
}

impl Model for Block {
    ghost use Rattle.std.specs.Prelude.{◌≡◌, length};
    ghost use Rattle.dim_text.specs.Progress.{Text};

    ghost Value = { Text };

    ghost view = { λ t. record { head = t.head; dimension = t.dimension; positions = t.positions.items } };

    ghost invariant = { λ t. length t.positions.items ≡ length t.dimension.elements };
}

impl Block {
    ghost use Rattle.std.specs.Prelude.{◌≡◌, length};

    pub(crate) fn new(head: Position, dimension: Dimension, positions: Vec<Position>) -> Block
        requires { length positions.items ≡ length dimension.elements }
        ensures { result ≡ record { head = head; dimension = dimension; positions = positions.items } }
    {
        Block {
            head,
            dimension,
            positions,
        }
    }
}

/// A dimension as it stands in a model file: with the places of its head and of its elements' statements. Its names and
/// texts can be written as tokens, as they came from tokens.
#[derive(Drop)]
pub struct DimText {
    block: Block,
}

impl Model for DimText {
    ghost use Rattle.dim_text.specs.Progress.{Text};
    ghost use Rattle.dim_text.specs.Writable.{IsWritable};

    ghost Value = { Text };

    ghost view = { λ t. t.block };

    ghost invariant = { λ t. IsWritable t.block.dimension };
}

impl DimText {
    ghost use Rattle.std.specs.Prelude.{◌≡◌, ◌<◌, length, slice_index_or};
    ghost use Rattle.cube_lex.specs.Positions.{nowhere};
    ghost use Rattle.dim_text.specs.Writable.{IsWritable};

    pub(crate) fn new(block: Block) -> DimText
        requires { IsWritable block.dimension }
        ensures { result ≡ block }
    {
        DimText { block }
    }

    /// What the block's statements define.
    pub fn dimension(&self) -> &Dimension
        ensures dimension { result.now ≡ self.now.dimension }
        ensures writable { IsWritable self.now.dimension }
    {
        &self.block.dimension
    }

    /// The same, without the places.
    pub fn into_dimension(self) -> Dimension
        ensures { result ≡ self.dimension }
    {
        let DimText { block } = self;
        let Block {
            head: _,
            dimension,
            positions: _,
        } = block;
        dimension
    }

    /// The place of an element's statement: of its first word.
    pub fn position(&self, element: u32) -> Position
        requires { element < length self.now.dimension.elements }
        ensures { result ≡ slice_index_or self.now.positions element nowhere }
    {
        self.block.positions[element as usize]
    }

    /// The place of its `DIM`.
    pub fn head(&self) -> Position
        ensures { result ≡ self.now.head }
    {
        self.block.head
    }
}
