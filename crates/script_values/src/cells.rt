ghost use Rattle.std.specs.Prelude.{◌≡◌, List, length, take, None, IfOk};
ghost use Rattle.script_values.specs.Cells.{Store, Write, reading, writing, zeroing, refusal, writes_after};
ghost use Rattle.script_values.specs.Cells.{is_updateable};
ghost use Rattle.script_values.specs.Elements.{of_elements};

use crate::load_reason::LoadReason;
use crate::text::Text;
use cube_fixed::Value;
use lists::ListOf;
use std::alloc::{AllocError, Global};

/// The cells of a load: a model and a stored list, and the writes so far. A load sees its own writes.
///
/// The outer `Result` is out of memory alone.
pub trait WorkCells {
    /// What the load runs on.
    ghost store: { Self → Store };
    /// The writes so far, in the order in which they came.
    ghost writes: { Self → List Write };

    /// The value of a cell after the writes so far.
    fn get(
        &mut self,
        alloc: Global,
        cube: &[u8],
        elements: &[Text<'_>],
    ) -> Result<Result<Value, LoadReason>, AllocError>
        ensures value { IfOk result (λ answer. answer
            ≡ reading (store self.old) (writes self.old) cube.now elements.now) }
        ensures store { store self.new ≡ store self.old }
        ensures writes { writes self.new ≡ writes self.old };

    /// Writes a value into a cell, or says why that is refused; a refused write changes nothing.
    fn put(
        &mut self,
        alloc: Global,
        cube: &[u8],
        elements: &[Text<'_>],
        value: Value,
    ) -> Result<Option<LoadReason>, AllocError>
        ensures refused { IfOk result (λ reason. reason
            ≡ refusal (writing (store self.old) (writes self.old) cube.now elements.now value)) }
        ensures written { IfOk result (λ _. writes self.new ≡ writes_after (writes self.old)
            (writing (store self.old) (writes self.old) cube.now elements.now value)) }
        ensures store { store self.new ≡ store self.old };

    /// Whether a number could be written into a cell as far as the cell goes: it is there, a leaf, and open for input.
    fn is_updateable(
        &mut self,
        alloc: Global,
        cube: &[u8],
        elements: &[Text<'_>],
    ) -> Result<bool, AllocError>
        ensures value { IfOk result (λ answer. answer ≡ is_updateable (store self.old) cube.now elements.now) }
        ensures store { store self.new ≡ store self.old }
        ensures writes { writes self.new ≡ writes self.old };

    /// How many elements a dimension has.
    fn element_count(
        &mut self,
        alloc: Global,
        dimension: &[u8],
    ) -> Result<Result<usize, LoadReason>, AllocError>
        ensures value { IfOk result (λ answer. answer
            ≡ of_elements (λ all. all.count) ((store self.old).elements dimension.now)) }
        ensures store { store self.new ≡ store self.old }
        ensures writes { writes self.new ≡ writes self.old };

    /// The name of the element of a dimension at a place, from 1, as it was defined. None where there is none.
    fn element_name(
        &mut self,
        alloc: Global,
        dimension: &[u8],
        place: usize,
    ) -> Result<Result<Option<ListOf<u8>>, LoadReason>, AllocError>
        ensures value { IfOk result (λ answer. answer
            ≡ of_elements (λ all. all.name place) ((store self.old).elements dimension.now)) }
        ensures store { store self.new ≡ store self.old }
        ensures writes { writes self.new ≡ writes self.old };

    /// The place of an element of a dimension, from 1. None where there is no such element.
    fn element_place(
        &mut self,
        alloc: Global,
        dimension: &[u8],
        element: &[u8],
    ) -> Result<Result<Option<usize>, LoadReason>, AllocError>
        ensures value { IfOk result (λ answer. answer
            ≡ of_elements (λ all. all.place element.now) ((store self.old).elements dimension.now)) }
        ensures store { store self.new ≡ store self.old }
        ensures writes { writes self.new ≡ writes self.old };

    /// Whether an element of a dimension is a leaf. None where there is no such element.
    fn is_leaf_element(
        &mut self,
        alloc: Global,
        dimension: &[u8],
        element: &[u8],
    ) -> Result<Result<Option<bool>, LoadReason>, AllocError>
        ensures value { IfOk result (λ answer. answer
            ≡ of_elements (λ all. all.is_leaf element.now) ((store self.old).elements dimension.now)) }
        ensures store { store self.new ≡ store self.old }
        ensures writes { writes self.new ≡ writes self.old };

    /// The text of an attribute of an element of a dimension, which is empty where the element has none. None where
    /// there is no such element.
    fn attribute(
        &mut self,
        alloc: Global,
        dimension: &[u8],
        element: &[u8],
        name: &[u8],
    ) -> Result<Result<Option<ListOf<u8>>, LoadReason>, AllocError>
        ensures value { IfOk result (λ answer. answer
            ≡ of_elements (λ all. all.attribute element.now name.now) ((store self.old).elements dimension.now)) }
        ensures store { store self.new ≡ store self.old }
        ensures writes { writes self.new ≡ writes self.old };

    /// Whether the second element of a dimension lies below the first one, at any depth and whatever the weights. None
    /// where one of them isn't there.
    fn is_ancestor(
        &mut self,
        alloc: Global,
        dimension: &[u8],
        above: &[u8],
        element: &[u8],
    ) -> Result<Result<Option<bool>, LoadReason>, AllocError>
        ensures value { IfOk result (λ answer. answer
            ≡ of_elements (λ all. all.is_below above.now element.now) ((store self.old).elements dimension.now)) }
        ensures store { store self.new ≡ store self.old }
        ensures writes { writes self.new ≡ writes self.old };

    /// Writes a 0 into each open leaf cell that is stored at a cell or counts in it, or says why that is refused; a
    /// refused one changes nothing.
    fn zero_out(
        &mut self,
        alloc: Global,
        cube: &[u8],
        elements: &[Text<'_>],
    ) -> Result<Option<LoadReason>, AllocError>
        ensures refused { IfOk result (λ reason. reason
            ≡ refusal (zeroing (store self.old) (writes self.old) cube.now elements.now)) }
        ensures written { IfOk result (λ _. writes self.new ≡ writes_after (writes self.old)
            (zeroing (store self.old) (writes self.old) cube.now elements.now)) }
        ensures store { store self.new ≡ store self.old };

    /// Marks the writes so far, which pass no limit, so that going back to them is quick. Gives how many they are.
    fn mark(&mut self) -> Result<usize, AllocError>
        ensures count { IfOk result (λ count. count ≡ length (writes self.old)) }
        ensures within { (store self.old).full (writes self.old) ≡ None }
        ensures store { store self.new ≡ store self.old }
        ensures writes { writes self.new ≡ writes self.old };

    /// Takes back all writes but the first so many, which pass no limit.
    fn back(&mut self, alloc: Global, count: usize) -> Result<(), AllocError>
        requires within { (store self.old).full (take count (writes self.old)) ≡ None }
        ensures writes { IfOk result (λ _. writes self.new ≡ take count (writes self.old)) }
        ensures store { store self.new ≡ store self.old };
}
