ghost use Rattle.std.specs.Prelude.{◌≡◌, ◌<◌, [], ◌∷◌, ◌++◌, All, IfOk, OnOk, length, slice_index_or, slice_set};
ghost use Rattle.dim_weights.specs.Table.{IsWeightsOf};
ghost use Rattle.feed_sources.specs.Inside.Above.{AreAdded, AreAllEmpty, IsAboveOf};

use dim_core::Dimension;
use dim_weights::Weights;
use std::alloc::{AllocError, Global};

/// Of each leaf of a dimension the elements that it counts in, itself too.
#[derive(Drop)]
pub struct Above {
    rows: Vec<Row>,
}

impl std::marker::Model for Above {
    ghost use Rattle.std.specs.Prelude.{List, ℕ};

    ghost Value = { List (List ℕ) };

    ghost view = { λ above. above.rows.items };
}

impl Above {
    /// Of this dimension, by its coefficients.
    pub fn of(alloc: Global, dimension: &Dimension, weights: &Weights) -> Result<Above, AllocError>
        requires { IsWeightsOf dimension.now weights.now }
        ensures { IfOk result (IsAboveOf dimension.now) }
    {
        let mut rows = empty_rows(alloc, weights.len())?;
        'each: for element in 0..dimension.len() {
            add_element(&mut rows, element, weights.leaves(element))?;
        }
        Ok(Above { rows })
    }

    /// The elements that a leaf counts in.
    pub fn of_leaf(&self, leaf: u32) -> &[u32]
        requires { leaf < length self.now }
        ensures { result.now ≡ slice_index_or self.now leaf [] }
    {
        self.rows[leaf as usize].elements.as_slice()
    }
}

/// Elements in which one leaf counts.
#[derive(Drop)]
pub struct Row {
    elements: Vec<u32>,
}

impl std::marker::Model for Row {
    ghost use Rattle.std.specs.Prelude.{List, ℕ};

    ghost Value = { List ℕ };

    ghost view = { λ row. row.elements.items };
}

impl Row {
    fn new(alloc: Global) -> Row
        ensures { result ≡ [] }
    {
        Row {
            elements: Vec::new(alloc),
        }
    }

    fn push(&mut self, element: u32) -> Result<(), AllocError>
        ensures { OnOk result (self.new ≡ self.old ++ element ∷ []) }
    {
        Ok(self.elements.push(element)?)
    }
}

fn empty_rows(alloc: Global, count: usize) -> Result<Vec<Row>, AllocError>
    ensures { IfOk result (λ rows. AreAllEmpty count rows.items) }
{
    let mut rows = Vec::with_capacity(alloc, count)?;
    'each: while rows.len() < count {
        rows.push(Row::new(alloc))?;
    }
    Ok(rows)
}

// An element has these leaves.
fn add_element(rows: &mut Vec<Row>, element: u32, pairs: &[(u32, i64)]) -> Result<(), AllocError>
    requires { All (λ pair. pair.0 < length rows.old.items) pairs.now }
    ensures { OnOk result (AreAdded rows.old.items element pairs.now rows.new.items) }
{
    'each: for place in 0..pairs.len() {
        add(rows, pairs[place].0, element)?;
    }
    Ok(())
}

// A leaf counts in an element.
fn add(rows: &mut Vec<Row>, leaf: u32, element: u32) -> Result<(), AllocError>
    requires { leaf < length rows.old.items }
    ensures { OnOk result (rows.new.items ≡ slice_set rows.old.items leaf
        (slice_index_or rows.old.items leaf [] ++ element ∷ [])) }
{
    rows[leaf as usize].push(element)
}
