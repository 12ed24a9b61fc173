ghost use Rattle.std.specs.Prelude.{◌≡◌, ◌<◌, length, All};
ghost use Rattle.std.specs.List.{list_all};
ghost use Rattle.dim_weights.specs.Table.{IsWeightsOf};
ghost use Rattle.feed_turn.specs.Leaves.{counts, is_total_over, least_total, over};

use dim_core::Dimension;
use dim_weights::Weights;

/// The element over these leaves of a dimension: the only one of them, or else the first consolidated element in which
/// each counts.
pub fn over_leaves(dimension: &Dimension, weights: &Weights, leaves: &[u32]) -> Option<u32>
    requires weights { IsWeightsOf dimension.now weights.now }
    requires leaves { All (λ leaf. leaf < length dimension.now.elements) leaves.now }
    ensures { result ≡ over dimension.now leaves.now }
{
    match leaves {
        [leaf] => Some(*leaf),
        _ => least_total(dimension, weights, leaves),
    }
}

// The first consolidated element in which each of these leaves counts.
fn least_total(dimension: &Dimension, weights: &Weights, leaves: &[u32]) -> Option<u32>
    requires weights { IsWeightsOf dimension.now weights.now }
    requires leaves { All (λ leaf. leaf < length dimension.now.elements) leaves.now }
    ensures { result ≡ least_total dimension.now leaves.now }
{
    'each: for element in 0..dimension.len() {
        if is_total_over(dimension, weights, leaves, element) {
            return Some(element);
        }
    }
    None
}

// Whether an element is consolidated, and each of these leaves counts in it.
fn is_total_over(dimension: &Dimension, weights: &Weights, leaves: &[u32], element: u32) -> bool
    requires weights { IsWeightsOf dimension.now weights.now }
    requires leaves { All (λ leaf. leaf < length dimension.now.elements) leaves.now }
    requires element { element < length dimension.now.elements }
    ensures { result ≡ is_total_over dimension.now leaves.now element }
{
    if dimension.is_leaf(element) {
        return false;
    }
    each_counts(dimension, weights, leaves, element)
}

// Whether each of these leaves counts in an element.
fn each_counts(dimension: &Dimension, weights: &Weights, leaves: &[u32], element: u32) -> bool
    requires weights { IsWeightsOf dimension.now weights.now }
    requires leaves { All (λ leaf. leaf < length dimension.now.elements) leaves.now }
    requires element { element < length dimension.now.elements }
    ensures { result ≡ list_all (counts dimension.now element) leaves.now }
{
    'each: for leaf in leaves {
        if !counts(dimension, weights, element, *leaf) {
            return false;
        }
    }
    true
}

// Whether a leaf counts in an element.
fn counts(dimension: &Dimension, weights: &Weights, element: u32, leaf: u32) -> bool
    requires weights { IsWeightsOf dimension.now weights.now }
    requires element { element < length dimension.now.elements }
    requires leaf { leaf < length dimension.now.elements }
    ensures { result ≡ counts dimension.now element leaf }
{
    let _size = dimension.len();
    weights.coef(element, leaf) != 0
}
