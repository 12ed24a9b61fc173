use lists::ListOf;

/// The cells of a cube that a statement or a feeder speaks of.
#[derive(Drop)]
pub struct Area {
    /// For each dimension of the cube the elements that the area has in it, rising; none where it has all.
    pub sets: ListOf<Option<ListOf<u32>>>,
}
