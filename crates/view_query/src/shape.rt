use lists::ListOf;

/// A dimension along the rows or the columns of a view.
#[derive(Drop)]
pub struct Axis {
    /// The place of the dimension in the cube, from 0.
    pub place: u32,
    /// The elements that are shown, in this order. One may stand there twice.
    pub elements: ListOf<u32>,
}

/// A view of a cube: each dimension of the cube stands in just one of rows, columns and points.
#[derive(Drop)]
pub struct View {
    pub cube: u32,
    /// All combinations of their elements are rows; the last axis runs fastest.
    pub rows: ListOf<Axis>,
    /// The same for the columns.
    pub columns: ListOf<Axis>,
    /// Places in the cube, each with the element at which it stands.
    pub points: ListOf<(u32, u32)>,
    /// Whether rows and columns of zeros are left out.
    pub nozeros: bool,
}
