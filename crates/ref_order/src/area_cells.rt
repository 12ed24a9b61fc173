use rule_model::{Area, Model};

/// The cells of an area of a cube of a model.
#[derive(Clone, Copy)]
pub struct AreaCells<'a> {
    pub model: &'a Model,
    pub cube: u32,
    pub area: &'a Area,
}
