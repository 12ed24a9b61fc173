use rule_model::{Area, Model};

/// From where references are asked about: an area of a cube of a model.
#[derive(Clone, Copy)]
pub struct Asked<'a> {
    pub model: &'a Model,
    pub cube: u32,
    pub area: &'a Area,
}
