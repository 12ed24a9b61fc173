use rule_laws::Reference;
use rule_model::{Area, Model};

/// What is turned round: a reference that a statement of a cube has, from the area of the statement.
#[derive(Clone, Copy)]
pub struct TurnView<'a> {
    pub model: &'a Model,
    pub cube: u32,
    pub area: &'a Area,
    pub reference: &'a Reference,
}
