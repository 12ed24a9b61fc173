use crate::finals::Finals;
use rule_laws::Reference;
use rule_model::Model;

/// A cube whose statements are gone over.
#[derive(Clone, Copy)]
pub struct CubeView<'a> {
    pub model: &'a Model,
    pub cube: u32,
    /// Which parts of its statements are final.
    pub finals: &'a [Finals],
    /// The reference by which each of its cells names itself.
    pub own: &'a Reference,
}
