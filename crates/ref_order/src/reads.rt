use rule_laws::Reference;

/// What a formula reads of other cells.
#[derive(Clone, Copy)]
pub enum Read<'a> {
    /// The cell that a reference names.
    Cell(&'a Reference),
    /// The components in the dimension at this place of the cube.
    Children(u32),
}
