/// When an element joins a growing list of elements.
#[derive(Clone, Copy)]
pub enum Joining {
    /// When each of its components is in the list.
    AfterAllParts,
    /// When one of its components is this element, or is in the list.
    WhenLeadingTo(u32),
}
