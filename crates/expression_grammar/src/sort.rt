/// What an expression is: a value, which is a number or a text, or a truth.
#[derive(Clone, Copy)]
pub enum Sort {
    Value,
    Truth,
}

/// What an expression may be at a place.
#[derive(Clone, Copy)]
pub enum Want {
    /// A value alone.
    Value,
    /// A truth alone.
    Truth,
    /// Either of them, as behind a `(`.
    Any,
}
