use bind_areas::BindCause;

/// Where a rule text has a fault.
#[derive(Clone, Copy)]
pub enum BindAt {
    /// In this statement, counted from 1.
    Statement(u32),
    /// In this feeder statement, counted from 1.
    Feeder(u32),
}

/// The first fault of a rule text, in reading order. Where two causes stand at one place, it is the one that comes
/// first among those of [`BindCause`].
#[derive(Clone, Copy)]
pub struct BindFault {
    pub at: BindAt,
    pub cause: BindCause,
}
