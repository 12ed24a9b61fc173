use crate::order::{Placed, Stored};

/// A cell of a set, or that it is taken out.
#[derive(Clone, Copy, Drop)]
pub struct Member {
    pub cell: u64,
    pub gone: bool,
}

impl Placed for Member {
    ghost cell = { λ member. member.cell };

    fn cell(&self) -> u64 {
        self.cell
    }
}

impl Stored for Member {
    ghost is_gone = { λ member. member.gone };

    fn is_gone(&self) -> bool {
        self.gone
    }
}
