ghost use Rattle.std.specs.Prelude.{◌≡◌};
ghost use Rattle.least_ranks.specs.Inside.States.{rank_of};

/// What a walk knows of a node.
#[derive(Clone, Copy)]
pub enum State {
    /// The walk hasn't come to it.
    New,
    /// It waits for its rank at this place of the path.
    Waiting(u32),
    /// It has this rank.
    Ranked(u32),
}

impl State {
    /// The rank, or 0 where there is none yet.
    pub fn rank(self) -> u32
        ensures { result ≡ rank_of self }
    {
        match self {
            State::Ranked(rank) => rank,
            _ => 0,
        }
    }
}
