/// A place that each session passes at the parts of a command, so that a test can hold one user until another
/// has come somewhere. It promises nothing, and it returns.
pub trait Gate {
    /// Users and commands count from 1. Part 0 is before the version is pinned, part 1 after it, part 2 after an
    /// accepted try and before its commit, and part 3 after the reply is kept.
    fn at(&self, user: u32, command: u32, part: u32);
}

/// The gate that holds nobody.
#[derive(Clone, Copy)]
pub struct FreeGate;

impl Gate for FreeGate {
    fn at(&self, _user: u32, _command: u32, _part: u32) {}
}
