//! A gate for tests that holds users until others have come somewhere.
//!
//! Nothing is proved of it but that each call returns: what is in an atomic no clause can say.
#![tactic(auto)]

mod held;

pub use held::HeldGate;
