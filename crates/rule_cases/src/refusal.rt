use std::alloc::{AllocError, AllocFailed, Global};
use std::fmt::Debug;

/// Why a case has no values.
#[derive(Drop)]
pub enum Refusal {
    /// It is refused: what is printed of it.
    Told(String),
    /// Out of memory.
    Memory,
}

impl Refusal {
    /// The refusal that tells this.
    pub fn of<T: Debug>(alloc: Global, fault: &T) -> Refusal {
        match format!(in alloc; "{fault:?}") {
            Ok(text) => Refusal::Told(text),
            Err(_) => Refusal::Memory,
        }
    }
}

impl From<AllocError> for Refusal {
    fn from(_: AllocError) -> Refusal {
        Refusal::Memory
    }
}

impl<T: Drop> From<AllocFailed<T>> for Refusal {
    fn from(_: AllocFailed<T>) -> Refusal {
        Refusal::Memory
    }
}
