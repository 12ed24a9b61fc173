//! What the server meets outside itself: files to read, a sink to write to, and a gate that sessions pass.
//!
//! Each is a trait that says what its calls leave behind, with a form in memory, whose answers are exact,
//! and a real one, of whose content nothing is known. A fault is counted, so that a contract can say that one came.
//! Read `files` and `sink` first.
#![tactic(auto)]

mod files;
mod gate;
mod host_files;
mod host_sink;
mod memory_files;
mod memory_sink;
mod sink;

pub use files::{Extent, FileFault, Files};
pub use gate::{FreeGate, Gate};
pub use host_files::HostFiles;
pub use host_sink::HostSink;
pub use memory_files::MemoryFiles;
pub use memory_sink::MemorySink;
pub use sink::{Sink, SinkFault};
