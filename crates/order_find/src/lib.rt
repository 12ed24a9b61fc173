//! Orders that are found: the lag of each cube, and the least ranks over its last dimension that fit the arrows of the
//! model.
//!
//! A node is a cube and an element of its last dimension. [`find`] gives the orders, or why there are none;
//! `specs/Found.antt` says what it finds, and `specs/Circles.antt` what a circle of arrows is. [`NodeGraph`] has the
//! arrows that the statements of a model make between nodes, as `least_ranks` asks for them; `specs/Slots.antt` says
//! which. Ranks that fit the graph are ranks that fit the arrows of the model (`arrow_laws`), and the other way round.
#![tactic(auto)]

mod arrows;
mod circle;
mod fault;
mod filing;
mod finding;
mod graph;
mod laws;
mod link;
mod numbering;
mod numbers;
mod orders;
mod reached;
mod slots;
mod source_arrows;
mod tables;
mod vertex_numbers;

pub use circle::no_ranks_fit_a_circle;
pub use fault::FindFault;
pub use finding::find;
pub use graph::NodeGraph;
pub use laws::{ranks_of_the_graph_fit_the_model, ranks_of_the_model_fit_the_graph};
pub use link::{Link, LinkBy};
